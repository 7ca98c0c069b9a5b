//! How a call takes its places: each shard is asked for what the call needs there.

ghost use Rattle.std.specs.Prelude.{◌≡◌, ◌≢◌, ◌⊎◌, ◌+◌, ◌<◌, ℕ, length, set, true};
ghost use Rattle.df_core.specs.History.{NamesAShard};
ghost use Rattle.df_book.specs.Draws.{call_at, draws_of, last_number};
ghost use Rattle.df_post.specs.Rounds.{Idle, is_done, place_at};
ghost use Rattle.df_post.specs.declared.awaited.Kind.TheVariants as kinds;
ghost use Rattle.df_many.specs.Rooms.{AllIdle, AllOf, IsRoom, SameWay, is_asked, kind_there};
ghost use Rattle.df_many.specs.declared.places.Placed.TheVariants as places;
ghost use Rattle.df_keys.specs.Asked.{FootprintsStand};

use crate::room::Room;
use df_book::{Book, CallerPass};
use df_hops::{AnswerBody, schedule};

/// What the shards answered to who asked for places.
#[derive(Clone, Copy, Debug, PartialEq, Eq)]
pub(crate) enum Placed {
    Everywhere,
    /// A shard refused the number, and none found no memory.
    Refused,
    /// A shard found no memory.
    NoMemory,
}

/// Asks each shard for what the call needs there. Takes no memory.
pub(crate) fn ask_places(
    book: &Book,
    pass: &mut CallerPass,
    room: &mut Room,
    shards: u32,
    conn: u32,
    number: u64,
)
    requires book { (pass.old.book ≡ book.now) × (book.now.words ≡ shards + 2) }
    requires room { IsRoom book.now shards room.old }
    requires idle { AllIdle room.old.round }
    requires drawn { (0 < length pass.old.own) × (0 < draws_of number pass.old.own) }
    requires last { last_number pass.old.own ≡ number }
    requires keys { FootprintsStand shards (call_at pass.old.own number) room.old.keys.items }
    ensures pass { pass.new ≡ pass.old }
    ensures room { IsRoom book.now shards room.new }
    ensures plan { room.new.plan ≡ room.old.plan }
    ensures asked { AllOf kinds.Place room.new.round }
    ensures named { (s : ℕ) → is_asked (place_at s room.new.round) ≡ true → NamesAShard shards (call_at pass.old.own number) }
    ensures way { SameWay room.old.round room.new.round }
{
    'shards: for shard in 0..shards {
        if let Some(keys) = room.keys[shard as usize].take() {
            let m = schedule(book, pass, shard, conn, number, keys);
            room.round.add(m);
        }
    }
}

/// Hears what the shards answered.
pub(crate) fn hear_places(room: &mut Room, shards: u32) -> Placed
    requires places { length room.old.round.places ≡ shards }
    requires taken { length room.old.taken.items ≡ shards }
    requires asked { AllOf kinds.Place room.old.round }
    requires done { (s : ℕ) → is_done (place_at s room.old.round) ≡ true }
    ensures same { (room.new.round.book ≡ room.old.round.book) × (length room.new.round.places ≡ shards) × (length room.new.taken.items ≡ shards) × (room.new.outcomes ≡ room.old.outcomes) × (room.new.keys ≡ room.old.keys) × (room.new.plan ≡ room.old.plan) }
    ensures idle { AllIdle room.new.round }
    ensures told { result ≢ places.Everywhere → (s : ℕ) × (is_asked (place_at s room.old.round) ≡ true) }
    ensures way { SameWay room.old.round room.new.round }
{
    let mut placed = Placed::Everywhere;
    'shards: for shard in 0..shards {
        let said = hear_place(room, shard);
        placed = worse(placed, said);
    }
    placed
}

/// Hears one shard, and notes whether the call has a place there.
fn hear_place(room: &mut Room, shard: u32) -> Placed
    requires there { (shard < length room.old.round.places) × (shard < length room.old.taken.items) }
    requires asked { kind_there kinds.Place shard room.old.round }
    requires done { is_done (place_at shard room.old.round) ≡ true }
    ensures round { room.new.round ≡ record room.old.round { places = set room.old.round.places shard Idle } }
    ensures told { result ≢ places.Everywhere → is_asked (place_at shard room.old.round) ≡ true }
    ensures same { (length room.new.taken.items ≡ length room.old.taken.items) × (room.new.outcomes ≡ room.old.outcomes) × (room.new.keys ≡ room.old.keys) × (room.new.plan ≡ room.old.plan) }
{
    room.taken[shard as usize] = false;
    let Some(answer) = room.round.take(shard) else {
        return Placed::Everywhere;
    };
    match answer.body {
        AnswerBody::Taken => {
            room.taken[shard as usize] = true;
            Placed::Everywhere
        }
        AnswerBody::Refused { .. } => Placed::Refused,
        AnswerBody::NoMemory => Placed::NoMemory,
        AnswerBody::Passed { .. } => unreachable!(),
        AnswerBody::Ran { .. } => unreachable!(),
        AnswerBody::Wanted { .. } => unreachable!(),
        AnswerBody::Did { .. } => unreachable!(),
        AnswerBody::Freed => unreachable!(),
        AnswerBody::Pulled { .. } => unreachable!(),
    }
}

fn worse(one: Placed, other: Placed) -> Placed
    ensures { (result ≡ one) ⊎ (result ≡ other) }
{
    match one {
        Placed::NoMemory => Placed::NoMemory,
        Placed::Everywhere => other,
        Placed::Refused => match other {
            Placed::NoMemory => Placed::NoMemory,
            _ => Placed::Refused,
        },
    }
}
