//! How a call lets go of its places.

ghost use Rattle.std.specs.Prelude.{◌≡◌, ◌+◌, ◌<◌, ℕ, true, length, set};
ghost use Rattle.df_book.specs.Draws.{draws_of, last_number};
ghost use Rattle.df_post.specs.Rounds.{Idle, is_done, place_at};
ghost use Rattle.df_post.specs.Fits.{awaited_by};
ghost use Rattle.df_post.specs.declared.awaited.Kind.TheVariants as kinds;
ghost use Rattle.df_many.specs.Rooms.{AllIdle, AllOf, IsRoom, SameWay};

use crate::room::Room;
use df_book::{Book, CallerPass};
use df_hops::{Message, cancel, conclude};

/// Asks each shard where the call has its place to let go of it: of one that is done, or of one that ran nothing. Takes
/// no memory.
pub(crate) fn ask_to_leave(
    book: &Book,
    pass: &mut CallerPass,
    room: &mut Room,
    shards: u32,
    conn: u32,
    number: u64,
    done: bool,
)
    requires book { pass.old.book ≡ book.now }
    requires room { IsRoom book.now shards room.old }
    requires idle { AllIdle room.old.round }
    requires drawn { (0 < length pass.old.own) × (0 < draws_of number pass.old.own) }
    requires last { last_number pass.old.own ≡ number }
    ensures pass { pass.new ≡ pass.old }
    ensures room { IsRoom book.now shards room.new }
    ensures asked { AllOf kinds.Free room.new.round }
    ensures way { SameWay room.old.round room.new.round }
{
    'shards: for shard in 0..shards {
        if room.taken[shard as usize] {
            let m = leave_of(book, pass, shard, conn, number, done);
            room.round.add(m);
        }
    }
}

fn leave_of(
    book: &Book,
    pass: &mut CallerPass,
    shard: u32,
    conn: u32,
    number: u64,
    done: bool,
) -> Message
    requires book { pass.old.book ≡ book.now }
    requires drawn { (0 < length pass.old.own) × (0 < draws_of number pass.old.own) }
    requires last { last_number pass.old.own ≡ number }
    ensures pass { pass.new ≡ pass.old }
    ensures message { (result.shard ≡ shard) × (result.ticket.book ≡ book.now) }
    ensures kind { (awaited_by result).kind ≡ kinds.Free }
{
    if done {
        conclude(book, pass, shard, conn, number)
    } else {
        cancel(book, pass, shard, conn, number)
    }
}

/// Hears that the shards let go.
pub(crate) fn hear_left(room: &mut Room, shards: u32)
    requires places { length room.old.round.places ≡ shards }
    requires done { (s : ℕ) → is_done (place_at s room.old.round) ≡ true }
    ensures same { (room.new.round.book ≡ room.old.round.book) × (length room.new.round.places ≡ shards) × (room.new.taken ≡ room.old.taken) × (room.new.outcomes ≡ room.old.outcomes) × (room.new.keys ≡ room.old.keys) × (room.new.plan ≡ room.old.plan) }
    ensures idle { AllIdle room.new.round }
    ensures way { SameWay room.old.round room.new.round }
{
    'shards: for shard in 0..shards {
        let _freed = room.round.take(shard);
    }
}
