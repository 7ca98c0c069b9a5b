//! How a call asks for the hops of a round, and hears what they came to.

ghost use Rattle.std.specs.Prelude.{◌≡◌, ◌+◌, ◌<◌, ℕ, true, length, None};
ghost use Rattle.df_model.specs.declared.command.Call.{Call};
ghost use Rattle.df_book.specs.Passes.{Caller};
ghost use Rattle.df_rounds.specs.Progress.{Progress};
ghost use Rattle.df_caller.specs.declared.slip.Slip.{Slip as TheSlip};
ghost use Rattle.df_post.specs.Rounds.{is_done, place_at};
ghost use Rattle.df_exchange.specs.Exchanges.{Exchanging, Hearing, Rounded};
ghost use Rattle.df_turn.specs.Turns.{IsClear};
ghost use Rattle.df_plan.specs.Plans.{Asks};
ghost use Rattle.df_many.specs.Rooms.{IsRoom, SameWay};

use crate::room::Room;
use df_book::{Book, CallerPass};
use df_exchange::{ask, hear};

/// Asks each shard for its part of the next round. Takes no memory.
pub(crate) fn ask_hops(
    book: &Book,
    pass: &mut CallerPass,
    room: &mut Room,
    shards: u32,
    conn: u32,
    number: u64,
)
    requires some { 0 < shards }
    requires book { (pass.old.book ≡ book.now) × (book.now.words ≡ shards + 2) }
    requires room { IsRoom book.now shards room.old }
    requires goes { (before : Caller) × (call : Call) × (progress : Progress) × (slip : TheSlip) × Exchanging shards 0 number before call progress pass.old room.old.round × Asks shards 0 call progress room.old.plan slip }
    ensures same { (pass.new.book ≡ pass.old.book) × (pass.new.first ≡ pass.old.first) × (pass.new.budget ≡ pass.old.budget) }
    ensures room { IsRoom book.now shards room.new }
    ensures way { SameWay room.old.round room.new.round }
    ensures asked { (before : Caller) (call : Call) (progress : Progress) (slip : TheSlip) → Exchanging shards 0 number before call progress pass.old room.old.round → Asks shards 0 call progress room.old.plan slip → Exchanging shards shards number before call progress pass.new room.new.round × Asks shards shards call progress room.new.plan slip }
{
    let hop = room.plan.hop();
    'shards: for shard in 0..shards {
        let part = room.plan.part(shard);
        ask(book, pass, &mut room.round, conn, number, hop, shard, part);
    }
}

/// Hears each shard.
pub(crate) fn hear_hops(book: &Book, pass: &mut CallerPass, room: &mut Room, shards: u32)
    requires some { 0 < shards }
    requires book { (pass.old.book ≡ book.now) × (book.now.words ≡ shards + 2) }
    requires room { IsRoom book.now shards room.old }
    requires hops { (n : ℕ) × (before : Caller) × (call : Call) × (progress : Progress) × Exchanging shards shards n before call progress pass.old room.old.round }
    requires done { (s : ℕ) → is_done (place_at s room.old.round) ≡ true }
    ensures same { (pass.new.book ≡ pass.old.book) × (pass.new.first ≡ pass.old.first) × (pass.new.budget ≡ pass.old.budget) }
    ensures room { (room.new.round.book ≡ book.now) × (length room.new.round.places ≡ shards) × (length room.new.outcomes.items ≡ shards) × (room.new.taken ≡ room.old.taken) × (room.new.keys ≡ room.old.keys) × (room.new.plan ≡ room.old.plan) }
    ensures way { SameWay room.old.round room.new.round }
    ensures heard { (n : ℕ) (before : Caller) (call : Call) (progress : Progress) → Exchanging shards shards n before call progress pass.old room.old.round → Hearing shards shards n before call progress pass.new room.new.round room.new.outcomes.items }
{
    'shards: for shard in 0..shards {
        let outcome = hear(book, pass, &mut room.round, shard);
        room.outcomes[shard as usize] = outcome;
    }
}
