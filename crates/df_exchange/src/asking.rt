//! How a shard is asked for its part of a round.

ghost use Rattle.std.specs.Prelude.{◌≡◌, ◌+◌, ◌<◌, ℕ, length};
ghost use Rattle.std.specs.Option.{option_map};
ghost use Rattle.df_model.specs.declared.command.Call.{Call};
ghost use Rattle.df_book.specs.Passes.{Caller};
ghost use Rattle.df_rounds.specs.Progress.{Progress, asks_next, hop_next};
ghost use Rattle.df_hops.specs.Parts.{act_of, shards_in};
ghost use Rattle.df_post.specs.Rounds as rounds;
ghost use Rattle.df_post.specs.Rounds.{awaited_in, place_at};
ghost use Rattle.df_exchange.specs.Exchanges.{DueIf, Exchanging};

use df_book::{Book, CallerPass};
use df_hops::Part;
use df_post::Round;

/// Asks a shard for its part of the call's next round, or for nothing. The message waits in the round for its next `go`.
/// Takes no memory.
pub fn ask(
    book: &Book,
    pass: &mut CallerPass,
    round: &mut Round,
    conn: u32,
    number: u64,
    hop: u32,
    shard: u32,
    part: Option<Part>,
)
    requires book { (pass.old.book ≡ book.now) × (round.old.book ≡ book.now) }
    requires there { shard < length round.old.places }
    requires idle { place_at shard round.old ≡ rounds.Idle }
    requires due { DueIf (shards_in book.now) number shard hop part pass.old }
    ensures same { (pass.new.book ≡ pass.old.book) × (pass.new.first ≡ pass.old.first) × (pass.new.budget ≡ pass.old.budget) × (round.new.book ≡ round.old.book) × (length round.new.places ≡ length round.old.places) }
    // Nothing of it awaits an answer before it is sent.
    ensures way { (s : ℕ) → awaited_in (place_at s round.new) ≡ awaited_in (place_at s round.old) }
    ensures asks { (shards : ℕ) (before : Caller) (call : Call) (progress : Progress) → Exchanging shards shard number before call progress pass.old round.old → option_map act_of part ≡ asks_next shards progress shard → hop ≡ hop_next shards progress → Exchanging shards (shard + 1) number before call progress pass.new round.new }
{
    let Some(part) = part else {
        return;
    };
    let message = df_hops::hop(book, pass, shard, conn, number, hop, part);
    round.add(message);
}
