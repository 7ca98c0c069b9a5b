//! How a shard's answer to its part of a round is heard.

ghost use Rattle.std.specs.Prelude.{◌≡◌, ◌+◌, ◌<◌, ℕ, true, is_some, length, set, Option, Some, List};
ghost use Rattle.df_model.specs.declared.command.Call.{Call};
ghost use Rattle.df_log.specs.Acts.{Act};
ghost use Rattle.df_log.specs.declared.entry.Entry.{Entry};
ghost use Rattle.df_book.specs.Passes.{Caller};
ghost use Rattle.df_rounds.specs.Progress.{Progress, asks_next, hop_next};
ghost use Rattle.df_rounds.specs.Underway.{Underway};
ghost use Rattle.df_rounds.specs.Between.{Between};
ghost use Rattle.df_hops.specs.Shown.{book_shown};
ghost use Rattle.df_hops.specs.declared.answer.Outcome.{Outcome as AnOutcome};
ghost use Rattle.df_post.specs.Fits.{fits, is_hop};
ghost use Rattle.df_post.specs.Rounds.{place_at};
ghost use Rattle.df_post.specs.declared.awaited.PartKind.{PartKind};
ghost use Rattle.df_exchange.specs.Asks.{awaited_hop};
ghost use Rattle.df_exchange.specs.Exchanges.{HopAnswered, Hearing, IsHopPlace};

use df_book::{Book, CallerPass};
use df_hops::{Answer, AnswerBody, Outcome};
use df_post::Round;
use df_rounds::take_answer;

/// Hears the answer of a shard to its part of the round, if it had one. Takes no memory.
pub fn hear(book: &Book, pass: &mut CallerPass, round: &mut Round, shard: u32) -> Option<Outcome>
    requires book { (pass.old.book ≡ book.now) × (round.old.book ≡ book.now) }
    requires there { shard < length round.old.places }
    requires hops { IsHopPlace (place_at shard round.old) }
    ensures same { (pass.new.book ≡ pass.old.book) × (pass.new.first ≡ pass.old.first) × (pass.new.budget ≡ pass.old.budget) × (round.new.book ≡ round.old.book) × (length round.new.places ≡ length round.old.places) }
    ensures heard { (shards n : ℕ) (before : Caller) (call : Call) (progress : Progress) (outcomes : List (Option AnOutcome)) → 0 < shards → book.now.words ≡ shards + 2 → Hearing shards shard n before call progress pass.old round.old outcomes → shard < shards → Hearing shards (shard + 1) n before call progress pass.new round.new (set outcomes shard result) }
{
    let answer = round.take(shard)?;
    Some(told_by(book, pass, answer))
}

/// The outcome that an answer to a Hop tells.
fn told_by(book: &Book, pass: &mut CallerPass, answer: Answer) -> Outcome
    requires book { pass.old.book ≡ book.now }
    requires shown { book_shown book.now answer.body ≡ book.now }
    requires did { (part : PartKind) × (is_hop part answer.body ≡ true) }
    ensures same { (pass.new.book ≡ pass.old.book) × (pass.new.first ≡ pass.old.first) × (pass.new.budget ≡ pass.old.budget) }
    ensures told { (shards s n : ℕ) (before v : Caller) (call : Call) (progress : Progress) (act : Act) (back : ℕ → Option Entry) → 0 < shards → book.now.words ≡ shards + 2 → Between shards before call n progress v → Underway shards n v pass.old (λ i. is_some (asks_next shards progress i)) back → asks_next shards progress s ≡ Some act → fits (awaited_hop n (hop_next shards progress) act) s answer ≡ true → HopAnswered shards s n progress act v pass.new back result }
{
    let Answer { body, .. } = answer;
    match body {
        AnswerBody::Did {
            outcome,
            receipt,
            ..
        } => {
            take_answer(book, pass, receipt);
            outcome
        }
        AnswerBody::Taken
        | AnswerBody::Refused { .. }
        | AnswerBody::NoMemory
        | AnswerBody::Passed { .. }
        | AnswerBody::Ran { .. }
        | AnswerBody::Wanted { .. }
        | AnswerBody::Freed
        | AnswerBody::Pulled { .. } => unreachable!(),
    }
}
