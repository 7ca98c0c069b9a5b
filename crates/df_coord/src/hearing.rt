//! How the answer of a call of one hop is heard.

ghost use Rattle.std.specs.Prelude.{◌≡◌, ◌+◌, ◌<◌, true};
ghost use Rattle.df_model.specs.declared.command.Call.{Call};
ghost use Rattle.df_book.specs.Passes.{Caller};
ghost use Rattle.df_hops.specs.Shown.{book_shown};
ghost use Rattle.df_post.specs.Fits.{fits};
ghost use Rattle.df_coord.specs.Asking.{Asked, RunsAlone, awaited_for};
ghost use Rattle.df_coord.specs.Hearing.{HasHeard};

use df_book::{Book, CallerPass};
use df_caller::Slip;
use df_hops::{Answer, AnswerBody, Why};
use df_rounds::take_answer;

/// What a Quick came to.
#[derive(Drop)]
pub(crate) enum Heard {
    /// It ran, and its reply lies in the slip.
    Ran(Box<Slip>),
    /// It ran, and found no memory.
    Wanted(Box<Slip>),
    /// It ran nothing.
    Passed(Why, Box<Slip>),
}

/// Takes the answer to a call that was asked for.
pub(crate) fn hear(book: &Book, pass: &mut CallerPass, shards: u32, answer: Answer) -> Heard
    requires book { (pass.old.book ≡ book.now) × (book.now.words ≡ shards + 2) }
    requires some { 0 < shards }
    requires shown { book_shown book.now answer.body ≡ book.now }
    requires fits { fits (awaited_for answer.number) answer.shard answer ≡ true }
    ensures heard { (v : Caller) (call : Call) → RunsAlone shards answer.shard call → Asked v pass.old call answer.number → HasHeard result shards v pass.new call answer.number }
    ensures pass { (pass.new.book ≡ pass.old.book) × (pass.new.first ≡ pass.old.first) × (pass.new.budget ≡ pass.old.budget) }
{
    let Answer { body, .. } = answer;
    match body {
        AnswerBody::Ran { slip, receipt, .. } => {
            take_answer(book, pass, receipt);
            Heard::Ran(slip)
        }
        AnswerBody::Wanted { slip, receipt } => {
            take_answer(book, pass, receipt);
            Heard::Wanted(slip)
        }
        AnswerBody::Passed { why, slip, receipt } => {
            take_answer(book, pass, receipt);
            Heard::Passed(why, slip)
        }
        AnswerBody::Taken
        | AnswerBody::Refused { .. }
        | AnswerBody::NoMemory
        | AnswerBody::Did { .. }
        | AnswerBody::Freed
        | AnswerBody::Pulled { .. } => unreachable!(),
    }
}
