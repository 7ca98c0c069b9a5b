//! The rounds of a call by the book's calls: what the state machine of a call does with its caller's pass.

ghost use Rattle.std.specs.Prelude.{◌≡◌, ◌<◌, ◌^◌, ℕ, Bool, true, false, length, Option, Some, None};
ghost use Rattle.df_model.specs.declared.command.Call.{Call as TheCall};
ghost use Rattle.df_order.specs.Lists.{Has};
ghost use Rattle.df_order.specs.Puts.{put};
ghost use Rattle.df_log.specs.declared.entry.Entry.{Entry as TheEntry};
ghost use Rattle.df_book.specs.Weights.{Each, count};
ghost use Rattle.df_book.specs.Logs.{AllBelow, BothSeen, at_log};
ghost use Rattle.df_book.specs.Draws.{Bounded, OwnAgreed};
ghost use Rattle.df_book.specs.Passes.{Caller, after_draw, after_receipt, after_running, running_of};
ghost use Rattle.df_rounds.specs.Progress.{Progress, progress_of};
ghost use Rattle.df_rounds.specs.Underway.{Underway};
ghost use Rattle.df_rounds.specs.Between.{Between};

use df_book::{Book, CallerPass, Receipt, Ticket};
use df_model::Call;

/// Draws a number for the call, which then stands at its first command, on any number of shards.
#[tactic(auto, using(crate::proofs::BetweenLaws::calls_are_drawn))]
pub fn draw_call(book: &Book, pass: &mut CallerPass, call: &Call) -> u64
    requires book { pass.old.book ≡ book.now }
    requires caller { (pass.old.first ≡ 0) × (0 < pass.old.budget) }
    requires bounded { Bounded pass.old.own pass.old.made pass.old.seen }
    ensures drawn { pass.new ≡ after_draw pass.old call.now result }
    ensures range { (0 < result) × (result < 2 ^ 63) }
    ensures stands { (shards : ℕ) → Between shards pass.old call.now result (progress_of call.now) pass.new }

    // What is asked where the call was refused, and never ran.
    ensures above { Each (λ d. d.number < result) pass.old.own × AllBelow result pass.old.seen }
    ensures fresh { count result pass.old.made ≡ 0 }
{
    let number = book.draw(pass, call);
    number
}

/// A running ticket of the last number drawn, for a shard that wasn't sent one in this round.
#[tactic(auto, using(crate::proofs::UnderwayLaws::rounds_send))]
pub fn ticket_for(book: &Book, pass: &mut CallerPass) -> Ticket
    requires book { pass.old.book ≡ book.now }
    requires drawn { 0 < length pass.old.own }
    ensures ticket { result ≡ running_of pass.old }
    ensures made { pass.new ≡ after_running pass.old }
    ensures sent { (shards n : ℕ) (v : Caller) (sent : ℕ → Bool) (back : ℕ → Option TheEntry) (s : ℕ) → s < shards → sent s ≡ false → Underway shards n v pass.old sent back → Underway shards n v pass.new (put s true sent) back }
{
    let ticket = book.ticket(pass, true);
    ticket
}

/// Takes the receipt of an answer. It may show an entry of the call; else the round, or what the call keeps between two
/// rounds, stays as it was.
#[tactic(auto, using(crate::proofs::UnderwayLaws::rounds_take, crate::proofs::UnderwayLaws::rounds_see, crate::proofs::BetweenLaws::calls_see))]
pub fn take_answer(book: &Book, pass: &mut CallerPass, receipt: Receipt)
    requires book { (pass.old.book ≡ book.now) × (receipt.book ≡ pass.old.book) }
    ensures seen { (pass.new ≡ after_receipt pass.old receipt pass.new.seen) × BothSeen pass.old.seen receipt.seen pass.new.seen }
    ensures shown { at_log receipt.seen receipt.shard ≡ receipt.log }
    ensures agreed { OwnAgreed pass.new.own pass.new.known }
    ensures answered { (shards n : ℕ) (v : Caller) (sent : ℕ → Bool) (back : ℕ → Option TheEntry) (e : TheEntry) → Has receipt.log e → e.number ≡ n → Underway shards n v pass.old sent back → Underway shards n v pass.new sent (put receipt.shard (Some e) back) }
    ensures round_stays { (shards n : ℕ) (v : Caller) (sent : ℕ → Bool) (back : ℕ → Option TheEntry) → Underway shards n v pass.old sent back → Underway shards n v pass.new sent back }
    ensures call_stays { (shards n : ℕ) (before : Caller) (call : TheCall) (progress : Progress) → Between shards before call n progress pass.old → Between shards before call n progress pass.new }
{
    book.take_receipt(pass, receipt);
}
