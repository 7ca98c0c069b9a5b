//! Armed hops run in their turn: a call's that was granted what it asked for, or the oldest call's.

ghost use Rattle.std.specs.Prelude.{◌≡◌, ◌≢◌, ℕ, ◌<◌, ◌≤◌, true, false, None, Some, IfNone, IfSome, [], length, slice_index_or, map};
ghost use Rattle.df_log.specs.Parts.{own_keys};
ghost use Rattle.df_book.specs.Weights.{Each};
ghost use Rattle.df_hops.specs.Parts.{act_of};
ghost use Rattle.df_hops.specs.Shown.{book_shown};
ghost use Rattle.df_shard.specs.Bodies.{ends_quick};
ghost use Rattle.df_shard.specs.Changes.{left};
ghost use Rattle.df_shard.specs.Facts.{Facts};
ghost use Rattle.df_shard.specs.Holds.{Hopping, Wait, call_act, hopping, puts_in, staged_at, wait_at, wait_of};
ghost use Rattle.df_shard.specs.Leaving.{IsGone};
ghost use Rattle.df_shard.specs.MayRun.{has_armed, is_head, is_ready, may_run};
ghost use Rattle.df_shard.specs.Served.{IsLinkedAct, ServedTo, armed_as};
ghost use Rattle.df_shard.specs.declared.waiting.Armed.TheVariants as armeds;
ghost use Rattle.df_shard.specs.declared.waiting.Waiting.{Waiting};

use crate::entries::did;
use crate::parts::do_part;
use crate::running::{ran_body, run_call};
use crate::shard::Shard;
use crate::waiting::{Armed, Waiting};
use df_book::{Book, Receipt, Witness};
use df_caller::Slip;
use df_hops::{Answer, AnswerBody, Outcome, Part};
use df_log::Entry;
use df_table::Table;
use df_txqueue::TxQueue;
use std::alloc::Global;
use std::mem;
use std::snapshot::Snapshot;

/// What came of a hop that ran.
#[derive(Drop)]
pub(crate) enum Came {
    /// Of a Quick: whether there is a reply, in its slip.
    OfQuick(bool, Box<Slip>),
    OfPart(Outcome),
}

/// A hop that ran.
#[derive(Drop)]
pub(crate) struct Turned {
    pub(crate) hop: u32,
    pub(crate) entry: Entry,
    pub(crate) came: Came,
}

impl Shard {
    /// Runs an armed hop that has its turn. None where no armed hop has: its call neither was granted what it asked for
    /// nor is the oldest that waits.
    pub fn run_ready(&mut self, book: &Book) -> Option<Answer>
        requires book { self.old.pass.book ≡ book.now }
        ensures book { self.new.pass.book ≡ book.now }
        ensures same { (self.new.index ≡ self.old.index) × (self.new.shards ≡ self.old.shards) × (self.new.first ≡ self.old.first) }
        ensures idle { IfNone result ((self.new ≡ self.old) × Each (λ w. is_ready self.old.places w ≡ false) self.old.waiting) }
        ensures answered { IfSome result (λ answer. (answer.shard ≡ self.old.index) × (w : Wait) × (wait_at answer.number self.old.waiting ≡ Some w) × (is_ready self.old.places w ≡ true) × (answer.conn ≡ w.conn)) }
        ensures left { IfSome result (λ answer. ends_quick answer.body ≡ true → IsGone answer.number self.new) }
        // The other calls wait as before.
        ensures beside { IfSome result (λ answer. (n : ℕ) → n ≢ answer.number → wait_at n self.new.waiting ≡ wait_at n self.old.waiting) }
        ensures receipt { IfSome result (λ answer. book_shown book.now answer.body ≡ book.now) }
    {
        let Some(at) = ready(&self.queue, &self.waiting) else {
            return None;
        };
        let keys = Witness::of(&self.table);
        let call = &mut self.waiting[at];
        let number = call.number;
        let conn = call.conn;
        let turned = serve(self.alloc, self.shards, self.index, &mut self.table, call);
        let Turned { hop, entry, came } = turned;
        self.ran = self.ran.max(number);
        let receipt = book.enter(&mut self.pass, entry);
        match came {
            Came::OfQuick(is_said, slip) => {
                let body = ran_body(is_said, slip, receipt, keys);
                Some(self.end_quick(number, conn, hop, body))
            }
            Came::OfPart(outcome) => Some(Answer {
                conn,
                shard: self.index,
                number,
                hop: hop as u64,
                body: AnswerBody::Did {
                    outcome,
                    receipt,
                    keys,
                },
            }),
        }
    }

    /// A Quick that ran leaves with its answer.
    fn end_quick(&mut self, number: u64, conn: u32, hop: u32, body: AnswerBody) -> Answer
        requires bare { staged_at number self.old.waiting ≡ [] }
        requires facts { Facts self.old.index number hop body }
        ensures left { self.new ≡ left self.old number }
        ensures answered { (result.shard ≡ self.old.index) × (result.number ≡ number) × (result.conn ≡ conn) }
        ensures body { result.body ≡ body }
    {
        self.leave(number);
        Answer {
            conn,
            shard: self.index,
            number,
            hop: hop as u64,
            body,
        }
    }
}

/// The first of the calls that wait whose armed hop has its turn.
fn ready(queue: &TxQueue, waiting: &Vec<Waiting>) -> Option<usize>
    ensures within { IfSome result (λ at. at < length waiting.now.items) }
    ensures some { IfSome result (λ at. (d : Waiting) → is_ready queue.now.places (wait_of (slice_index_or waiting.now.items at d)) ≡ true) }
    ensures none { IfNone result (Each (λ w. is_ready queue.now.places w ≡ false) (map wait_of waiting.now.items)) }
{
    'calls: for at in 0..waiting.len() {
        if is_ready(queue, &waiting[at]) {
            return Some(at);
        }
    }
    None
}

fn is_ready(queue: &TxQueue, call: &Waiting) -> bool
    ensures { result ≡ is_ready queue.now.places (wait_of call.now) }
{
    match call.armed {
        Armed::Nothing => false,
        Armed::Quick(_, _) => may_run(queue, call.number),
        Armed::Hop(_, _) => may_run(queue, call.number),
    }
}

/// Whether it is the call's turn.
fn may_run(queue: &TxQueue, number: u64) -> bool
    ensures { result ≡ may_run number queue.now.places }
{
    let is_granted = match queue.place(number) {
        Some(place) => place.granted,
        None => false,
    };
    is_granted || is_head(queue, number)
}

fn is_head(queue: &TxQueue, number: u64) -> bool
    ensures { result ≡ is_head number queue.now.places }
{
    match queue.head() {
        Some(place) => place.number == number,
        None => false,
    }
}

/// Runs the armed hop of a call that waits.
fn serve(alloc: Global, shards: u32, index: u32, table: &mut Table, call: &mut Waiting) -> Turned
    requires armed { has_armed (wait_of call.old) ≡ true }
    requires linked { (a : Hopping) → hopping call.old.armed ≡ Some a → IsLinkedAct a.act }
    requires own { own_keys shards index table.old.keys ≡ table.old.keys }
    requires kept { puts_in (wait_of call.old).staged ≤ table.old.kept }
    ensures { ServedTo shards index table.old.keys table.old.kept (wait_of call.old) table.new.keys table.new.kept (wait_of call.new) result }
{
    match mem::replace(&mut call.armed, Armed::Nothing) {
        Armed::Nothing => unreachable!(),
        Armed::Quick(hop, slip) => serve_quick(alloc, shards, index, table, call, hop, slip),
        Armed::Hop(hop, part) => serve_part(alloc, shards, index, table, call, hop, part),
    }
}

fn serve_quick(
    alloc: Global,
    shards: u32,
    index: u32,
    table: &mut Table,
    call: &mut Waiting,
    hop: u32,
    slip: Box<Slip>,
) -> Turned
    requires idle { call.old.armed ≡ armeds.Nothing }
    requires linked { IsLinkedAct (call_act slip.value.call hop) }
    ensures { ServedTo shards index table.old.keys table.old.kept (armed_as (wait_of call.old) hop (call_act slip.value.call hop) (Some slip.value.call)) table.new.keys table.new.kept (wait_of call.new) result }
{
    let mut slip = slip;
    let (entry, is_said) = run_call(alloc, table, call.number, hop, &mut slip);
    call.above = hop as u64 + 1;
    let came = Came::OfQuick(is_said, slip);
    Turned { hop, entry, came }
}

fn serve_part(
    alloc: Global,
    shards: u32,
    index: u32,
    table: &mut Table,
    call: &mut Waiting,
    hop: u32,
    part: Part,
) -> Turned
    requires idle { call.old.armed ≡ armeds.Nothing }
    requires linked { IsLinkedAct (act_of part) }
    requires own { own_keys shards index table.old.keys ≡ table.old.keys }
    requires kept { puts_in (wait_of call.old).staged ≤ table.old.kept }
    ensures { ServedTo shards index table.old.keys table.old.kept (armed_as (wait_of call.old) hop (act_of part) None) table.new.keys table.new.kept (wait_of call.new) result }
{
    let asked = Snapshot::of(&part);
    let keys = Snapshot::of(table);
    let outcome = do_part(alloc, shards, index, table, part, &mut call.staged);
    call.above = hop as u64 + 1;
    let entry = did(
        call.number,
        hop as u64,
        &asked,
        &keys,
        &outcome,
        shards,
        index,
    );
    let came = Came::OfPart(outcome);
    Turned { hop, entry, came }
}
