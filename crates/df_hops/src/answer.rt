//! A shard's answer. Its facts are equations between what its body says and what its receipt shows.

ghost use Rattle.std.specs.Prelude.{◌≡◌, ◌≤◌, true};
ghost use Rattle.std.specs.Coded.{codes};
ghost use Rattle.df_model.specs.contracts.reply.Reply as reply;
ghost use Rattle.df_model.specs.Values.{coded_value};
ghost use Rattle.df_model.specs.Keyspace.{coded_keyspace};
ghost use Rattle.df_hops.specs.Shown.{act_asked, act_shown, call_back, call_drawn, draws_needed, draws_shown, has_note, limit_said, shard_shown, told_said, told_shown};
ghost use Rattle.df_hops.specs.Came.{IsDue, came_due, came_shown, may_want_it, outcome_said, outcome_shown};

use df_book::{Receipt, Witness};
use df_caller::Slip;
use df_model::{Bins, Reserved};
use df_table::Table;
use df_values::{Pieces, Value};

/// What some keys hold, in the order of the keys.
pub type Values = Reserved<Option<Value>>;

/// Why a Quick was passed.
#[derive(Clone, Copy, Debug, PartialEq, Eq)]
pub enum Why {
    /// Its number came too late: the next one has to be above the limit.
    Refused { limit: u64 },
    NoMemory,
}

/// What a hop came to.
#[derive(Drop)]
pub enum Outcome {
    Ran(Box<Pieces>),
    Values(Box<Values>),
    Staged,
    Applied,
    Names(Box<Bins>),
    Number(u64),
    NoMemory,
}

/// What a shard answers.
#[derive(Drop)]
pub enum AnswerBody {
    /// Of a Schedule: the call has its place.
    Taken,
    /// Of a Schedule whose number came too late, as of a Quick.
    Refused {
        limit: u64,
    },
    /// Of a Schedule or a Pull.
    NoMemory,
    /// Of a Quick that ran nothing: its slip comes back, with the receipt of its note.
    Passed {
        why: Why,
        slip: Box<Slip>,
        receipt: Receipt,
    },
    /// Of a Quick that ran: the slip holds the reply. Its command ran on these keys.
    Ran {
        slip: Box<Slip>,
        receipt: Receipt,
        keys: Witness<Table>,
    },
    /// Of a Quick that found no memory where it ran: it changed nothing.
    Wanted {
        slip: Box<Slip>,
        receipt: Receipt,
    },
    /// Of a Hop. Its part was done on these keys.
    Did {
        outcome: Outcome,
        receipt: Receipt,
        keys: Witness<Table>,
    },
    /// Of a Cancel, a Conclude, a DropCut, and of a message that doesn't fit.
    Freed,
    /// Of a Pull: a piece of the cut, and whether it is the last.
    Pulled {
        out: Box<Vec<u8>>,
        done: bool,
        receipt: Receipt,
    },
}

/// What comes back from a shard, for a message.
#[derive(Drop)]
pub struct Answer {
    pub conn: u32,
    pub shard: u32,
    pub number: u64,
    /// That of a Quick, a Hop or a Pull, else 0.
    pub hop: u64,
    pub body: AnswerBody,
    ghost shown: { shard_shown shard body ≡ shard },
    // Its number was drawn.
    ghost drawn: { draws_needed body ≤ draws_shown number body },
    // A limit isn't below its number.
    ghost limit: { number ≤ limit_said number body },
    // A slip that comes back with nothing run holds the call that was drawn, and its note stands in the log.
    ghost call: { call_back body ≡ call_drawn number body },
    ghost note: { has_note number body ≡ true },
    // The entry of this number and hop stands in the log with this answer, and did what was due there.
    ghost told: { told_said body ≡ told_shown number hop body },
    ghost act: { act_shown number hop body ≡ act_asked shard number hop body } by { Prim.hlevel (codes, reply.the_row.coded, coded_value, coded_keyspace) },
    // What ran was told what it gives on its keys, or found no memory where it may.
    ghost came: { came_shown number hop body ≡ came_due number hop body } by { Prim.hlevel (codes, reply.the_row.coded, coded_value, coded_keyspace) },
    // The entry of a Hop stands in the log, was told the outcome, and did what was due by what the caller had seen.
    ghost outcome: { outcome_said body ≡ outcome_shown number hop body } by { Prim.hlevel (codes, reply.the_row.coded, coded_value, coded_keyspace) },
    ghost wants: { may_want_it number hop body ≡ true },
    ghost part: { ∥ IsDue number hop body ∥₁ },
}
