//! A message to a shard. Its facts are equations between what its body says and what its ticket shows.

ghost use Rattle.std.specs.Prelude.{◌≡◌, ◌<◌, true};
ghost use Rattle.std.specs.Coded.{codes};
ghost use Rattle.df_model.specs.contracts.reply.Reply as reply;
ghost use Rattle.df_model.specs.Values.{coded_value};
ghost use Rattle.df_model.specs.Keyspace.{coded_keyspace};
ghost use Rattle.df_book.specs.Draws.{draws_of, last_number};
ghost use Rattle.df_hops.specs.Said.{act_due, act_said, call_due, call_said, hash_due, hash_said, is_fit, keys_due, keys_said, runs_due};

use df_book::Ticket;
use df_caller::Slip;
use df_model::{Bin, Bins, Command, Keys, Reserved};
use df_values::Value;

/// What some keys are to hold: a value, or nothing.
pub type Changes = Reserved<(Bin, Option<Value>)>;

/// What a shard does in one hop.
#[derive(Drop)]
pub enum Part {
    /// Runs a command whose keys all stand on the shard.
    Run(Box<Command>),
    /// Reads these keys.
    Read(Box<Bins>),
    /// Takes the memory for these changes, and shows none of them.
    Stage(Box<Changes>),
    /// Shows what was staged. Takes no memory.
    Apply,
    /// Drops what was staged. Takes no memory.
    Unstage,
    /// Begins a cut for a save.
    Begin,
    /// Names the keys of the shard.
    Walk,
    /// Counts them.
    Count,
    /// Removes them. Takes no memory.
    Clear,
}

/// What a shard is asked to do for a call.
#[derive(Drop)]
pub enum Body {
    /// To give the call its intents and its place, for these keys.
    Schedule(Box<Keys>),
    /// To do all of a call that has one hop on one shard: the hop, the key's hash, and the slip with the call.
    Quick(u32, u64, Box<Slip>),
    /// To do this hop of a call that waits there.
    Hop(u32, Part),
    /// To let go of a call that ran nothing.
    Cancel,
    /// To let go of a call that is done.
    Conclude,
    /// To hand out the next piece of a save's cut, by the hop.
    Pull(u64),
    /// To drop a save's cut.
    DropCut,
}

/// What goes to a shard, for a call with a number.
#[derive(Drop)]
pub struct Message {
    pub shard: u32,
    /// The connection's place, which comes back with the answer.
    pub conn: u32,
    pub number: u64,
    pub body: Body,
    pub ticket: Ticket,
    // Its number is the last that its ticket drew.
    ghost last: { last_number ticket.known ≡ number },
    ghost drawn: { 0 < draws_of number ticket.known },
    // A Quick and a Hop have a running ticket, and no other message has one.
    ghost runs: { ticket.runs ≡ runs_due number body },
    // A slip holds the call that was drawn.
    ghost call: { call_said body ≡ call_due body number ticket },
    ghost hash: { hash_said body ≡ hash_due body },
    // A Schedule asks for the call's footprint.
    ghost keys: { keys_said body ≡ keys_due body shard number ticket },
    // What is to be done is the hop that is due.
    ghost act: { act_said body ≡ act_due body shard number ticket } by { Prim.hlevel (codes, reply.the_row.coded, coded_value, coded_keyspace) },
    ghost fit: { is_fit body ticket ≡ true },
}
