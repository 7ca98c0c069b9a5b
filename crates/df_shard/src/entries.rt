//! Entries of a shard's log. What they did and were told is for contracts alone. It is told by snapshots, which take no
//! bytes, since a ghost value is picked from a call's own arguments.

ghost use Rattle.std.specs.Prelude.{◌≡◌, ◌/◌};
ghost use Rattle.df_model.specs.Meaning.{meaning};
ghost use Rattle.df_log.specs.Acts as acts;
ghost use Rattle.df_log.specs.Acts.{Act, Told};
ghost use Rattle.df_hops.specs.Parts.{act_of};
ghost use Rattle.df_hops.specs.Came.{given_as};
ghost use Rattle.df_shard.specs.Holds.{call_act, call_command};
ghost use Rattle.df_shard.specs.Bodies.{why_told};

use df_hops::{Outcome, Part, Why};
use df_log::Entry;
use df_model::Call;
use df_table::Table;
use std::snapshot::Snapshot;

fn entry_for(number: u64, hop: u64, call: &Snapshot<Call>, keys: &Snapshot<Table>) -> Entry
    ghost did: { Act × Told }
    ensures { result ≡ record { number = number; hop = hop; act = did.0; told = did.1 } }
{
    let _call = call;
    let _keys = keys;
    Entry::new(number, hop)
}

fn note_for(number: u64, why: Why) -> Entry
    ghost did: { Act × Told }
    ensures { result ≡ record { number = number; hop = 0; act = did.0; told = did.1 } }
{
    let _why = why;
    Entry::new(number, 0)
}

/// A command of the call ran on these keys.
pub(crate) fn ran(number: u64, hop: u64, call: &Snapshot<Call>, keys: &Snapshot<Table>) -> Entry
    ensures { result ≡ record { number = number; hop = hop; act = call_act call.now.value hop; told = acts.Ran (meaning (call_command call.now.value hop) keys.now.value.keys).0 } }
{
    entry_for(number, hop, call, keys)
}

/// A command of the call found no memory.
pub(crate) fn wanted(number: u64, hop: u64, call: &Snapshot<Call>, keys: &Snapshot<Table>) -> Entry
    ensures { result ≡ record { number = number; hop = hop; act = call_act call.now.value hop; told = acts.NoMemory } }
{
    entry_for(number, hop, call, keys)
}

fn part_entry(
    number: u64,
    hop: u64,
    part: &Snapshot<Part>,
    keys: &Snapshot<Table>,
    outcome: &Outcome,
    shards: u32,
    index: u32,
) -> Entry
    ghost did: { Act × Told }
    ensures { result ≡ record { number = number; hop = hop; act = did.0; told = did.1 } }
{
    let _part = part;
    let _keys = keys;
    let _outcome = outcome;
    let _shards = shards;
    let _index = index;
    Entry::new(number, hop)
}

/// A part was done on these keys of shard `index`, with this outcome.
pub(crate) fn did(
    number: u64,
    hop: u64,
    part: &Snapshot<Part>,
    keys: &Snapshot<Table>,
    outcome: &Outcome,
    shards: u32,
    index: u32,
) -> Entry
    ensures { result ≡ record { number = number; hop = hop; act = act_of part.now.value; told = given_as outcome.now shards index keys.now.value.keys (act_of part.now.value) } }
{
    part_entry(number, hop, part, keys, outcome, shards, index)
}

/// A Quick was passed.
pub(crate) fn passed(number: u64, why: Why) -> Entry
    ensures { result ≡ record { number = number; hop = 0; act = acts.Passed; told = why_told why } }
{
    note_for(number, why)
}
