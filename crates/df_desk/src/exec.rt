//! EXEC: its commands one after the other, as one call.
//!
//! What if memory runs out? A command that finds none is answered so and changes nothing, and the others run. Room for
//! the list of parts is taken before the first command, so that what a command came to is always kept. Where the whole
//! reply finds no memory in the end, the call ran and can't be said.

ghost use Rattle.std.specs.Prelude.{◌≡◌, ◌++◌, ◌≤◌, [], length, codes, decimal, OnOk};
ghost use Rattle.std.specs.List.{flat_map};
ghost use Rattle.df_model.specs.Replies.{crlf};
ghost use Rattle.df_model.specs.declared.command.Call.TheVariants.{Exec};
ghost use Rattle.df_desk.specs.Parts.{Gave, GaveAll, bytes_of};
ghost use Rattle.df_desk.specs.Runs.{CameTo};

use crate::place::{Outcome, run_command};
use crate::ran::Ran;
use df_model::{Call, Command, Commands, ErrorText, NoMemory, Reserved};
use df_table::Table;
use df_values::Pieces;
use std::alloc::Global;
use std::snapshot::Snapshot;

/// What a command of an EXEC was answered.
#[derive(Drop)]
pub(crate) enum Part {
    /// It ran, and this is its reply.
    Said(Pieces),
    /// It found no memory and changed nothing.
    Refused,
}

/// Runs the commands, and leaves their replies as one.
pub(crate) fn run_exec(
    alloc: Global,
    call: Snapshot<Call>,
    commands: Commands,
    table: &mut Table,
    reply: &mut Pieces,
) -> Outcome
    requires { call.value ≡ Exec commands }
    ensures { CameTo result call.value table.old.keys table.new.keys reply.new }
{
    let mut parts = Reserved::new(alloc);
    let Ok(()) = parts.reserve(commands.len()) else {
        return Outcome::NoMemory;
    };
    let before = Snapshot::of(table);
    run_each(alloc, commands, table, &mut parts);
    let ran = Ran::exec(call, before, Snapshot::of(&parts));
    match join(parts.as_slice(), reply) {
        Ok(()) => Outcome::Ran(ran),
        Err(_none) => Outcome::Unsaid(ran),
    }
}

/// Every command is run, whatever came of those before it.
fn run_each(alloc: Global, commands: Commands, table: &mut Table, parts: &mut Reserved<Part>)
    requires none { parts.old.items ≡ [] }
    requires room { length commands.items ≤ parts.old.spare }
    ensures { GaveAll commands.items parts.new.items table.old.keys table.new.keys }
{
    let commands = commands.into_vec();
    'commands: for command in commands {
        parts.push(run_one(alloc, command, table));
    }
}

/// Runs a command, and keeps its reply in memory of its own.
fn run_one(alloc: Global, mut command: Command, table: &mut Table) -> Part
    ensures { Gave result command table.old.keys table.new.keys }
{
    let mut reply = Pieces::new(alloc);
    match run_command(alloc, &mut command, table, &mut reply) {
        Ok(()) => Part::Said(reply),
        Err(_none) => Part::Refused,
    }
}

/// The parts behind their count. Where memory runs out, nothing is said of what stands.
fn join(parts: &[Part], reply: &mut Pieces) -> Result<(), NoMemory>
    ensures { OnOk result (reply.new ≡ codes "*" ++ decimal (length parts.now) ++ crlf ++ flat_map bytes_of parts.now) }
{
    reply.put_array_head(parts.len())?;
    'parts: for part in parts {
        add_part(part, reply)?;
    }
    Ok(())
}

fn add_part(part: &Part, reply: &mut Pieces) -> Result<(), NoMemory>
    ensures { OnOk result (reply.new ≡ reply.old ++ bytes_of part.now) }
{
    match part {
        Part::Said(said) => reply.add_all(said),
        Part::Refused => reply.add_error(&ErrorText::Memory),
    }
}
