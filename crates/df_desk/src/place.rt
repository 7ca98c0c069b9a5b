//! The place of a call's slip, and what is made of a call that waits there.
//!
//!     place      of the call
//!     Empty      none is under way
//!     Waits      it was begun
//!     Ran        it ran, and its reply lies in the slip
//!     Unsaid     it ran, and its reply found no memory
//!     NoMemory   it found none, and never ran

ghost use Rattle.std.specs.Prelude.{◌≡◌, OnOk, OnErr};
ghost use Rattle.df_model.specs.Meaning.{meaning};
ghost use Rattle.df_model.specs.Reads.{saves};
ghost use Rattle.df_model.specs.declared.command.Call.TheVariants.{Single};
ghost use Rattle.df_table.specs.Responses.{Gives};
ghost use Rattle.df_desk.specs.Desks.{due_at};
ghost use Rattle.df_desk.specs.Runs.{CameTo, HasRun, HasServed};

use crate::exec::run_exec;
use crate::ran::Ran;
use df_caller::Slip;
use df_model::{Call, Command, NoMemory, WholeOp};
use df_table::Table;
use df_values::Pieces;
use std::alloc::Global;
use std::snapshot::Snapshot;

/// Where a desk's call stands, with its slip.
#[derive(Drop)]
pub(crate) enum Place {
    Empty,
    Waits(Box<Slip>),
    Ran(Box<Slip>, Ran),
    Unsaid(Box<Slip>, Ran),
    /// The call as it was, since running it may have emptied it.
    NoMemory(Box<Slip>, Snapshot<Call>),
}

/// What came of running a call.
#[derive(Drop)]
pub(crate) enum Outcome {
    /// It ran, and its reply was written.
    Ran(Ran),
    /// It ran, and its reply found no memory.
    Unsaid(Ran),
    /// It found none, and never ran.
    NoMemory,
}

/// Whether no call waits here.
pub(crate) fn is_due(place: &Place) -> bool
    ensures { result ≡ due_at place.now }
{
    match place {
        Place::Waits(_) => false,
        Place::Empty => true,
        Place::Ran(_, _) => true,
        Place::Unsaid(_, _) => true,
        Place::NoMemory(_, _) => true,
    }
}

/// Runs the call, if it waits.
pub(crate) fn served(place: Place, alloc: Global, table: &mut Table) -> Place
    ensures { HasServed result place table.old.keys table.new.keys }
{
    match place {
        Place::Waits(slip) => run(alloc, slip, table),
        Place::Empty => Place::Empty,
        Place::Ran(slip, ran) => Place::Ran(slip, ran),
        Place::Unsaid(slip, ran) => Place::Unsaid(slip, ran),
        Place::NoMemory(slip, call) => Place::NoMemory(slip, call),
    }
}

/// Runs the slip's call.
fn run(alloc: Global, mut slip: Box<Slip>, table: &mut Table) -> Place
    ensures { HasRun result slip.value.call table.old.keys table.new.keys }
{
    let call = Snapshot::of(&slip.call);
    match run_call(alloc, &mut slip, table) {
        Outcome::Ran(ran) => Place::Ran(slip, ran),
        Outcome::Unsaid(ran) => Place::Unsaid(slip, ran),
        Outcome::NoMemory => Place::NoMemory(slip, call),
    }
}

/// Runs the slip's call, and leaves its reply there.
fn run_call(alloc: Global, slip: &mut Slip, table: &mut Table) -> Outcome
    ensures { CameTo result slip.old.call table.old.keys table.new.keys slip.new.reply }
{
    let call = Snapshot::of(&slip.call);
    match &mut slip.call {
        Call::Single(command) => run_single(alloc, call, command, table, &mut slip.reply),
        Call::Exec(commands) => run_exec(alloc, call, commands.take(), table, &mut slip.reply),
    }
}

fn run_single(
    alloc: Global,
    call: Snapshot<Call>,
    command: &mut Command,
    table: &mut Table,
    reply: &mut Pieces,
) -> Outcome
    requires { call.value ≡ Single command.old }
    ensures { CameTo result call.value table.old.keys table.new.keys reply.new }
{
    let before = Snapshot::of(table);
    match run_command(alloc, command, table, reply) {
        Ok(()) => Outcome::Ran(Ran::single(call, before)),
        Err(_none) => Outcome::NoMemory,
    }
}

/// Runs a command. A SAVE is answered as one that finds no memory: no word spells it.
pub(crate) fn run_command(
    alloc: Global,
    command: &mut Command,
    table: &mut Table,
    reply: &mut Pieces,
) -> Result<(), NoMemory>
    ensures ok { OnOk result (Gives (meaning command.old table.old.keys) table.new.keys reply.new) }
    ensures keys { OnErr result (table.new.keys ≡ table.old.keys) }
{
    if is_save(command) {
        return Err(NoMemory);
    }
    table.run_command(alloc, command, reply)
}

fn is_save(command: &Command) -> bool
    ensures { result ≡ saves command.now }
{
    match command {
        Command::Whole(WholeOp::Save) => true,
        Command::Plain(_) | Command::One(_, _) | Command::Many(_) | Command::Wrong(_) => false,
        Command::Whole(WholeOp::Dbsize) => false,
        Command::Whole(WholeOp::Keys(_)) => false,
        Command::Whole(WholeOp::Flushall) => false,
        Command::Whole(WholeOp::Flushdb) => false,
    }
}
