//! Commands that name no key, and those that run on one shard alone.

ghost use Rattle.std.specs.Prelude.{◌≡◌, ◌<◌, ◌⊎◌, ℕ, length, IfOk, None, Some};
ghost use Rattle.df_model.specs.Keyspace.{no_keys};
ghost use Rattle.df_model.specs.Meaning.{meaning};
ghost use Rattle.df_model.specs.Reads.{IsLinked};
ghost use Rattle.df_model.specs.declared.command.Command.{Command as TheCommand};
ghost use Rattle.df_log.specs.Acts.{Run, Told};
ghost use Rattle.df_core.specs.Done.{want_of_memory};
ghost use Rattle.df_rounds.specs.Replies.{reply_in};
ghost use Rattle.df_exchange.specs.Asks.{Heard, heard_of};
ghost use Rattle.df_turn.specs.Heard.{reply_heard};
ghost use Rattle.df_turn.specs.Steps.{BeginsBare, RunsThere, Says};
ghost use Rattle.df_turn.specs.Turns.{part_for};
ghost use Rattle.df_turn.specs.declared.turn.Next.TheVariants as nexts;

use crate::turn::{Next, Rest, Turn};
use crate::whole::say_memory;
use df_hops::{Outcome, Part};
use df_model::{Command, NoMemory, WholeOp};
use df_table::Table;
use df_values::Pieces;
use std::alloc::Global;
use std::mem;

/// A command that has no part to ask for yet.
pub(crate) fn bare_turn(alloc: Global, shards: u32, rest: Rest) -> Result<Turn, NoMemory>
    ensures { IfOk result (λ turn. BeginsBare shards rest turn) }
{
    let parts = no_parts(alloc, shards)?;
    Ok(Turn {
        parts,
        hop: 0,
        rest,
    })
}

fn no_parts(alloc: Global, shards: u32) -> Result<Vec<Option<Part>>, NoMemory>
    ensures count { IfOk result (λ parts. length parts.items ≡ shards) }
    ensures parts { IfOk result (λ parts. (s : ℕ) → part_for s parts.items ≡ None) }
{
    let mut parts = Vec::new(alloc);
    'shards: for _shard in 0..shards {
        parts.push(None)?;
    }
    Ok(parts)
}

/// Room for a command, with any one in it.
pub(crate) fn room(alloc: Global) -> Result<Box<Command>, NoMemory> {
    Ok(Box::new(alloc, any_command())?)
}

fn any_command() -> Command {
    Command::Whole(WholeOp::Dbsize)
}

/// Answers a command that names no key, over no keys at all.
pub(crate) fn answered(alloc: Global, command: &mut Command) -> Next
    requires { IsLinked command.old }
    ensures { Says result want_of_memory ⊎ Says result (meaning command.old no_keys).0 }
{
    let mut reply = Pieces::new(alloc);
    let mut table = Table::new(alloc);
    match table.run_command(alloc, command, &mut reply) {
        Ok(()) => Next::Over(reply),
        Err(_) => say_memory(reply),
    }
}

/// The reply of a command that ran on this shard.
pub(crate) fn ran(alloc: Global, shard: u32, outcomes: &mut [Option<Outcome>]) -> Next
    requires { shard < length outcomes.old }
    ensures { (command : TheCommand) (told : Told) → Heard (Some (Run command)) told (heard_of shard outcomes.old) → Says result (reply_in told) }
{
    match take_reply(&mut outcomes[shard as usize]) {
        Some(reply) => Next::Over(reply),
        None => say_memory(Pieces::new(alloc)),
    }
}

fn take_reply(outcome: &mut Option<Outcome>) -> Option<Pieces>
    ensures { result ≡ reply_heard outcome.old }
{
    match mem::replace(outcome, None)? {
        Outcome::Ran(reply) => Some(Box::into_inner(reply)),
        Outcome::Values(_) => None,
        Outcome::Staged => None,
        Outcome::Applied => None,
        Outcome::Names(_) => None,
        Outcome::Number(_) => None,
        Outcome::NoMemory => None,
    }
}

impl Turn {
    /// Moves the command into the part of its shard.
    pub(crate) fn run_there(
        &mut self,
        shard: u32,
        room: Box<Command>,
        command: &mut Command,
    ) -> Next
        requires { shard < length self.old.parts.items }
        ensures asks { result ≡ nexts.Asks }
        ensures runs { RunsThere shard command.old self.old self.new }
    {
        let mut room = room;
        *room = mem::replace(command, any_command());
        let _none = mem::replace(&mut self.parts[shard as usize], Some(Part::Run(room)));
        self.rest = Rest::Running(shard);
        Next::Asks
    }
}
