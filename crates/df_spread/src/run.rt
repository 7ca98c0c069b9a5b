//! The run of a command over what several shards told.

ghost use Rattle.std.specs.Prelude.{◌≡◌, ◌<◌, ℕ, IfOk};
ghost use Rattle.df_model.specs.Reads.{IsLinked};
ghost use Rattle.df_log.specs.Acts.{Told};
ghost use Rattle.df_spread.specs.Spread.{KeysStand, ValuesStand, TellsAll, RunsOver};

use crate::changes::{copies_of_written, take_changes};
use crate::gather::told_table;
use df_hops::{Changes, Values};
use df_model::{Command, KeyModes, NoMemory};
use df_values::Pieces;
use std::alloc::Global;

/// Runs a command whose keys stand on several shards over what these told of them: writes its reply, and answers what
/// changes on each shard, in the order of its keys there. Values that were told move; of keys that the command may
/// write, a copy is taken to see what changed. The command may be emptied. Where memory runs out, nothing is said of
/// the command or of what stands in the reply.
pub fn run_over(
    alloc: Global,
    shards: u32,
    command: &mut Command,
    keys: Vec<KeyModes>,
    values: Vec<Values>,
    reply: &mut Pieces,
) -> Result<Vec<Changes>, NoMemory>
    requires some { 0 < shards }
    requires linked { IsLinked command.old }
    requires keys { KeysStand shards command.old keys.items }
    requires values { ValuesStand keys.items values.items }
    ensures { IfOk result (λ changes. (told : ℕ → Told) → TellsAll told values.items → RunsOver shards command.old told changes.items reply.new) }
{
    let mut table = told_table(alloc, keys.as_slice(), values)?;
    let written = copies_of_written(alloc, &table, keys)?;
    table.run_command(alloc, command, reply)?;
    take_changes(alloc, &mut table, written)
}
