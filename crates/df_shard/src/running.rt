//! How the one command of a Quick runs on the shard's keys.

ghost use Rattle.std.specs.Prelude.{◌≡◌, ◌/◌, OnOk, OnErr, if◌then◌else◌};
ghost use Rattle.df_model.specs.Meaning.{meaning};
ghost use Rattle.df_model.specs.Reads.{IsLinked};
ghost use Rattle.df_footprints.specs.Footprints.{commands_of};
ghost use Rattle.df_table.specs.Responses.{Gives};
ghost use Rattle.df_hops.specs.Parts.{command_at};
ghost use Rattle.df_hops.specs.declared.answer.AnswerBody.TheVariants as answers;
ghost use Rattle.df_shard.specs.Came.{RanTo};
ghost use Rattle.df_shard.specs.Holds.{call_command};

use crate::entries::{ran, wanted};
use df_book::{Receipt, Witness};
use df_caller::Slip;
use df_hops::AnswerBody;
use df_log::Entry;
use df_model::{Call, Command, NoMemory, WholeOp};
use df_table::Table;
use std::alloc::Global;
use std::snapshot::Snapshot;

/// Runs the call's command of this hop, and leaves its reply in the slip. Answers the entry of it, and whether there is
/// a reply: want of memory changes no key.
pub(crate) fn run_call(
    alloc: Global,
    table: &mut Table,
    number: u64,
    hop: u32,
    slip: &mut Slip,
) -> (Entry, bool)
    requires { IsLinked (call_command slip.old.call hop) }
    ensures ran { RanTo number hop slip.old.call table.old.keys table.new.keys slip.new.reply result.0 result.1 }
    ensures kept { table.new.kept ≡ table.old.kept }
{
    let call = Snapshot::of(&slip.call);
    let keys = Snapshot::of(table);
    match run_slip(alloc, table, slip, hop / 4) {
        Ok(()) => (ran(number, hop as u64, &call, &keys), true),
        Err(_) => (wanted(number, hop as u64, &call, &keys), false),
    }
}

/// Runs command `at` of the slip's call, from 0.
fn run_slip(alloc: Global, table: &mut Table, slip: &mut Slip, at: u32) -> Result<(), NoMemory>
    requires { IsLinked (command_at (commands_of slip.old.call) at) }
    ensures ok { OnOk result (Gives (meaning (command_at (commands_of slip.old.call) at) table.old.keys) table.new.keys slip.new.reply) }
    ensures keys { OnErr result (table.new.keys ≡ table.old.keys) }
    ensures kept { table.new.kept ≡ table.old.kept }
{
    match &mut slip.call {
        Call::Single(command) => table.run_command(alloc, command, &mut slip.reply),
        Call::Exec(commands) => {
            let taken = Command::Whole(WholeOp::Dbsize);
            let mut command = commands.replace(at as usize, taken);
            table.run_command(alloc, &mut command, &mut slip.reply)
        }
    }
}

/// What a Quick that ran on these keys is answered.
pub(crate) fn ran_body(
    is_said: bool,
    slip: Box<Slip>,
    receipt: Receipt,
    keys: Witness<Table>,
) -> AnswerBody
    ensures { result ≡ (if is_said then answers.Ran slip receipt keys else answers.Wanted slip receipt) }
{
    if is_said {
        AnswerBody::Ran {
            slip,
            receipt,
            keys,
        }
    } else {
        AnswerBody::Wanted { slip, receipt }
    }
}
