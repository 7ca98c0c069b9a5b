//! Commands of the whole keyspace.

ghost use Rattle.std.specs.Prelude.{◌≡◌, ◌++◌, map, OnOk, OnErr};
ghost use Rattle.df_model.specs.Meaning.{whole};
ghost use Rattle.df_model.specs.Meaning.Keyless as keyless;
ghost use Rattle.df_model.specs.Outcomes.{bulks};
ghost use Rattle.df_model.specs.Replies.{encoding_of};
ghost use Rattle.df_model.specs.Reads.{IsLinked};
ghost use Rattle.df_model.specs.declared.command.Command.{Command};
ghost use Rattle.df_table.specs.Responses.{Gives};

use crate::table::Table;
use df_model::{Bin, NoMemory, WholeOp};
use df_values::Pieces;
use std::alloc::Global;

/// Runs a command of the whole keyspace.
pub fn run_whole(
    alloc: Global,
    table: &mut Table,
    op: &WholeOp,
    reply: &mut Pieces,
) -> Result<(), NoMemory>
    requires { IsLinked (Command.Whole op.now) }
    ensures ok { OnOk result (Gives (whole op.now table.old.keys) table.new.keys reply.new) }
    ensures keys { OnErr result (table.new.keys ≡ table.old.keys) }
    ensures kept { table.new.kept ≡ table.old.kept }
{
    match op {
        WholeOp::Dbsize => reply.put_count(table.len()),
        WholeOp::Keys(pattern) => keys_like(alloc, table, pattern, reply),
        WholeOp::Flushall | WholeOp::Flushdb => {
            reply.put_ok()?;
            table.clear();
            Ok(())
        }
        WholeOp::Save => unreachable!(),
    }
}

/// KEYS.
fn keys_like(
    alloc: Global,
    table: &Table,
    pattern: &Bin,
    reply: &mut Pieces,
) -> Result<(), NoMemory>
    ensures { OnOk result (reply.new ≡ encoding_of (keyless.keys pattern.now table.now.keys).0) }
{
    let names = table.names(alloc, pattern.as_slice())?;
    put_names(names.as_slice(), reply)
}

/// The names behind their count.
fn put_names(names: &[&Bin], reply: &mut Pieces) -> Result<(), NoMemory>
    ensures { OnOk result (reply.new ≡ encoding_of (bulks (map (λ name. name.now) names.now))) }
{
    reply.put_array_head(names.len())?;
    'names: for name in names {
        reply.add_bulk(name.as_slice())?;
    }
    Ok(())
}
