//! Commands of several keys.

ghost use Rattle.std.specs.Prelude.{◌≡◌, OnOk, OnErr};
ghost use Rattle.df_model.specs.Access.{does};
ghost use Rattle.df_model.specs.Meaning.{many};
ghost use Rattle.df_table.specs.Responses.{Gives};

use crate::combos::{combine_keys, store_combined};
use crate::moves::{lmove, rpoplpush};
use crate::several::{del, exists, mget, mset, msetnx, rename, renamenx};
use crate::smove::smove;
use crate::table::Table;
use df_model::{ManyOp, NoMemory};
use df_sets::Combine;
use df_values::Pieces;
use std::alloc::Global;

/// Runs a command of several keys.
pub fn run_many(
    alloc: Global,
    table: &mut Table,
    op: ManyOp,
    reply: &mut Pieces,
) -> Result<(), NoMemory>
    ensures ok { OnOk result (Gives (does (many op) table.old.keys) table.new.keys reply.new) }
    ensures keys { OnErr result (table.new.keys ≡ table.old.keys) }
    ensures kept { table.new.kept ≡ table.old.kept }
{
    match op {
        ManyOp::Del(words) => {
            del(table, words.as_slice(), reply);
            Ok(())
        }
        ManyOp::Unlink(words) => {
            del(table, words.as_slice(), reply);
            Ok(())
        }
        ManyOp::Exists(words) => exists(table, words.as_slice(), reply),
        ManyOp::Mget(words) => mget(table, words.as_slice(), reply),
        ManyOp::Mset(pairs) => mset(table, pairs, reply),
        ManyOp::Msetnx(pairs) => msetnx(table, pairs, reply),
        ManyOp::Rename(source, destination) => rename(table, source, destination, reply),
        ManyOp::Renamenx(source, destination) => renamenx(table, source, destination, reply),
        ManyOp::Lmove(source, destination, from, to) => lmove(
            alloc,
            table,
            source,
            destination,
            from,
            to,
            reply,
        ),
        ManyOp::Rpoplpush(source, destination) => rpoplpush(
            alloc,
            table,
            source,
            destination,
            reply,
        ),
        ManyOp::Smove(source, destination, member) => smove(
            alloc,
            table,
            source,
            destination,
            member,
            reply,
        ),
        ManyOp::Sinter(keys) => combine_keys(alloc, table, Combine::Inter, keys.as_slice(), reply),
        ManyOp::Sunion(keys) => combine_keys(alloc, table, Combine::Union, keys.as_slice(), reply),
        ManyOp::Sdiff(keys) => combine_keys(alloc, table, Combine::Diff, keys.as_slice(), reply),
        ManyOp::Sinterstore(destination, keys) => {
            store_combined(
                alloc,
                table,
                Combine::Inter,
                destination,
                keys.as_slice(),
                reply,
            )
        }
        ManyOp::Sunionstore(destination, keys) => {
            store_combined(
                alloc,
                table,
                Combine::Union,
                destination,
                keys.as_slice(),
                reply,
            )
        }
        ManyOp::Sdiffstore(destination, keys) => {
            store_combined(
                alloc,
                table,
                Combine::Diff,
                destination,
                keys.as_slice(),
                reply,
            )
        }
    }
}
