//! Any command on the one table, by how many keys it names.

ghost use Rattle.std.specs.Prelude.{◌≡◌, OnOk, OnErr};
ghost use Rattle.df_model.specs.Meaning.{meaning, plain};
ghost use Rattle.df_model.specs.Replies.{encoding_of};
ghost use Rattle.df_model.specs.Reads.{IsLinked};
ghost use Rattle.df_table.specs.Responses.{Gives};

use crate::many::run_many;
use crate::table::Table;
use crate::whole::run_whole;
use df_model::{Bins, Command, ManyOp, NoMemory, PlainOp};
use df_values::Pieces;
use std::alloc::Global;
use std::mem;

impl Table {
    /// Runs any command but SAVE, by the keys that it names. The reply takes the place of the bytes that stood there, and
    /// the command may be emptied: its words are moved to where they stay. At want of memory nothing is said of either.
    pub fn run_command(
        &mut self,
        alloc: Global,
        command: &mut Command,
        reply: &mut Pieces,
    ) -> Result<(), NoMemory>
        requires { IsLinked command.old }
        ensures ok { OnOk result (Gives (meaning command.old self.old.keys) self.new.keys reply.new) }
        ensures keys { OnErr result (self.new.keys ≡ self.old.keys) }
        ensures kept { self.new.kept ≡ self.old.kept }
    {
        match command {
            Command::Plain(op) => run_plain(op, reply),
            Command::One(key, op) => self.run_one(alloc, key, op, reply),
            Command::Many(op) => {
                let op = mem::replace(op, ManyOp::Del(Bins::new(alloc)));
                run_many(alloc, self, op, reply)
            }
            Command::Whole(op) => run_whole(alloc, self, op, reply),
            Command::Wrong(error) => reply.put_error(error),
        }
    }
}

/// A command that needs no keys.
fn run_plain(op: &PlainOp, reply: &mut Pieces) -> Result<(), NoMemory>
    ensures { OnOk result (reply.new ≡ encoding_of (plain op.now)) }
{
    match op {
        PlainOp::Ping(None) => reply.put_simple(b"PONG"),
        PlainOp::Ping(Some(message)) => reply.put_bulk(message.as_slice()),
        PlainOp::Echo(message) => reply.put_bulk(message.as_slice()),
        PlainOp::Select(_) => reply.put_ok(),
    }
}
