//! Commands of one key on the one table.
//!
//! A command is prepared on what its key holds: its reply is written and all memory of its change is taken. Then the
//! change is made, which takes none.

ghost use Rattle.std.specs.Prelude.{◌≡◌, Some, None, OnOk, OnErr, IfOk};
ghost use Rattle.df_model.specs.Keyspace.{held};
ghost use Rattle.df_model.specs.Access.{does, on_key};
ghost use Rattle.df_model.specs.Meaning.{one};
ghost use Rattle.df_model.specs.Outcomes.{outcome};
ghost use Rattle.df_values.specs.Prepares.{Makes};
ghost use Rattle.df_values.specs.Seen.{seen};
ghost use Rattle.df_table.specs.Responses.{Gives};
ghost use Rattle.df_table.specs.Fates.{Ran};

use crate::table::Table;
use df_model::{Bin, Family, NoMemory, OneOp};
use df_values::{Change, Pieces, Value};
use std::alloc::Global;

/// What becomes of a key's value on which a command was to be run.
#[derive(Clone, Copy, Debug)]
pub enum Fate {
    /// There is none, so nothing was run.
    Missing,
    Stays,
    /// Its key is to be removed.
    Goes,
}

impl Table {
    /// Runs a command of one key. The key is looked for once; where it is put anew or removed, a second time.
    pub fn run_one(
        &mut self,
        alloc: Global,
        key: &mut Bin,
        op: &mut OneOp,
        reply: &mut Pieces,
    ) -> Result<(), NoMemory>
        ensures ok { OnOk result (Gives (does (on_key key.old (one op.old)) self.old.keys) self.new.keys reply.new) }
        ensures keys { OnErr result (self.new.keys ≡ self.old.keys) }
        ensures kept { self.new.kept ≡ self.old.kept }
    {
        match self.run_on_held(alloc, key, op, reply)? {
            Fate::Stays => Ok(()),
            Fate::Goes => {
                self.forget(key);
                Ok(())
            }
            Fate::Missing => self.run_on_nothing(alloc, key, op, reply),
        }
    }

    /// Runs the command where the key isn't there.
    fn run_on_nothing(
        &mut self,
        alloc: Global,
        key: &mut Bin,
        op: &mut OneOp,
        reply: &mut Pieces,
    ) -> Result<(), NoMemory>
        requires { held self.old.keys key.old ≡ None }
        ensures ok { OnOk result (Gives (does (on_key key.old (one op.old)) self.old.keys) self.new.keys reply.new) }
        ensures keys { OnErr result (self.new.keys ≡ self.old.keys) }
        ensures kept { self.new.kept ≡ self.old.kept }
    {
        match prepare_on_nothing(alloc, op, reply)? {
            Change::Put(value) => {
                self.reserve(1)?;
                self.put(key.take(), value);
                Ok(())
            }
            _ => Ok(()),
        }
    }
}

/// Runs the command on a value, but for the removal of its key.
pub fn run_on(
    alloc: Global,
    op: &mut OneOp,
    value: &mut Value,
    reply: &mut Pieces,
) -> Result<Fate, NoMemory>
    ensures ok { IfOk result (λ fate. Ran fate (outcome (one op.old) (Some (seen value.old))) (seen value.old) (seen value.new) reply.new) }
    ensures value { OnErr result (seen value.new ≡ seen value.old) }
{
    match prepare_on(alloc, op, value, reply)? {
        Change::Keep => Ok(Fate::Stays),
        Change::Put(new) => {
            *value = new;
            Ok(Fate::Stays)
        }
        Change::Delete => Ok(Fate::Goes),
        Change::Edit(edit) => {
            edit.apply(value);
            Ok(Fate::Stays)
        }
    }
}

/// Prepares a command of a key that isn't there, by the command's family.
fn prepare_on_nothing(alloc: Global, op: &mut OneOp, reply: &mut Pieces) -> Result<Change, NoMemory>
    ensures { IfOk result (λ change. Makes (outcome (one op.old) None) None reply.new change) }
{
    match op.family() {
        Family::Any | Family::Strings => df_strings::prepare_into(alloc, op, None, reply),
        Family::Lists => df_lists::prepare_into(alloc, op, None, reply),
        Family::Hashes => df_hashes::prepare_into(alloc, op, None, reply),
        Family::Sets => df_sets::prepare_into(alloc, op, None, reply),
    }
}

/// Prepares a command of a key that holds this value.
fn prepare_on(
    alloc: Global,
    op: &mut OneOp,
    value: &mut Value,
    reply: &mut Pieces,
) -> Result<Change, NoMemory>
    ensures ok { IfOk result (λ change. Makes (outcome (one op.old) (Some (seen value.old))) (Some value.new) reply.new change) }
    ensures kept { seen value.new ≡ seen value.old }
{
    match op.family() {
        Family::Any | Family::Strings => df_strings::prepare_into(alloc, op, Some(value), reply),
        Family::Lists => df_lists::prepare_into(alloc, op, Some(value), reply),
        Family::Hashes => df_hashes::prepare_into(alloc, op, Some(value), reply),
        Family::Sets => df_sets::prepare_into(alloc, op, Some(value), reply),
    }
}
