//! A call that ran, which only clauses see: of any length in no memory.

ghost use Rattle.std.specs.Prelude.{◌≡◌, []};
ghost use Rattle.df_desk.specs.Parts.{marks_of};
ghost use Rattle.df_desk.specs.Replies.{told_on};

use crate::exec::Part;
use df_model::{Call, Reserved};
use df_table::Table;
use std::marker::Model;
use std::snapshot::Snapshot;

/// Of an EXEC, what each of its commands was answered.
#[derive(Drop)]
pub(crate) enum Parts {
    None,
    Of(Snapshot<Reserved<Part>>),
}

/// A call and the reply that it was given. No bytes of either are kept: the reply follows from the table as it stood
/// and from the commands of an EXEC that found no memory.
#[derive(Drop)]
pub(crate) struct Ran {
    call: Snapshot<Call>,
    before: Snapshot<Table>,
    parts: Parts,
}

impl Model for Ran {
    ghost use Rattle.df_caller.specs.Told.{Told};
    ghost use Rattle.df_model.specs.contracts.reply.Reply as reply;
    ghost use Rattle.std.specs.Coded.{codes};
    ghost use Rattle.df_desk.specs.Marks.{marks_in};
    ghost use Rattle.df_desk.specs.Replies.{told_on};

    ghost Value = { Told };

    ghost coded = { Prim.hlevel (codes, reply.the_row.coded) };

    ghost view = { λ r. told_on r.call.value (marks_in r.parts) r.before.value.keys };
}

impl Ran {
    /// This command was run on this table. Takes no memory.
    pub(crate) fn single(call: Snapshot<Call>, before: Snapshot<Table>) -> Ran
        ensures { result ≡ told_on call.value [] before.value.keys }
    {
        Ran {
            call,
            before,
            parts: Parts::None,
        }
    }

    /// This EXEC was run on this table. Takes no memory.
    pub(crate) fn exec(
        call: Snapshot<Call>,
        before: Snapshot<Table>,
        parts: Snapshot<Reserved<Part>>,
    ) -> Ran
        ensures { result ≡ told_on call.value (marks_of parts.value.items) before.value.keys }
    {
        Ran {
            call,
            before,
            parts: Parts::Of(parts),
        }
    }
}
