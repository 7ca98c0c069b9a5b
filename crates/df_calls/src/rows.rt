//! The numbers that were drawn for a connection's calls, each with what came of it, which only clauses see: of any
//! length, in no memory.

ghost use Rattle.std.specs.Prelude.{◌≡◌, [], List};
ghost use Rattle.std.specs.Borrow.{ftrue};
ghost use Rattle.std.specs.Coded.{codes};
ghost use Rattle.df_model.specs.contracts.reply.Reply as reply;
ghost use Rattle.df_model.specs.Values.{coded_value};
ghost use Rattle.df_end.specs.Calls.{Row};

use std::marker::Model;

/// A number for each call, the first drawn first. It has no bytes and costs nothing.
#[derive(Drop)]
pub struct Rows {
    pub ghost rows: { List Row } by { Prim.hlevel (codes, reply.the_row.coded, coded_value) },
}

impl Model for Rows {
    ghost also_owns = { λ _. ftrue };
}

// It owns nothing.
unsafe impl Send for Rows {}

impl Rows {
    /// The rows that the caller's proof picks. They tell of what ran only as far as a clause ties them to it.
    pub fn of() -> Rows
        ghost these: { List Row }
        ensures { result.rows ≡ these }
    {
        Rows {}
    }

    /// None.
    pub fn none() -> Rows
        ensures { result.rows ≡ [] }
    {
        Rows::of()
    }
}
