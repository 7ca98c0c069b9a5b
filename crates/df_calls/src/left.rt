//! What a call left with its caller's pass, and the rows behind it: for clauses alone.

ghost use Rattle.std.specs.Prelude.{◌≡◌, ◌++◌, List};
ghost use Rattle.df_model.specs.declared.command.Call.{Call};
ghost use Rattle.df_end.specs.Calls.{Row};
ghost use Rattle.df_calls.specs.Left.{LeftBy};

use crate::rows::Rows;
use df_book::{CallerPass, Witness};
use df_caller::Went;
use std::mem;

/// A call that came to its end: the pass when it began and as it is, what its last step came to, and the rows of the calls
/// before it.
#[derive(Drop)]
pub(crate) struct Left {
    shards: u32,
    before: Witness<CallerPass>,
    pass: Witness<CallerPass>,
    went: Went,
    rows: Rows,
}

impl Left {
    /// The rows behind the call: those of before, and the ones that it left. Which these are is a fact alone, and no value
    /// of the program tells it: so the proof is written by hand.
    fn rows(&self) -> Rows
        requires left { (call : Call) × (more : List Row) × LeftBy self.now.went self.now.shards self.now.before.value self.now.pass.value call more }
        ensures left { (call : Call) × (more : List Row) × LeftBy self.now.went self.now.shards self.now.before.value self.now.pass.value call more × (result.rows ≡ self.now.rows.rows ++ more) }
    {
        let _ = self;
        Rows {}
    }
}

/// Notes a call that came to its end: its rows stand behind the others, and the pass is that of before the next one.
pub(crate) fn noted(
    shards: u32,
    rested: &mut Witness<CallerPass>,
    rows: &mut Rows,
    pass: &CallerPass,
    went: Went,
) -> Went
    requires left { (call : Call) × (more : List Row) × LeftBy went shards rested.old.value pass.now call more }
    ensures rested { rested.new.value ≡ pass.now }
    ensures went { result ≡ went }
    ensures left { (call : Call) × (more : List Row) × LeftBy result shards rested.old.value pass.now call more × (rows.new.rows ≡ rows.old.rows ++ more) }
{
    let left = Left {
        shards,
        before: mem::replace(rested, Witness::of(pass)),
        pass: Witness::of(pass),
        went,
        rows: mem::replace(rows, Rows::none()),
    };
    *rows = left.rows();
    let Left { went, .. } = left;
    went
}
