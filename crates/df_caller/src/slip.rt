//! What goes from a connection to whatever runs its calls, and comes back.

ghost use Rattle.std.specs.Prelude.{◌≡◌, []};

use df_model::{Call, Command, WholeOp};
use df_values::Pieces;
use std::alloc::Global;

/// A call, and room for its reply. A connection boxes one and gives it away for call after call, so that a call takes no
/// memory for its own sake. Its words are read to where they stand here, and its reply is written to where it stands.
#[derive(Drop)]
pub struct Slip {
    pub call: Call,
    /// The reply's bytes, once the call ran.
    pub reply: Pieces,
}

impl Slip {
    /// A slip before its first call. Takes no memory.
    pub fn new(alloc: Global) -> Slip
        ensures { result.reply ≡ [] }
    {
        Slip {
            call: Call::Single(Command::Whole(WholeOp::Dbsize)),
            reply: Pieces::new(alloc),
        }
    }
}
