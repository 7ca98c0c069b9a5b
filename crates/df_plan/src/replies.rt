//! The reply of a call, put together of those of its commands.

ghost use Rattle.std.specs.Prelude.{◌≡◌, true};
ghost use Rattle.std.specs.Bool.{OnTrue};
ghost use Rattle.df_plan.specs.Commands.{IsAdded};

use df_caller::Slip;
use df_model::Call;
use df_values::Pieces;

/// Adds the reply of a command where all before it were said, and answers whether all are now. A single command's is the
/// call's.
pub(crate) fn add_reply(said: bool, slip: &mut Slip, reply: Pieces) -> bool
    ensures call { slip.new.call ≡ slip.old.call }
    ensures added { OnTrue result ((said ≡ true) × IsAdded slip.old.call slip.old.reply reply slip.new.reply) }
{
    if !said {
        return false;
    }
    match &slip.call {
        Call::Single(_) => {
            slip.reply = reply;
            true
        }
        Call::Exec(_) => slip.reply.add_all(&reply).is_ok(),
    }
}
