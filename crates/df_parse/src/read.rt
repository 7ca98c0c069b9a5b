//! The words of a request as a command: the public calls.

ghost use Rattle.std.specs.Prelude.{OnOk};
ghost use Rattle.df_model.specs.Reads.{IsLinked, Reading, linked, reads, reads_linked};
ghost use Rattle.df_parse.specs.Reading.{AsRead, Refuses};

use crate::Refusal;
use crate::table::read_row;
use bytes::Bytes;
use df_model::{Command, ErrorText, WholeOp};
use std::alloc::Global;

/// Reads the command that the words spell to the place of another, which is dropped; the first word is its name, in any
/// case. Where the words are refused, nothing is said of what stands there.
pub fn read_into(alloc: Global, words: &[Bytes], command: &mut Command) -> Result<(), Refusal>
    ensures { AsRead (reads words.now) result command.new }
{
    match words {
        [] => Err(Refusal::Unknown),
        [name, words @ ..] => read_row(alloc, name.as_slice(), words, command),
    }
}

/// Reads the command that the words spell, among those that run so far: SAVE is an unknown name.
pub fn read_linked(alloc: Global, words: &[Bytes], command: &mut Command) -> Result<(), Refusal>
    ensures read { AsRead (reads_linked words.now) result command.new }
    ensures linked { OnOk result (IsLinked command.new) }
{
    match read_into(alloc, words, command) {
        Ok(()) => only_linked(command),
        Err(refusal) => Err(known(refusal)),
    }
}

fn only_linked(command: &Command) -> Result<(), Refusal>
    ensures read { AsRead (linked (Reading.Runs command.now)) result command.now }
    ensures linked { OnOk result (IsLinked command.now) }
{
    match command {
        Command::Whole(WholeOp::Save) => Err(Refusal::Unknown),
        _ => Ok(()),
    }
}

/// A wrong count of words behind an unknown name is no wrong count.
fn known(refusal: Refusal) -> Refusal
    ensures { (reading : Reading) → Refuses reading refusal → Refuses (linked reading) result }
{
    match &refusal {
        Refusal::Arity(ErrorText::Arity(name)) if name.as_slice() == b"save".as_slice() => {
            Refusal::Unknown
        }
        _ => refusal,
    }
}
