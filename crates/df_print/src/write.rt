//! Whole pieces, written in parts.

ghost use Rattle.df_print.specs.Writes.{HasWritten};

use df_outside::{Put, Sink};

/// What a write of a whole piece came to.
#[derive(Clone, Copy, Debug)]
pub enum Written {
    Whole,
    Failed,
    NoMemory,
}

/// Writes a piece, in as few writes as the sink takes.
pub fn write_all<O: Sink>(piece: &[u8], out: &mut O) -> Written
    ensures { HasWritten result piece.now (O.outflow out.old) (O.outflow out.new) }
{
    let mut rest = piece;
    'writes: while !rest.is_empty() {
        match out.write(rest) {
            Put::Took(count) => rest = &rest[count..],
            Put::Failed | Put::NotYet => return Written::Failed,
            Put::NoMemory => return Written::NoMemory,
        }
    }
    Written::Whole
}
