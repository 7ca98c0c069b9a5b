//! What is printed of a file that is refused.

ghost use Rattle.std.specs.Prelude.{◌≡◌, ◌++◌, IfOk, codes, string_bytes};
ghost use Rattle.df_check.specs.Lines as lines;

use df_rdbcore::{LoadFault, PartFault, Twice};
use std::alloc::{AllocError, Global};

/// The line that says which fault it is, and where.
pub(crate) fn refused_line(alloc: Global, fault: LoadFault) -> Result<String, AllocError>
    ensures { IfOk result (λ line. string_bytes line ≡ lines.refused_line fault) }
{
    let kind = kind_text(alloc, fault)?;
    format!(in alloc; "load refused: {} at {}\n", kind.as_str(), place_in(fault))
}

/// The fault's name, with what it tells but its place.
fn kind_text(alloc: Global, fault: LoadFault) -> Result<String, AllocError>
    ensures { IfOk result (λ text. string_bytes text ≡ lines.kind_text fault) }
{
    match fault {
        LoadFault::BadMagic => String::from_str(alloc, "BadMagic"),
        LoadFault::BadVersion => String::from_str(alloc, "BadVersion"),
        LoadFault::Truncated { at: _ } => String::from_str(alloc, "Truncated"),
        LoadFault::BadLength { at: _ } => String::from_str(alloc, "BadLength"),
        LoadFault::Unsupported { code, at: _ } => format!(in alloc; "Unsupported({})", code),
        LoadFault::UnknownType { code, at: _ } => format!(in alloc; "UnknownType({})", code),
        LoadFault::BadPart { kind, at: _ } => String::from_str(alloc, part_text(kind)),
        LoadFault::Duplicate { kind, at: _ } => String::from_str(alloc, twice_text(kind)),
        LoadFault::BadChecksum {
            stored,
            computed,
            at: _,
        } => sums_text(alloc, stored, computed),
        LoadFault::ReadFault { at: _ } => String::from_str(alloc, "ReadFault"),
        LoadFault::NoMemory => String::from_str(alloc, "NoMemory"),
    }
}

fn part_text(kind: PartFault) -> &'static str
    ensures { result.now ≡ lines.part_text kind }
{
    match kind {
        PartFault::Empty => "BadPart(Empty)",
        PartFault::After => "BadPart(After)",
        PartFault::Header => "BadPart(Header)",
        PartFault::Entry => "BadPart(Entry)",
        PartFault::Odd => "BadPart(Odd)",
        PartFault::Container => "BadPart(Container)",
    }
}

fn twice_text(kind: Twice) -> &'static str
    ensures { result.now ≡ lines.twice_text kind }
{
    match kind {
        Twice::Key => "Duplicate(Key)",
        Twice::Field => "Duplicate(Field)",
        Twice::Member => "Duplicate(Member)",
    }
}

/// Both sums, sixteen digits each.
fn sums_text(alloc: Global, stored: u64, computed: u64) -> Result<String, AllocError>
    ensures { IfOk result (λ text. string_bytes text ≡ codes "BadChecksum(" ++ (lines.sum_text stored ++ (codes ", " ++ (lines.sum_text computed ++ codes ")")))) }
{
    let stored = hex::encode(alloc, stored.to_be_bytes())?;
    let computed = hex::encode(alloc, computed.to_be_bytes())?;
    format!(in alloc; "BadChecksum({}, {})", stored.as_str(), computed.as_str())
}

/// Its place, in bytes from the file's begin.
fn place_in(fault: LoadFault) -> u64
    ensures { result ≡ lines.place_in fault }
{
    match fault {
        LoadFault::BadMagic | LoadFault::NoMemory => 0,
        LoadFault::BadVersion => 5,
        LoadFault::Truncated { at }
        | LoadFault::BadLength { at }
        | LoadFault::Unsupported { code: _, at }
        | LoadFault::UnknownType { code: _, at }
        | LoadFault::BadPart { kind: _, at }
        | LoadFault::Duplicate { kind: _, at }
        | LoadFault::BadChecksum {
            stored: _,
            computed: _,
            at,
        }
        | LoadFault::ReadFault { at } => at,
    }
}
