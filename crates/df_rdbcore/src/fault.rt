//! Why a file can't be loaded: the first fault in reading order, with its place.

use df_model::NoMemory;
use thiserror::Error;

/// What a part is wrong in.
#[derive(Clone, Copy, Debug, PartialEq, Eq)]
pub enum PartFault {
    /// A collection has no element.
    Empty,
    /// Bytes stand behind the sum.
    After,
    /// A total, a width, a tail or a count of a compact form doesn't agree, or its last byte is missing.
    Header,
    /// An entry of a compact form has no known first byte, goes past the end, or has a wrong length beside it.
    Entry,
    /// A hash in a compact form has an odd number of entries.
    Odd,
    /// A node of a list has an unknown kind.
    Container,
}

/// What stands a second time.
#[derive(Clone, Copy, Debug, PartialEq, Eq)]
pub enum Twice {
    Key,
    Field,
    Member,
}

/// The first fault of a file. `at` is its place in bytes from the file's begin.
#[derive(Clone, Copy, Debug, PartialEq, Eq, Error)]
pub enum LoadFault {
    /// One of the first five bytes is another than the format's. The place is 0.
    #[error("no RDB file")]
    BadMagic,
    /// The version isn't one of 0005 to 0012. The place is 5.
    #[error("a version that is not read")]
    BadVersion,
    /// A needed byte is past the end; `at` is the file's length.
    #[error("the file ends too early, at byte {at}")]
    Truncated { at: u64 },
    /// `at` is the byte that begins no length, or the first byte of the length of a string that is too long.
    #[error("a bad length at byte {at}")]
    BadLength { at: u64 },
    /// A known form that isn't read; `code` is its first byte, 254 for another database than 0.
    #[error("form {code} at byte {at} is not read")]
    Unsupported { code: u8, at: u64 },
    /// A part's first byte that the format doesn't know.
    #[error("unknown type {code} at byte {at}")]
    UnknownType { code: u8, at: u64 },
    /// `at` is the part's first byte; where bytes stand behind the sum, the first of them.
    #[error("a bad part at byte {at}")]
    BadPart { kind: PartFault, at: u64 },
    /// `at` is the first byte of a key that came before; for fields and members the part's first byte.
    #[error("a key, field or member a second time at byte {at}")]
    Duplicate { kind: Twice, at: u64 },
    /// The stored sum isn't 0 and isn't that of the bytes before it; `at` is its first byte.
    #[error("the sum {stored:x} at byte {at} is not that of the file, {computed:x}")]
    BadChecksum { stored: u64, computed: u64, at: u64 },
    /// The disk failed; `at` is the place that was asked for.
    #[error("reading failed at byte {at}")]
    ReadFault { at: u64 },
    /// Memory ran out. It has no place.
    #[error("out of memory")]
    NoMemory,
}

impl From<NoMemory> for LoadFault {
    fn from(_: NoMemory) -> Self {
        LoadFault::NoMemory
    }
}
