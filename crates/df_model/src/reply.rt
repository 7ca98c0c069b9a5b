//! Replies, as RESP2 has them.

use crate::{Bin, Reserved};

/// The texts of error replies. Each stands in specs/Replies.
#[derive(Debug)]
pub enum ErrorText {
    WrongKind,
    NotInteger,
    Overflow,
    HashNotInteger,
    NoSuchKey,
    IndexRange,
    OffsetRange,
    Syntax,
    /// The name of the command, in lower case.
    Arity(Bin),
    Unknown,
    Nested,
    ExecAlone,
    DiscardAlone,
    Aborted,
    NotInside,
    TooQueued,
    TooLong,
    DbIndex,
    SaveFailed,
    Memory,
    TooMany,
}

/// A call of its own, so that whoever drops an error has one way on and not one a variant.
impl Drop for ErrorText {
    fn drop(self) {
        match self {
            ErrorText::WrongKind
            | ErrorText::NotInteger
            | ErrorText::Overflow
            | ErrorText::HashNotInteger
            | ErrorText::NoSuchKey
            | ErrorText::IndexRange
            | ErrorText::OffsetRange
            | ErrorText::Syntax
            | ErrorText::Arity(_)
            | ErrorText::Unknown
            | ErrorText::Nested
            | ErrorText::ExecAlone
            | ErrorText::DiscardAlone
            | ErrorText::Aborted
            | ErrorText::NotInside
            | ErrorText::TooQueued
            | ErrorText::TooLong
            | ErrorText::DbIndex
            | ErrorText::SaveFailed
            | ErrorText::Memory
            | ErrorText::TooMany => {}
        }
    }
}

/// A reply.
#[derive(Debug, Drop)]
pub enum Reply {
    Simple(Bin),
    Error(ErrorText),
    Int(i64),
    Bulk(Bin),
    NullBulk,
    NullArray,
    Array(Replies),
}

/// Replies in their order.
pub type Replies = Reserved<Reply>;
