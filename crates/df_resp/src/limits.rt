//! How large a request may be. A client sees these: a larger one is bad input.

/// Words of a request.
pub const MAX_WORDS: usize = 1048576;

/// Bytes of a word.
pub const MAX_WORD: usize = 536870912;

/// Bytes of all words of a request together.
pub const MAX_REQUEST: usize = 1073741824;
