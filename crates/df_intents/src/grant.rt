//! What taking intents answers.

/// Whether a call may run at once.
#[derive(Clone, Copy, Debug, PartialEq, Eq)]
pub enum Grant {
    /// No other holder conflicts.
    Free,
    /// Another holder conflicts: the call holds its intents, and waits for its turn.
    Waits,
}
