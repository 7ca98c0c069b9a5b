//! What stands in the queue for one call.

/// A call's place in the queue: its number, whether its intents were granted at once, and the slot (an
/// index of the caller's own table) where its hop waits.
#[derive(Clone, Copy, Debug, PartialEq, Eq)]
pub struct Place {
    pub number: u64,
    pub granted: bool,
    pub slot: usize,
}
