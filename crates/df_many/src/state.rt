//! Where a call of many hops stands.

use df_book::Witness;
use df_caller::Slip;
use df_model::Call;

/// A call that was drawn.
#[derive(Drop)]
pub struct Turned {
    pub slip: Box<Slip>,
    pub number: u64,
    /// What was drawn: of the slip's call some may be used already.
    pub call: Witness<Call>,
}

/// Where the call under way stands.
#[derive(Drop)]
pub enum State {
    /// None is under way.
    Idle,
    /// It was begun, or was refused: its number is still to be drawn.
    Due(Box<Slip>),
    /// It was drawn, and asked each of its shards for a place.
    Placing(Turned),
    /// It lets go of the places that it was given, to be drawn again, or else for want of memory.
    Withdrawing(Box<Slip>, bool),
    /// It asked its shards for the hops of a round.
    Hopping(Turned),
    /// It ran, and lets go of its places: whether its reply lies in the slip.
    Leaving(Box<Slip>, bool, Witness<Call>),
}
