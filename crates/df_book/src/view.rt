//! What a seat of the book's table knows.
use crate::draw::Draw;
use crate::witness::Witness;
use df_log::Entry;
use df_model::Call;
use std::collections::LinkedList;

/// What a step announces, for the proof alone. It has no bytes but its tag.
#[derive(Drop)]
pub enum Said {
    Call(Witness<Call>),
    Entry(Witness<Entry>),
}

/// What a seat is about to do. A step can be told a number or what it announces, so these are noted one step before.
pub enum Note {
    Nothing,
    /// A pass with so many draws is split off.
    Cut(u64),
    Draw(Call),
    Enter(Entry),
}

/// What a seat knows, and what it counts for. No value of it is made.
pub struct View {
    /// 1 for the first pass, 0 for any other seat.
    pub first: u64,
    /// How many passes were split off it.
    pub splits: u64,
    /// How many numbers it may draw.
    pub budget: u64,
    /// The places of the passes that it stands for, its own first.
    pub sessions: LinkedList<u64>,
    /// What these drew.
    pub own: LinkedList<Draw>,
    /// The number of each running ticket that they made.
    pub made: LinkedList<u64>,
    /// What it was told of draws.
    pub known: LinkedList<Draw>,
    /// The number of a running ticket that nobody has taken yet.
    pub runs: LinkedList<u64>,
    /// Each running ticket that it took: for which log, and of which number.
    pub counted: LinkedList<(u64, u64)>,
    /// The logs that it alone lengthens.
    pub owns: LinkedList<u64>,
    /// Of a receipt, its log.
    pub shows: u64,
    /// A beginning of each log.
    pub seen: LinkedList<LinkedList<Entry>>,
    /// What two seats had seen before they became one, until this seat has learned that it fits.
    pub left: LinkedList<LinkedList<Entry>>,
    pub right: LinkedList<LinkedList<Entry>>,
    pub note: Note,
}
