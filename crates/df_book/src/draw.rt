//! One draw.
use df_model::Call;

/// A number that was drawn. No value of it is made: contracts speak of draws, which cost nothing.
pub struct Draw {
    /// The place of the pass that drew it, among those split from the first one.
    pub session: u64,
    pub number: u64,
    pub call: Call,
    /// The greatest number that the caller had seen run on any shard, or 0. Notes don't count.
    pub floor: u64,
}
