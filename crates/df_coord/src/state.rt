//! Where a call of one hop stands.

use df_book::Witness;
use df_caller::Slip;
use df_hops::Message;
use df_model::Call;

/// Where the call under way stands.
#[derive(Drop)]
pub enum State {
    /// None is under way.
    Idle,
    /// It was begun, or was refused: its number is still to be drawn. It runs on this shard; its key's hash.
    Due(Box<Slip>, u32, u64),
    /// It was drawn, and its message found no room on the way. Its key's hash.
    Unsent(Message, u64, Witness<Call>),
    /// Its message, with this number, went to this shard. Its key's hash.
    Sent(u64, u32, u64, Witness<Call>),
}
