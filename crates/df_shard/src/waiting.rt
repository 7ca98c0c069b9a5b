//! What a shard keeps of a call that waits.

ghost use Rattle.std.specs.Prelude.{◌≡◌, ◌<◌, length, slice_index_or, map, None, Some, IfNone, IfSome};
ghost use Rattle.df_shard.specs.Holds.{wait_at, wait_of};
ghost use Rattle.df_shard.specs.declared.waiting.Waiting.{Waiting};

use df_caller::Slip;
use df_hops::{Changes, Part};

/// The hop that waits for its turn.
#[derive(Drop)]
pub enum Armed {
    Nothing,
    /// The hop of a Quick, and its slip.
    Quick(u32, Box<Slip>),
    Hop(u32, Part),
}

/// A call in the queue.
#[derive(Drop)]
pub struct Waiting {
    pub number: u64,
    pub conn: u32,
    /// Each hop of the call that ran here is below this one.
    pub above: u64,
    pub armed: Armed,
    /// What the call has staged, in the order of its Stage.
    pub staged: Changes,
}

/// Where the call with this number stands among those that wait.
pub(crate) fn find(waiting: &Vec<Waiting>, number: u64) -> Option<usize>
    ensures none { IfNone result (wait_at number (map wait_of waiting.now.items) ≡ None) }
    ensures within { IfSome result (λ at. at < length waiting.now.items) }
    ensures some { IfSome result (λ at. (d : Waiting) → wait_at number (map wait_of waiting.now.items) ≡ Some (wait_of (slice_index_or waiting.now.items at d))) }
{
    'calls: for at in 0..waiting.len() {
        if waiting[at].number == number {
            return Some(at);
        }
    }
    None
}
