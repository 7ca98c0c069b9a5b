//! What a pass knows of its queue.

use std::collections::LinkedList;

/// The queue's mark once it is chosen, the pass's part of the queue (of 2 to the power of `cuts`), and what it
/// pushed and popped, with places. A pass that was joined into another has no part. No value of it is made.
pub struct View<M, K> {
    pub mark: Option<K>,
    pub part: u64,
    pub cuts: u64,
    pub sent: LinkedList<(u64, M)>,
    pub taken: LinkedList<(u64, M)>,
}
