//! How messages go to shards and answers come back, whatever the way.

ghost use Rattle.std.specs.Prelude.{◌≡◌, ◌<◌, true, is_some, None, IfErr, IfNone, IfSome, OnErr, OnOk};
ghost use Rattle.df_post.specs.Postings.{Posting, Sent, Stalled, Took, awaits_at, shards_of};

use df_hops::{Answer, Message};

/// A way to each of some shards and back. One message at a time awaits its answer on each.
pub trait Post: Drop {
    /// The book, what awaits its answer on each shard, and how often something had to wait.
    ghost posting: { Self → Posting };

    /// Sends the message to its shard. Where there is no room it comes back. Takes no memory.
    fn send(&mut self, m: Message) -> Result<(), Message>
        requires book { m.ticket.book ≡ (posting self.old).book }
        requires there { m.shard < shards_of (posting self.old) }
        requires idle { awaits_at m.shard (posting self.old) ≡ None }
        ensures sent { OnOk result (Sent (posting self.old) (posting self.new) m) }
        ensures stalled { OnErr result (Stalled (posting self.old) (posting self.new)) }
        ensures back { IfErr result (λ given. given ≡ m) };

    /// The answer to what awaits there, if it came. What came and doesn't fit is dropped.
    fn take(&mut self, shard: u32) -> Option<Answer>
        requires awaits { is_some (awaits_at shard (posting self.old)) ≡ true }
        ensures took { IfSome result (Took (posting self.old) (posting self.new) shard) }
        ensures none { IfNone result (Stalled (posting self.old) (posting self.new)) };
}
