//! Laws of the definitions, each the contract of a function that does nothing.
ghost use Rattle.df_shardqueue.specs.Laws.{IsFront, JoinKeeps, JoinsAlone};

/// Items come out first in, first out for each sender: what was popped of a sender, and then what of it the queue
/// still holds, is what it pushed, in its order. A join keeps each sender's order.
pub fn senders_keep_their_order<M>()
    ensures join { JoinKeeps M }
    ensures alone { JoinsAlone M }
    ensures front { IsFront M }
{}
