//! A holder's handle on a queue.
ghost use Rattle.std.specs.Prelude.{◌≡◌, Some, IfSome, IfErr};
ghost use Rattle.df_shardqueue.specs.Passes.{IsOf, mark_of};

use crate::{Marked, QueuePass, ShardQueue};
use std::marker::Model;
use std::sync::Wait;
use std::thread;

/// A queue, and one's own pass of it. Contracts see it as the queue's mark.
#[derive(Drop)]
pub struct Lane<'a, M: Marked> {
    queue: &'a ShardQueue<M>,
    pass: QueuePass<M>,
}

impl<'a, M: Marked> Model for Lane<'a, M> {
    ghost use Rattle.std.specs.Prelude.{Option};
    ghost use Rattle.df_shardqueue.specs.Passes.{IsOf, mark_of};

    ghost Value = { Option M.Mark };

    ghost view = { λ l. mark_of l.pass };

    ghost invariant = { λ l. IsOf l.queue.now l.pass };
}

impl<'a, M: Marked> Lane<'a, M> {
    /// The queue with this pass of it.
    pub fn new(queue: &'a ShardQueue<M>, pass: QueuePass<M>) -> Lane<'a, M>
        requires { IsOf queue.now pass }
        ensures { result ≡ mark_of pass }
    {
        Lane { queue, pass }
    }

    /// The queue and the pass again, so that passes can be joined.
    pub fn into_parts(self) -> (&'a ShardQueue<M>, QueuePass<M>)
        ensures { IsOf result.0.now result.1 × (mark_of result.1 ≡ self.entry) }
    {
        (self.queue, self.pass)
    }

    /// A further lane of the same queue, for another holder.
    pub fn twin(&mut self) -> Lane<'a, M>
        ensures { (result ≡ self.old) × (self.new ≡ self.old) }
    {
        let queue = self.queue;
        let pass = queue.pass(&mut self.pass);
        Lane { queue, pass }
    }

    /// Puts the item at the back. It comes back only where the queue was full at a moment of this call.
    pub fn push<R: Wait>(&mut self, rt: &R, m: M) -> Result<(), M>
        requires marked { self.old ≡ Some (M.mark m) }
        ensures same { self.new ≡ self.old }
        ensures back { IfErr result (λ x. x ≡ m) }
    {
        self.queue.push(rt, &mut self.pass, m)
    }

    /// Takes the item at the front. None only where the queue was empty at a moment of this call.
    pub fn pop<R: Wait>(&mut self, rt: &R) -> Option<M>
        ensures same { self.new ≡ self.old }
        ensures marked { IfSome result (λ m. self.old ≡ Some (M.mark m)) }
    {
        self.queue.pop(rt, &mut self.pass)
    }

    /// Puts the item at the back, once there is room.
    pub fn give<R: Wait>(&mut self, rt: &R, m: M)
        requires { self.old ≡ Some (M.mark m) }
        ensures { self.new ≡ self.old }
    {
        let mut m = m;
        for _ in rt.forever() {
            match self.push(rt, m) {
                Ok(()) => return,
                Err(back) => m = back,
            }
            thread::yield_now();
        }
        unreachable!()
    }

    /// Takes the item at the front, once there is one.
    pub fn take<R: Wait>(&mut self, rt: &R) -> M
        ensures same { self.new ≡ self.old }
        ensures marked { self.old ≡ Some (M.mark result) }
    {
        for _ in rt.forever() {
            if let Some(m) = self.pop(rt) {
                return m;
            }
            thread::yield_now();
        }
        unreachable!()
    }
}

fn is_send<T: Send>(_: &T) {}

fn is_sync<T: Sync>(_: &T) {}

// What crosses threads: the queue by reference, passes and lanes by value. Shows a lost Send at once.
fn cross<M: Marked + Send>(lane: &Lane<'_, M>) {
    is_send(lane);
    is_send(&lane.pass);
    is_send(lane.queue);
    is_sync(lane.queue);
}
