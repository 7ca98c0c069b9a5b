//! A queue, what its holders know of it, and its calls.
//!
//! Every item that is pushed gets a place, the number of those pushed before it. Items come out in the order of
//! their places, each once. A pass knows what its holder pushed and popped, with places; a join merges two passes
//! by place. Each pass has a part of the queue, and the pass that has the whole of it knows all that was pushed
//! and popped.
//!
//! Source: crossbeam's array queue, under a rule.
ghost use Rattle.std.specs.Prelude.{◌≡◌, ◌<◌, List, [], Some, IfOk, IfErr, IfSome, IfNone, MatchResult, MatchOption};
ghost use Rattle.crossbeam_queue.specs.Fifo.{Held};
ghost use Rattle.df_shardqueue.specs.Passes.{IsOf, IsWhole, capacity, mark_of, part_of, popped, pushed, sent, taken};
ghost use Rattle.df_shardqueue.specs.Placed.{GrewBy, merged};
ghost use Rattle.df_shardqueue.specs.Shares.{all_of_it, half, together};
ghost use Rattle.df_shardqueue.specs.Told.{Told};

use crate::marked::Marked;
use crate::rule::{Both, Choose, Halve, InOneOrder, Naming, Puts, Takes};
use crate::view::View;
use crossbeam_queue::{Pass, RuledArrayQueue};
use df_model::NoMemory;
use std::alloc::Global;
use std::marker::Brand;
use std::sync::Wait;

/// A bounded queue, shared by reference among threads.
#[derive(Drop)]
pub struct ShardQueue<M: Marked> {
    line: RuledArrayQueue<M, View<M, M::Mark>, InOneOrder>,
}

/// What one holder knows of such a queue. It has no bytes.
#[derive(Drop)]
pub struct QueuePass<M: Marked> {
    pass: Pass<M, View<M, M::Mark>>,
}

fn named<M: Marked, N: Naming<M::Mark>>(
    alloc: Global,
    count: usize,
) -> Result<(ShardQueue<M>, QueuePass<M>), NoMemory>
    ghost mark: { M.Mark }
    requires name { N.name ≡ Some mark }
    requires capacity { 0 < count }
    ensures queue { IfOk result (λ r. IsOf r.0 r.1 × (capacity r.0 ≡ count) × (mark_of r.1 ≡ Some mark)) }
    ensures pass { IfOk result (λ r. (part_of r.1 ≡ all_of_it) × (sent r.1 ≡ []) × (taken r.1 ≡ [])) }
{
    let (line, mut first) = RuledArrayQueue::ruled(alloc, count)?;
    let pass = line.another::<Choose<N>>(&mut first);
    Ok((ShardQueue { line }, QueuePass { pass }))
}

impl<M: Marked> ShardQueue<M> {
    /// An empty queue with room for so many items, and the pass that has all of it.
    pub fn new(alloc: Global, count: usize) -> Result<(ShardQueue<M>, QueuePass<M>), NoMemory>
        ghost mark: { M.Mark }
        requires { 0 < count }
        ensures queue { IfOk result (λ r. IsOf r.0 r.1 × (capacity r.0 ≡ count) × (mark_of r.1 ≡ Some mark)) }
        ensures pass { IfOk result (λ r. (part_of r.1 ≡ all_of_it) × (sent r.1 ≡ []) × (taken r.1 ≡ [])) }
    {
        named::<M, Brand>(alloc, count)
    }

    /// How many items it has room for.
    pub fn capacity(&self) -> usize
        ensures { result ≡ capacity self.now }
    {
        self.line.capacity()
    }

    /// A further pass, for another holder. It has pushed and popped nothing.
    pub fn pass(&self, from: &mut QueuePass<M>) -> QueuePass<M>
        requires { IsOf self.now from.old }
        ensures same { IsOf self.now from.new × (mark_of from.new ≡ mark_of from.old) × (sent from.new ≡ sent from.old) × (taken from.new ≡ taken from.old) }
        ensures new { IsOf self.now result × (mark_of result ≡ mark_of from.old) × (sent result ≡ []) × (taken result ≡ []) }
        ensures halves { (part_of from.new ≡ half (part_of from.old)) × (part_of result ≡ half (part_of from.old)) }
    {
        QueuePass {
            pass: self.line.another::<Halve>(&mut from.pass),
        }
    }

    /// Puts the item at the back. It comes back only where the queue was full at a moment of this call.
    pub fn push<R: Wait>(&self, rt: &R, pass: &mut QueuePass<M>, m: M) -> Result<(), M>
        requires queue { IsOf self.now pass.old }
        requires marked { mark_of pass.old ≡ Some (M.mark m) }
        ensures same { IsOf self.now pass.new × (mark_of pass.new ≡ mark_of pass.old) × (part_of pass.new ≡ part_of pass.old) × (taken pass.new ≡ taken pass.old) }
        ensures pushed { MatchResult result (λ _. GrewBy m (sent pass.old) (sent pass.new)) (λ x. (x ≡ m) × (sent pass.new ≡ sent pass.old)) }
        ensures full { IfErr result (λ _. Held {T = M} (capacity self.now) (Told (IsWhole pass.old) (sent pass.old) (taken pass.old))) }
    {
        self.line.push_as::<Puts, R>(rt, &mut pass.pass, m)
    }

    /// Takes the item at the front. None only where the queue was empty at a moment of this call; a pass that has
    /// the whole queue has then popped all that it pushed, in the same order.
    pub fn pop<R: Wait>(&self, rt: &R, pass: &mut QueuePass<M>) -> Option<M>
        requires { IsOf self.now pass.old }
        ensures same { IsOf self.now pass.new × (mark_of pass.new ≡ mark_of pass.old) × (part_of pass.new ≡ part_of pass.old) × (sent pass.new ≡ sent pass.old) }
        ensures popped { MatchOption result (taken pass.new ≡ taken pass.old) (λ x. GrewBy x (taken pass.old) (taken pass.new)) }
        ensures marked { IfSome result (λ x. mark_of pass.old ≡ Some (M.mark x)) }
        ensures all { IfNone result (IsWhole pass.old → popped pass.old ≡ pushed pass.old) }
        ensures empty { IfNone result (Held {T = M} 0 (Told (IsWhole pass.old) (sent pass.old) (taken pass.old))) }
    {
        self.line.pop_as::<Takes, R>(rt, &mut pass.pass)
    }

    /// Two passes in one, which has what both pushed and popped, in the order of the queue.
    pub fn join(&self, into: &mut QueuePass<M>, from: QueuePass<M>)
        requires { IsOf self.now into.old × IsOf self.now from }
        ensures same { IsOf self.now into.new × (mark_of into.new ≡ mark_of into.old) }
        ensures both { (sent into.new ≡ merged (sent from) (sent into.old)) × (taken into.new ≡ merged (taken from) (taken into.old)) }
        ensures part { part_of into.new ≡ together (part_of into.old) (part_of from) }
        ensures told { (items : List M) × Told (IsWhole into.new) (sent into.new) (taken into.new) items }
    {
        self.line.absorb::<Both>(&mut into.pass, from.pass);
        self.line.learn_as::<Takes>(&mut into.pass);
    }
}

fn named_like<M: Marked>(
    alloc: Global,
    count: usize,
    like: &M,
) -> Result<(ShardQueue<M>, QueuePass<M>), NoMemory>
    ghost mark: { M.Mark }
    requires capacity { 0 < count }
    requires mark { mark ≡ M.mark like.now }
    ensures queue { IfOk result (λ r. IsOf r.0 r.1 × (capacity r.0 ≡ count) × (mark_of r.1 ≡ Some (M.mark like.now))) }
    ensures pass { IfOk result (λ r. (part_of r.1 ≡ all_of_it) × (sent r.1 ≡ []) × (taken r.1 ≡ [])) }
{
    ShardQueue::new(alloc, count)
}

/// A new queue whose mark is that of this item.
pub fn queue_like<M: Marked>(
    alloc: Global,
    count: usize,
    like: &M,
) -> Result<(ShardQueue<M>, QueuePass<M>), NoMemory>
    requires { 0 < count }
    ensures queue { IfOk result (λ r. IsOf r.0 r.1 × (capacity r.0 ≡ count) × (mark_of r.1 ≡ Some (M.mark like.now))) }
    ensures pass { IfOk result (λ r. (part_of r.1 ≡ all_of_it) × (sent r.1 ≡ []) × (taken r.1 ≡ [])) }
{
    named_like(alloc, count, like)
}
