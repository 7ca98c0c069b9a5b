//! The rule of the queue, and what its calls tell.
ghost use Rattle.std.specs.Prelude.{Option, None};
ghost use Rattle.df_shardqueue.specs.Kept.{Kept, Pushed, Popped, at_first, fresh, halved, joined, seen, share_of, spent, told};

use crate::marked::Marked;
use crate::view::View;
use crossbeam_queue::protocol::{Join, Lesson, Outcome, Protocol, Split};
use std::marker::{Brand, PhantomData};

/// The mark that a new queue is to have.
pub trait Naming<K> {
    ghost name: { Option K };
}

impl<K> Naming<K> for Brand {
    ghost name = { None };
}

/// Each item has the queue's mark, is pushed once and popped once, and they come out in the order in which they
/// went in.
pub struct InOneOrder;

impl<M: Marked> Protocol<M, View<M, M::Mark>> for InOneOrder {
    ghost holds = { Kept M.mark };

    ghost first = { at_first };
}

/// The first pass gives all that it has to a pass that knows the mark.
pub struct Choose<N> {
    of: PhantomData<N>,
}

impl<M, K, N: Naming<K>> Split<View<M, K>> for Choose<N> {
    ghost left = { λ v. spent };

    ghost right = { λ v. seen N.name (share_of v) v.sent v.taken };
}

/// A further pass, with half of the part.
pub struct Halve;

impl<M, K> Split<View<M, K>> for Halve {
    ghost left = { halved };

    ghost right = { fresh };
}

/// Two passes in one.
pub struct Both;

impl<M, K> Join<View<M, K>> for Both {
    ghost both = { joined };

    ghost spent = { spent };
}

/// A push, which at a full queue tells what the rule says.
pub struct Puts;

impl<M, K> Outcome<M, View<M, K>> for Puts {
    ghost then = { Pushed };
}

impl<M, K> Lesson<M, View<M, K>> for Puts {
    ghost fact = { told };
}

/// A pop, which at an empty queue tells what the rule says.
pub struct Takes;

impl<M: Marked> Outcome<M, View<M, M::Mark>> for Takes {
    ghost then = { Popped M.mark };
}

impl<M, K> Lesson<M, View<M, K>> for Takes {
    ghost fact = { told };
}
