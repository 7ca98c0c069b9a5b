//! A value that only clauses read, and that may go to any thread.
//!
//! std's `Snapshot` remembers a value in the same way. But of a type that holds one the check doesn't find out by itself
//! that it may go to another thread, however its other parts look.

ghost use Rattle.std.specs.Prelude.{◌≡◌};
ghost use Rattle.std.specs.Borrow.{ftrue};

use std::marker::{Model, PhantomData};

/// A `T` as clauses see it. It has no bytes.
#[derive(Drop)]
pub struct Witness<T> {
    marker: PhantomData<T>,
    pub ghost value: { T },
}

impl<T> Model for Witness<T> {
    ghost also_owns = { λ _. ftrue };
}

// SAFETY: it has no bytes and owns nothing (`also_owns`), and the check asks for the proof of it.
unsafe impl<T> Send for Witness<T> {}

impl<T> Witness<T> {
    /// Remembers what the reference shows. It costs nothing.
    pub fn of(x: &T) -> Witness<T>
        ensures { result.value ≡ x.now }
    {
        let _ = x;
        Witness {
            marker: PhantomData,
        }
    }
}
