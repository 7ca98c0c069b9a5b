//! Lists that take their memory before they are pushed to.

ghost use Rattle.std.specs.Prelude.{◌≡◌, ◌+◌, ◌-◌, ◌≤◌, ◌<◌, max, [], ◌∷◌, ◌++◌, length, slice_get, slice_set, OnOk, OnErr, MatchOption};
ghost use Rattle.std.specs.Option.{option_copied};

use crate::{Bin, NoMemory};
use std::alloc::Global;
use std::marker::Model;
use std::mem;

/// A list with room for `spare` further elements, which are pushed without taking memory. Contracts
/// see the elements and this number. The lists of a finished command or reply have no room.
#[derive(Debug, Drop)]
pub struct Reserved<T> {
    items: Vec<T>,
    spare: usize,
}

impl<T> Model for Reserved<T> {
    ghost use Rattle.df_model.specs.Spared.{Spared, spared_code};
    ghost use Rattle.std.specs.Prelude.{◌+◌, ◌≤◌, vec_len, vec_capacity};

    ghost Value = { Spared T };

    ghost coded = { spared_code T.code };

    ghost view = { λ r. record { items = r.items.items; spare = r.spare } };

    ghost invariant = { λ r. vec_len r.items + r.spare ≤ vec_capacity r.items };
}

impl<T> Reserved<T> {
    /// The empty list, with no room.
    pub fn new(alloc: Global) -> Reserved<T>
        ensures { result ≡ record { items = []; spare = 0 } }
    {
        Reserved {
            items: Vec::new(alloc),
            spare: 0,
        }
    }

    /// Makes room for `count` elements, those that it has room for among them.
    pub fn reserve(&mut self, count: usize) -> Result<(), NoMemory>
        ensures items { self.new.items ≡ self.old.items }
        ensures ok { OnOk result (self.new.spare ≡ max self.old.spare count) }
        ensures err { OnErr result (self.new ≡ self.old) }
    {
        if self.spare < count {
            self.items.reserve(count)?;
            self.spare = count;
        }
        Ok(())
    }

    /// How many elements there are.
    pub fn len(&self) -> usize
        ensures { result ≡ length self.now.items }
    {
        self.items.len()
    }

    /// How many further elements there is room for.
    pub fn spare(&self) -> usize
        ensures { result ≡ self.now.spare }
    {
        self.spare
    }

    /// The count of elements, those that there is room for among them.
    pub fn room(&self) -> usize
        ensures { result ≡ length self.now.items + self.now.spare }
    {
        self.items.len() + self.spare
    }

    /// The element at this place, from 0.
    pub fn get(&self, at: usize) -> Option<&T>
        ensures { option_copied result ≡ slice_get self.now.items at }
    {
        self.items.get(at)
    }

    /// The elements, lent.
    pub fn as_slice(&self) -> &[T]
        ensures { result.now ≡ self.now.items }
    {
        self.items.as_slice()
    }

    /// The elements, moved out; the room goes with them. Takes no memory.
    pub fn into_vec(self) -> Vec<T>
        ensures { result.items ≡ self.items }
    {
        self.items
    }

    /// Adds an element at the end. Takes no memory.
    pub fn push(&mut self, item: T)
        requires { 0 < self.old.spare }
        ensures items { self.new.items ≡ self.old.items ++ item ∷ [] }
        ensures spare { self.new.spare ≡ self.old.spare - 1 }
    {
        self.items.push_reserved(item);
        self.spare -= 1;
    }

    /// Takes the last element out; its room stays.
    pub fn pop(&mut self) -> Option<T>
        ensures { MatchOption result ((self.old.items ≡ []) × (self.new ≡ self.old)) (λ last. (self.old.items ≡ self.new.items ++ last ∷ []) × (self.new.spare ≡ self.old.spare + 1)) }
    {
        let last = self.items.pop()?;
        self.spare += 1;
        Some(last)
    }

    /// Puts the element in the place of another, which is answered.
    pub fn replace(&mut self, at: usize, item: T) -> T
        requires { at < length self.old.items }
        ensures old { slice_get self.old.items at ≡ Some result }
        ensures new { self.new ≡ record self.old { items = slice_set self.old.items at item } }
    {
        mem::replace(&mut self.items[at], item)
    }

    /// Drops all elements; their room stays. Takes no memory.
    pub fn clear(&mut self)
    where
        T: Drop,
        ensures { self.new ≡ record { items = []; spare = length self.old.items + self.old.spare } }
    {
        self.spare += self.items.len();
        self.items.clear();
    }

    /// Moves the list out with its room, and leaves the empty one. Takes no memory.
    pub fn take(&mut self) -> Reserved<T>
        ensures all { result ≡ self.old }
        ensures left { self.new ≡ record { items = []; spare = 0 } }
    {
        let alloc = *self.items.allocator();
        mem::replace(self, Reserved::new(alloc))
    }

    /// Gives up the room. Takes no memory.
    pub fn seal(&mut self)
        ensures { self.new ≡ record { items = self.old.items; spare = 0 } }
    {
        self.spare = 0;
    }
}

/// Byte strings.
pub type Bins = Reserved<Bin>;

/// Pairs of byte strings, as a key and its value.
pub type Pairs = Reserved<(Bin, Bin)>;
