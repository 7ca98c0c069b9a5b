//! A list of byte strings in a ring of slots, so that both ends are as near as any place.
//!
//! What takes memory takes it in `reserve` and `copy` alone: a change that is prepared by `reserve` can't
//! fail.

ghost use Rattle.std.specs.Prelude.{◌≡◌, ◌+◌, ◌<◌, ◌≤◌, [], ◌∷◌, ◌++◌, length, slice_get, slice_set, Some, IfOk, IsTrue, ◌↔◌, MatchOption, OnOk};
ghost use Rattle.std.specs.List.{insert};
ghost use Rattle.std.specs.Option.{option_copied};
ghost use Rattle.df_model.specs.Meaning.Lists.{without};
ghost use Rattle.df_model.specs.Ranges.{ranged};

use crate::removal::{keep, remove_equal};
use df_model::{Bin, NoMemory};
use df_text::ends;
use std::alloc::Global;
use std::collections::VecDeque;
use std::marker::Model;
use std::mem;

/// A list of byte strings, and room for further ones. Contracts see the elements and for how many more
/// there is room.
#[derive(Debug, Drop)]
pub struct ListVal {
    queue: VecDeque<Bin>,
}

impl Model for ListVal {
    ghost use Rattle.std.specs.Prelude.{◌-◌};
    ghost use Rattle.std.specs.VecDeque.{deque_len, deque_capacity};
    ghost use Rattle.df_model.specs.Spared.{Spared, spared_code};
    ghost use Rattle.df_model.specs.Values.{Bytes, coded_bytes};

    ghost Value = { Spared Bytes };

    ghost coded = { spared_code coded_bytes };

    ghost view = { λ l. record { items = l.queue.items; spare = deque_capacity l.queue - deque_len l.queue } };
}

impl ListVal {
    /// The empty list. Takes no memory.
    pub fn new(alloc: Global) -> ListVal
        ensures { result.items ≡ [] }
    {
        ListVal {
            queue: VecDeque::new(alloc),
        }
    }

    /// How many elements there are.
    pub fn len(&self) -> usize
        ensures { result ≡ length self.now.items }
    {
        self.queue.len()
    }

    /// Whether there are none.
    pub fn is_empty(&self) -> bool
        ensures { IsTrue result ↔ (self.now.items ≡ []) }
    {
        self.queue.is_empty()
    }

    /// Makes room for `count` more.
    pub fn reserve(&mut self, count: usize) -> Result<(), NoMemory>
        ensures items { self.new.items ≡ self.old.items }
        ensures spare { self.old.spare ≤ self.new.spare }
        ensures ok { OnOk result (count ≤ self.new.spare) }
    {
        self.queue.reserve(count)?;
        Ok(())
    }

    /// Adds an element before the first. Takes no memory.
    pub fn push_front(&mut self, element: Bin)
        requires { 0 < self.old.spare }
        ensures items { self.new.items ≡ element ∷ self.old.items }
        ensures spare { self.old.spare ≤ self.new.spare + 1 }
    {
        self.queue.push_front_reserved(element);
    }

    /// Adds an element after the last. Takes no memory.
    pub fn push_back(&mut self, element: Bin)
        requires { 0 < self.old.spare }
        ensures items { self.new.items ≡ self.old.items ++ element ∷ [] }
        ensures spare { self.old.spare ≤ self.new.spare + 1 }
    {
        self.queue.push_back_reserved(element);
    }

    /// Takes the first element out.
    pub fn pop_front(&mut self) -> Option<Bin>
        ensures { MatchOption result ((self.old.items ≡ []) × (self.new ≡ self.old)) (λ first. (self.old.items ≡ first ∷ self.new.items) × (self.old.spare ≤ self.new.spare)) }
    {
        self.queue.pop_front()
    }

    /// Takes the last element out.
    pub fn pop_back(&mut self) -> Option<Bin>
        ensures { MatchOption result ((self.old.items ≡ []) × (self.new ≡ self.old)) (λ last. (self.old.items ≡ self.new.items ++ last ∷ []) × (self.old.spare ≤ self.new.spare)) }
    {
        self.queue.pop_back()
    }

    /// The element at this place, from 0.
    pub fn get(&self, at: usize) -> Option<&Bin>
        ensures { option_copied result ≡ slice_get self.now.items at }
    {
        self.queue.get(at)
    }

    /// Puts an element in the place of another, which is handed back.
    pub fn set(&mut self, at: usize, element: Bin) -> Bin
        requires { at < length self.old.items }
        ensures items { self.new.items ≡ slice_set self.old.items at element }
        ensures before { slice_get self.old.items at ≡ Some result }
        ensures spare { self.new.spare ≡ self.old.spare }
    {
        mem::replace(&mut self.queue[at], element)
    }

    /// Puts an element at this place, and those from there on one further. Takes no memory.
    pub fn insert(&mut self, at: usize, element: Bin)
        requires place { at ≤ length self.old.items }
        requires room { 0 < self.old.spare }
        ensures items { self.new.items ≡ insert self.old.items at element }
        ensures spare { self.old.spare ≤ self.new.spare + 1 }
    {
        match self.queue.insert(at, element) {
            Ok(()) => {}
            Err(_) => unreachable!(),
        }
    }

    /// Removes the first `count` elements that equal this one, the last ones where `count` is negative,
    /// all where it is 0, and answers how many these were. Takes no memory, and stops looking once it has
    /// so many.
    pub fn remove_equal(&mut self, element: &[u8], count: i64) -> u64
        ensures items { self.new.items ≡ without count element.now self.old.items }
        ensures count { result + length self.new.items ≡ length self.old.items }
        ensures spare { self.old.spare ≤ self.new.spare }
    {
        let before = self.queue.len();
        remove_equal(&mut self.queue, element, count);
        (before - self.queue.len()) as u64
    }

    /// Keeps this range alone; both ends are in, and a negative one counts from the end.
    pub fn trim(&mut self, from: i64, to: i64)
        ensures items { self.new.items ≡ ranged from to self.old.items }
        ensures spare { self.old.spare ≤ self.new.spare }
    {
        let (start, stop) = ends(from, to, self.queue.len());
        keep(&mut self.queue, start, stop);
    }

    /// The same elements in memory of their own.
    pub fn copy(&self, alloc: Global) -> Result<ListVal, NoMemory>
        ensures { IfOk result (λ list. list.items ≡ self.now.items) }
    {
        let mut queue = VecDeque::with_capacity(alloc, self.queue.len())?;
        'elements: for element in self.queue.iter() {
            queue.push_back(element.copy(alloc)?)?;
        }
        Ok(ListVal { queue })
    }
}
