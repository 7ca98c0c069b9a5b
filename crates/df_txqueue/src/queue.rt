//! Places in the order of their numbers, so that the head is the oldest call.
//!
//! Calls come in nearly in order of their numbers and mostly leave from the head. The places stand in a
//! ring of slots, where an insert or a removal moves the places on the nearer side alone. A place is found
//! by binary search. The queue is that of VLL (very lightweight locking), as Dragonfly has it.

ghost use Rattle.std.specs.Prelude.{◌≡◌, ◌+◌, ◌<◌, ◌≤◌, [], length, slice_get, false, IfNone, MatchOption, OnOk, IsTrue, ◌↔◌};
ghost use Rattle.std.specs.List.Sorted.{IsPartitionPoint};
ghost use Rattle.df_txqueue.specs.Places.{Ascending, IsGreatest, IsLeast, is_queued, last_number, place_of, with_place, without};
ghost use Rattle.df_txqueue.specs.Searches.{Found, Missing};

use crate::place::Place;
use df_model::NoMemory;
use std::alloc::Global;
use std::collections::VecDeque;
use std::marker::Model;

/// The places of calls, and room for further ones. Contracts see the places in order and for how many
/// more there is room.
#[derive(Debug, Drop)]
pub struct TxQueue {
    ring: VecDeque<Place>,
}

impl Model for TxQueue {
    ghost use Rattle.std.specs.Prelude.{◌-◌};
    ghost use Rattle.std.specs.VecDeque.{deque_len, deque_capacity};
    ghost use Rattle.df_txqueue.specs.Places.{Ascending, Queue};

    ghost Value = { Queue };

    ghost view = { λ q. record { places = q.ring.items; spare = deque_capacity q.ring - deque_len q.ring } };

    ghost invariant = { λ q. Ascending q.ring.items };
}

impl TxQueue {
    /// No places. Takes no memory.
    pub fn new(alloc: Global) -> TxQueue
        ensures { result.places ≡ [] }
    {
        TxQueue {
            ring: VecDeque::new(alloc),
        }
    }

    /// Makes room for `count` more.
    pub fn reserve(&mut self, count: usize) -> Result<(), NoMemory>
        ensures places { self.new.places ≡ self.old.places }
        ensures spare { self.old.spare ≤ self.new.spare }
        ensures ok { OnOk result (count ≤ self.new.spare) }
    {
        self.ring.reserve(count)?;
        Ok(())
    }

    /// How many places there are. They are in order at any time.
    pub fn len(&self) -> usize
        ensures len { result ≡ length self.now.places }
        ensures sorted { Ascending self.now.places }
    {
        self.ring.len()
    }

    /// Whether there are none.
    pub fn is_empty(&self) -> bool
        ensures { IsTrue result ↔ (self.now.places ≡ []) }
    {
        self.ring.is_empty()
    }

    /// The place at this index, the head's being 0.
    pub fn get(&self, at: usize) -> Option<Place>
        ensures { result ≡ slice_get self.now.places at }
    {
        self.ring.get(at).copied()
    }

    /// The oldest call's place.
    pub fn head(&self) -> Option<Place>
        ensures first { result ≡ slice_get self.now.places 0 }
        ensures oldest { MatchOption result (self.now.places ≡ []) (λ place. IsLeast place.number self.now.places) }
    {
        self.ring.front().copied()
    }

    /// The number of the newest call.
    pub fn tail(&self) -> Option<u64>
        ensures last { result ≡ last_number self.now.places }
        ensures newest { MatchOption result (self.now.places ≡ []) (λ number. IsGreatest number self.now.places) }
    {
        match self.ring.back() {
            Some(place) => Some(place.number),
            None => None,
        }
    }

    /// Whether the call with this number has a place.
    pub fn is_queued(&self, number: u64) -> bool
        ensures { result ≡ is_queued number self.now.places }
    {
        find(&self.ring, number).is_some()
    }

    /// The place of the call with this number.
    pub fn place(&self, number: u64) -> Option<Place>
        ensures { result ≡ place_of number self.now.places }
    {
        match find(&self.ring, number) {
            Some(at) => self.ring.get(at).copied(),
            None => None,
        }
    }

    /// Gives a call its place. Takes no memory.
    pub fn insert(&mut self, place: Place)
        requires new { is_queued place.number self.old.places ≡ false }
        requires room { 0 < self.old.spare }
        ensures places { self.new.places ≡ with_place place self.old.places }
        ensures spare { self.old.spare ≤ self.new.spare + 1 }
    {
        let at = count_below(&self.ring, place.number);
        match self.ring.insert(at, place) {
            Ok(()) => {}
            Err(_) => unreachable!(),
        }
    }

    /// Takes the call with this number out, wherever it stands.
    pub fn remove(&mut self, number: u64) -> Option<Place>
        ensures place { result ≡ place_of number self.old.places }
        ensures places { self.new.places ≡ without number self.old.places }
        ensures unchanged { IfNone result (self.new ≡ self.old) }
        ensures spare { self.old.spare ≤ self.new.spare }
    {
        match find(&self.ring, number) {
            Some(at) => self.ring.remove(at),
            None => None,
        }
    }
}

/// Where the call with this number stands.
fn find(ring: &VecDeque<Place>, number: u64) -> Option<usize>
    requires { Ascending ring.now.items }
    ensures { MatchOption result (Missing number ring.now.items) (Found number ring.now.items) }
{
    let at = count_below(ring, number);
    match ring.get(at) {
        Some(place) if place.number == number => Some(at),
        _ => None,
    }
}

/// How many places have lesser numbers.
fn count_below(ring: &VecDeque<Place>, number: u64) -> usize
    requires { Ascending ring.now.items }
    ensures bound { result ≤ length ring.now.items }
    ensures split { IsPartitionPoint (λ place. place.number < number) (λ place. number ≤ place.number) ring.now.items result }
{
    ring.partition_point(|place| place.number < number)
}
