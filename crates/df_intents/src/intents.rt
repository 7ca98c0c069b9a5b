//! The holders of one shard's keys: who may have what it asks for, and who has to wait for its turn.
//!
//! A call takes its intents whether or not others conflict, so that a later call waits for it in turn. A
//! map from number to keys has what each call holds, and an index counts the asks for each key. So a take
//! and a release cost what their own keys cost, however many others hold.

ghost use Rattle.std.specs.Prelude.{◌≡◌, ◌+◌, ◌<◌, ◌≤◌, ◌∷◌, [], length, Some, true, false, OnOk, if◌then◌else◌};
ghost use Rattle.df_model.specs.Hash.{fnv64};
ghost use Rattle.df_footprints.specs.Asks.{asks, asks_for, clashes_with, some_clash};
ghost use Rattle.df_intents.specs.Holders.{holds, is_free, just, keys_of, room_of, without};
ghost use Rattle.df_intents.specs.Counting.{for_all, for_key, held};

use crate::grant::Grant;
use crate::index::Index;
use crate::trail::Trail;
use df_model::{Bin, Keys, Mode, NoMemory};
use df_text::fnv64;
use std::alloc::Global;
use std::collections::HashMap;
use std::marker::Model;

/// Who holds what on a shard, and room for further asks. Contracts see the holders, the last that took its
/// intents first, and for how many further asks there is room.
#[derive(Drop)]
pub struct Intents {
    holders: HashMap<u64, Keys>,
    index: Index,
    trail: Trail,
}

impl Model for Intents {
    ghost use Rattle.std.specs.Prelude.{◌-◌, ◌^◌, min};
    ghost use Rattle.std.specs.HashMap.{spare};
    ghost use Rattle.df_intents.specs.Holders.{Holding};
    ghost use Rattle.df_intents.specs.Kept.{Kept};

    ghost Value = { Holding };

    ghost view = { λ i. record { holders = i.trail.holders; spare = min (2 ^ 64 - 1 - i.index.asks.any) (min (spare i.holders) (spare i.index.tallies)) } };

    ghost invariant = { λ i. Kept i.holders.entries i.index i.trail.holders };
}

impl Intents {
    /// No holder. Takes no memory.
    pub fn new(alloc: Global) -> Intents
        ensures { result.holders ≡ [] }
    {
        Intents {
            holders: HashMap::new(alloc),
            index: Index::new(alloc),
            trail: Trail::new(),
        }
    }

    /// How many calls hold intents.
    pub fn len(&self) -> usize
        ensures { result ≡ length self.now.holders }
    {
        self.holders.len()
    }

    /// For how many further asks there is room: one for each key of a call, one for all keys.
    pub fn spare(&self) -> usize
        ensures { result ≡ self.now.spare }
    {
        let holders = self.holders.capacity() - self.holders.len();
        let asks = usize::MAX - self.index.len();
        asks.min(holders.min(self.index.spare()))
    }

    /// Makes room for `count` further asks. More than a number can count are want of memory too.
    pub fn reserve(&mut self, count: usize) -> Result<(), NoMemory>
        ensures holders { self.new.holders ≡ self.old.holders }
        ensures spare { self.old.spare ≤ self.new.spare }
        ensures ok { OnOk result (count ≤ self.new.spare) }
    {
        if count > usize::MAX - self.index.len() {
            return Err(NoMemory);
        }
        self.holders.reserve(count)?;
        self.index.reserve(count)
    }

    /// Whether the call with this number holds intents.
    pub fn holds(&self, number: u64) -> bool
        ensures { result ≡ holds number self.now.holders }
    {
        self.holders.contains_key(&number)
    }

    /// Lets the call hold these keys, and tells whether it may run at once: where no other holder
    /// conflicts. Takes no memory.
    pub fn take(&mut self, number: u64, keys: Keys) -> Grant
        requires new { holds number self.old.holders ≡ false }
        requires room { room_of keys ≤ self.old.spare }
        ensures holders { self.new.holders ≡ record { number = number; keys = keys } ∷ self.old.holders }
        ensures grant { result ≡ (if is_free keys self.old.holders then Grant.Free else Grant.Waits) }
        ensures spare { self.old.spare ≤ self.new.spare + room_of keys }
    {
        let is_opposed = self.index.enter(&self.holders, number, &keys);
        self.trail.take(number, &keys);
        match self.holders.insert(number, keys) {
            Ok(_) => {}
            Err(_) => unreachable!(),
        }
        if is_opposed {
            Grant::Waits
        } else {
            Grant::Free
        }
    }

    /// What `take` of this one key would answer, to a caller that has hashed the key. Changes nothing. With no holder it
    /// costs one comparison.
    pub fn grant_key(&self, hash: u64, key: &Bin, mode: Mode) -> Grant
        requires { hash ≡ fnv64 key.now }
        ensures { result ≡ (if is_free (just key.now mode) self.now.holders then Grant.Free else Grant.Waits) }
    {
        if self.opposes_key(hash, key, mode) {
            Grant::Waits
        } else {
            Grant::Free
        }
    }

    /// Whether `take` of these keys would answer Free. Changes nothing. With no holder it costs a comparison for each
    /// key, and its hash.
    pub fn is_free(&self, keys: &Keys) -> bool
        ensures { result ≡ is_free keys.now self.now.holders }
    {
        !self.opposes(keys)
    }

    /// Whether an ask of a holder clashes with one of these.
    fn opposes(&self, keys: &Keys) -> bool
        ensures { result ≡ some_clash (asks keys.now) (held self.now.holders) }
    {
        match keys {
            Keys::All(mode) => self.opposes_all(*mode),
            Keys::Some(modes) => self.opposes_some(modes.as_slice()),
        }
    }

    fn opposes_all(&self, mode: Mode) -> bool
        ensures { result ≡ clashes_with (for_all mode) (held self.now.holders) }
    {
        self.index.opposes_all(mode)
    }

    fn opposes_some(&self, modes: &[(Bin, Mode)]) -> bool
        ensures { result ≡ some_clash (asks_for modes.now) (held self.now.holders) }
    {
        'asks: for (key, mode) in modes {
            if self.opposes_key(fnv64(key.as_slice()), key, *mode) {
                return true;
            }
        }
        false
    }

    fn opposes_key(&self, hash: u64, key: &Bin, mode: Mode) -> bool
        requires { hash ≡ fnv64 key.now }
        ensures { result ≡ clashes_with (for_key key.now mode) (held self.now.holders) }
    {
        self.index.opposes_key(&self.holders, hash, key, mode)
    }

    /// Takes from the call what it holds, and hands it out. Takes no memory.
    pub fn release(&mut self, number: u64) -> Keys
        requires { holds number self.old.holders ≡ true }
        ensures keys { Some result ≡ keys_of number self.old.holders }
        ensures holders { self.new.holders ≡ without number self.old.holders }
        ensures spare { self.old.spare ≤ self.new.spare }
    {
        match self.holders.remove(&number) {
            Some(keys) => {
                self.index.leave(&keys);
                self.trail.release(number);
                keys
            }
            None => unreachable!(),
        }
    }
}

/// For how many asks these keys need room: one for each key, one for all of them, and at least one.
pub fn room_of(keys: &Keys) -> usize
    ensures { result ≡ room_of keys.now }
{
    match keys {
        Keys::Some(modes) => modes.len().max(1),
        Keys::All(_) => 1,
    }
}
