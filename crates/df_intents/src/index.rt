//! How many asks are held for each key, so that a further ask is judged in the time of that ask.
//!
//! A key stands here as its 64-bit hash, and no key is copied. Where a count says that nobody opposes an
//! ask, nobody does. Where it says that somebody may, the keys of the holder that asked last are looked at,
//! since two keys may share a hash. Only where that holder has left, or hashes fell together, are all holders
//! gone over; a call that somebody opposes already is never looked at again.

ghost use Rattle.std.specs.Prelude.{◌≡◌, ℕ, ◌+◌, ◌-◌, ◌<◌, ◌≤◌, ◌^◌, ◌&&◌, ◌||◌, ◌∷◌, ◌++◌, [], List, length, OnOk, Some, None, IsTrue, is_some, nat_lt, nat_eq, cond};
ghost use Rattle.std.specs.HashMap.{spare};
ghost use Rattle.std.specs.Map.{lookup};
ghost use Rattle.df_model.specs.Values.{Bytes};
ghost use Rattle.df_model.specs.Hash.{fnv64};
ghost use Rattle.df_footprints.specs.Asks.{Ask, asks, asks_for, clashes_with, some_clash};
ghost use Rattle.df_intents.specs.Holders.{Holder, count_of};
ghost use Rattle.df_intents.specs.Counting.{against, for_all, for_key, held};

use crate::count::Count;
use crate::search::find_holder;
use df_model::{Bin, Keys, Mode, NoMemory};
use df_text::fnv64;
use std::alloc::Global;
use std::collections::HashMap;

/// The asks for the keys with one hash: how many, and hints at who may oppose a further one.
#[derive(Clone, Copy, Debug)]
pub(crate) struct Tally {
    count: Count,
    /// The call that asked last.
    last: u64,
    /// The call that asked last to write, as far as it is known.
    last_exclusive: u64,
}

impl Tally {
    ghost use Rattle.df_intents.specs.Counting.{weight};
    ghost use Rattle.df_intents.specs.Kept.{Once, Tells};

    /// Who may oppose a further ask in this mode.
    fn hint(self, mode: Mode) -> u64 {
        match mode {
            Mode::Shared => self.last_exclusive,
            Mode::Exclusive => self.last,
        }
    }

    /// Who opposes an ask for this key, where the count says that somebody may.
    fn find(self, holders: &HashMap<u64, Keys>, key: &Bin, mode: Mode) -> Option<u64>
        ensures { (hs : List Holder) → Once hs → Tells holders.now.entries hs → is_some result ≡ (nat_lt 0 (against mode self.count) && clashes_with (for_key key.now mode) (held hs)) }
    {
        if self.count.against(mode) > 0 {
            find_holder(holders, key, mode, self.hint(mode))
        } else {
            None
        }
    }

    /// With an ask of the call with this number more, which this holder opposed, if one did.
    fn entered(self, number: u64, mode: Mode, holder: Option<u64>) -> Tally
        ensures shared { self.count.exclusive + 1 < 2 ^ 64 → result.count.exclusive ≡ weight Mode.Shared mode + self.count.exclusive }
        ensures any { self.count.any + 1 < 2 ^ 64 → result.count.any ≡ 1 + self.count.any }
    {
        let last_exclusive = match (mode, holder) {
            (Mode::Exclusive, _) => number,
            (Mode::Shared, Some(holder)) => holder,
            (Mode::Shared, None) => self.last_exclusive,
        };
        Tally {
            count: self.count.with(mode),
            last: number,
            last_exclusive,
        }
    }
}

/// The counts of all asks that are held.
#[derive(Drop)]
pub(crate) struct Index {
    tallies: HashMap<u64, Tally>,
    /// The asks for all keys.
    alls: Count,
    /// All asks.
    asks: Count,
}

impl Index {
    ghost use Rattle.df_intents.specs.Index.{Counts, lowered, tallied};
    ghost use Rattle.df_intents.specs.Kept.{Once, Tells};

    pub(crate) fn new(alloc: Global) -> Index
        ensures { Counts result [] }
    {
        Index {
            tallies: HashMap::new(alloc),
            alls: Count::none(),
            asks: Count::none(),
        }
    }

    /// Makes room for asks for `count` more keys.
    pub(crate) fn reserve(&mut self, count: usize) -> Result<(), NoMemory>
        ensures counts { (bs : List Ask) → Counts self.old bs → Counts self.new bs }
        ensures spare { spare self.old.tallies ≤ spare self.new.tallies }
        ensures asks { self.new.asks ≡ self.old.asks }
        ensures ok { OnOk result (count ≤ spare self.new.tallies) }
    {
        self.tallies.reserve(count)?;
        Ok(())
    }

    /// For how many more keys there is room.
    pub(crate) fn spare(&self) -> usize
        ensures { result ≡ spare self.now.tallies }
    {
        self.tallies.capacity() - self.tallies.len()
    }

    /// How many asks are held.
    pub(crate) fn len(&self) -> usize
        ensures { result ≡ self.now.asks.any }
    {
        self.asks.against(Mode::Exclusive)
    }

    /// Counts what a call asks for, and tells whether somebody opposes it.
    pub(crate) fn enter(&mut self, holders: &HashMap<u64, Keys>, number: u64, keys: &Keys) -> bool
        requires { count_of keys.now ≤ spare self.old.tallies }
        ensures counts { (bs : List Ask) → length bs + count_of keys.now < 2 ^ 64 → Counts self.old bs → Counts self.new (asks keys.now ++ bs) }
        ensures exact { (hs : List Holder) → Once hs → Tells holders.now.entries hs → length (held hs) + count_of keys.now < 2 ^ 64 → Counts self.old (held hs) → result ≡ some_clash (asks keys.now) (held hs) }
        ensures spare { spare self.old.tallies ≤ spare self.new.tallies + count_of keys.now }
    {
        match keys {
            Keys::All(mode) => self.enter_all(*mode),
            Keys::Some(modes) => self.enter_keys(holders, number, modes.as_slice()),
        }
    }

    /// Whether somebody opposes an ask for all keys.
    pub(crate) fn opposes_all(&self, mode: Mode) -> bool
        ensures { (bs : List Ask) → Counts self.now bs → result ≡ clashes_with (for_all mode) bs }
    {
        self.asks.against(mode) > 0
    }

    /// Whether somebody opposes an ask for this key, whose hash is given. Where nobody who is in the way of an ask
    /// for all keys asks for anything, that is one comparison.
    pub(crate) fn opposes_key(
        &self,
        holders: &HashMap<u64, Keys>,
        hash: u64,
        key: &Bin,
        mode: Mode,
    ) -> bool
        requires { hash ≡ fnv64 key.now }
        ensures { (hs : List Holder) → Once hs → Tells holders.now.entries hs → Counts self.now (held hs) → result ≡ clashes_with (for_key key.now mode) (held hs) }
    {
        if !self.opposes_all(mode) {
            return false;
        }
        if self.alls.against(mode) > 0 {
            return true;
        }
        let tally = self.tally(hash);
        let holder = tally.find(holders, key, mode);
        holder.is_some()
    }

    fn enter_all(&mut self, mode: Mode) -> bool
        ensures counts { (bs : List Ask) → length bs + 1 < 2 ^ 64 → Counts self.old bs → Counts self.new (for_all mode ∷ bs) }
        ensures exact { (bs : List Ask) → Counts self.old bs → result ≡ clashes_with (for_all mode) bs }
        ensures spare { spare self.old.tallies ≤ spare self.new.tallies + 1 }
    {
        let is_opposed = self.asks.against(mode) > 0;
        self.alls = self.alls.with(mode);
        self.asks = self.asks.with(mode);
        is_opposed
    }

    fn enter_keys(
        &mut self,
        holders: &HashMap<u64, Keys>,
        number: u64,
        modes: &[(Bin, Mode)],
    ) -> bool
        requires { length modes.now ≤ spare self.old.tallies }
        ensures counts { (bs : List Ask) → length bs + length modes.now < 2 ^ 64 → Counts self.old bs → Counts self.new (asks_for modes.now ++ bs) }
        ensures exact { (hs : List Holder) → Once hs → Tells holders.now.entries hs → length (held hs) + length modes.now < 2 ^ 64 → Counts self.old (held hs) → result ≡ some_clash (asks_for modes.now) (held hs) }
        ensures spare { spare self.old.tallies ≤ spare self.new.tallies + length modes.now }
    {
        let mut is_opposed = false;
        'asks: for (key, mode) in modes {
            is_opposed = self.enter_key(holders, number, key, *mode, is_opposed);
        }
        is_opposed
    }

    /// Counts an ask for one key, and tells whether somebody opposes it, unless somebody opposes the call
    /// already.
    fn enter_key(
        &mut self,
        holders: &HashMap<u64, Keys>,
        number: u64,
        key: &Bin,
        mode: Mode,
        is_opposed: bool,
    ) -> bool
        requires { 0 < spare self.old.tallies }
        ensures counts { (bs : List Ask) → length bs + 1 < 2 ^ 64 → Counts self.old bs → Counts self.new (for_key key.now mode ∷ bs) }
        ensures exact { (more : List (Bytes × Mode)) (hs : List Holder) → Once hs → Tells holders.now.entries hs → Counts self.old (asks_for more ++ held hs) → result ≡ (is_opposed || clashes_with (for_key key.now mode) (held hs)) }
        ensures spare { spare self.old.tallies ≤ spare self.new.tallies + 1 }
    {
        let hash = fnv64(key.as_slice());
        let tally = self.tally(hash);
        let is_known = is_opposed || self.alls.against(mode) > 0;
        let holder = if is_known {
            None
        } else {
            tally.find(holders, key, mode)
        };
        self.put(hash, tally.entered(number, mode, holder));
        self.asks = self.asks.with(mode);
        is_known || holder.is_some()
    }

    /// The tally of this hash, an empty one where nobody asked.
    fn tally(&self, hash: u64) -> Tally
        ensures { result.count ≡ tallied self.now hash }
    {
        match self.tallies.get(&hash) {
            Some(tally) => *tally,
            None => Tally {
                count: Count::none(),
                last: 0,
                last_exclusive: 0,
            },
        }
    }

    fn put(&mut self, hash: u64, tally: Tally)
        requires { 0 < spare self.old.tallies }
        ensures tallies { (q : ℕ) → tallied self.new q ≡ cond (nat_eq hash q) tally.count (tallied self.old q) }
        ensures alls { self.new.alls ≡ self.old.alls }
        ensures asks { self.new.asks ≡ self.old.asks }
        ensures spare { spare self.old.tallies ≤ spare self.new.tallies + 1 }
    {
        match self.tallies.insert(hash, tally) {
            Ok(_) => {}
            Err(_) => unreachable!(),
        }
    }

    /// Counts no longer what a call asked for.
    pub(crate) fn leave(&mut self, keys: &Keys)
        ensures counts { (bs : List Ask) → Counts self.old (asks keys.now ++ bs) → Counts self.new bs }
        ensures spare { spare self.old.tallies ≤ spare self.new.tallies }
    {
        match keys {
            Keys::All(mode) => {
                self.alls = self.alls.without(*mode);
                self.asks = self.asks.without(*mode);
            }
            Keys::Some(modes) => self.leave_keys(modes.as_slice()),
        }
    }

    fn leave_keys(&mut self, modes: &[(Bin, Mode)])
        ensures counts { (bs : List Ask) → Counts self.old (asks_for modes.now ++ bs) → Counts self.new bs }
        ensures spare { spare self.old.tallies ≤ spare self.new.tallies }
    {
        'asks: for (key, mode) in modes {
            self.leave_key(key, *mode);
        }
    }

    fn leave_key(&mut self, key: &Bin, mode: Mode)
        ensures counts { (bs : List Ask) → Counts self.old (for_key key.now mode ∷ bs) → Counts self.new bs }
        ensures spare { spare self.old.tallies ≤ spare self.new.tallies }
    {
        let hash = fnv64(key.as_slice());
        if self.lower(hash, mode) {
            let _none = self.tallies.remove(&hash);
        }
        self.asks = self.asks.without(mode);
    }

    /// Counts an ask less for this hash, and tells whether none is left.
    fn lower(&mut self, hash: u64, mode: Mode) -> bool
        ensures tallies { (q : ℕ) → tallied self.new q ≡ cond (nat_eq hash q) (lowered mode (tallied self.old hash)) (tallied self.old q) }
        ensures none { IsTrue result → (tallied self.new hash).any ≡ 0 }
        ensures alls { self.new.alls ≡ self.old.alls }
        ensures asks { self.new.asks ≡ self.old.asks }
        ensures spare { spare self.new.tallies ≡ spare self.old.tallies }
    {
        match self.tallies.get_mut(&hash) {
            Some(tally) => {
                tally.count = tally.count.without(mode);
                tally.count.against(Mode::Exclusive) == 0
            }
            None => false,
        }
    }
}
