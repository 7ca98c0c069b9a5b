//! The calls by key, for whoever has no hash and no spot at hand.

ghost use Rattle.std.specs.Prelude.{◌≡◌, ◌<◌, ℕ, List, [], ◌∷◌, Option, None, IfSome, IfNone, IfOk, IfErr, OnSome, OnOk, OnErr, true, false, length};
ghost use Rattle.std.specs.Option.{option_copied_mut};
ghost use Rattle.df_model.specs.Hash.{fnv64};
ghost use Rattle.df_segment.specs.Entries.{Slot, found, shown, slot_of, entry_of};
ghost use Rattle.df_dashtable.specs.Visible.{under};
ghost use Rattle.df_dashtable.specs.Tables.{entries, older, segment_at, slot_at, Same, Puts, StandsAt, HasAt, IsStaged, IsFirstOf, IsNewer, Sends, shown_value};

use crate::hook::Hook;
use crate::table::{DashTable, Spot};
use df_model::{Bin, NoMemory};
use df_segment::Entry;
use df_text::fnv64;
use std::alloc::Global;

impl<V: Drop> DashTable<V> {
    /// Hands the bucket of a key to the hook, if it is older, and answers where the key stands, visible or staged.
    pub fn touch<H: Hook<V>>(&mut self, key: &[u8], hook: &mut H) -> Result<Option<Spot>, NoMemory>
        ensures none { IfOk result (λ spot. IfNone spot (found key.now (entries self.old) ≡ [])) }
        ensures stands { IfOk result (λ spot. IfSome spot (λ at. StandsAt self.new key.now at)) }
        ensures newer { IfOk result (λ spot. IfSome spot (λ at. IsNewer self.new at.segment at.place.bucket)) }
        ensures touched { OnOk result (under key.now (older self.new) ≡ []) }
        ensures same { Same self.old self.new }
        ensures version { self.new.version ≡ self.old.version }
        ensures takes { H.takes hook.new ≡ H.takes hook.old }
        ensures sends { Sends (H.takes hook.old) (H.holds hook.old) (H.holds hook.new) self.old self.new }
    {
        self.touch_hashed(fnv64(key), key, hook)
    }

    /// Stages a key that isn't there, and answers where it stands. Err is want of memory, and hands both back: then
    /// nothing visible or staged has changed.
    pub fn stage<H: Hook<V>>(
        &mut self,
        alloc: Global,
        key: Bin,
        value: V,
        hook: &mut H,
    ) -> Result<Spot, (Bin, V)>
        requires { found key (entries self.old) ≡ [] }
        ensures ok { OnOk result (Puts key (record { key = key; value = value; staged = true } ∷ []) self.old self.new) }
        ensures stands { IfOk result (λ at. StandsAt self.new key at) }
        ensures first { IfOk result (λ at. IsFirstOf (segment_at self.new.segments at.segment) (fnv64 key) at.place.bucket) }
        ensures newer { IfOk result (λ at. IsNewer self.new at.segment at.place.bucket) }
        ensures err { OnErr result (Same self.old self.new) }
        ensures back { IfErr result (λ back. (back.0 ≡ key) × (back.1 ≡ value)) }
        ensures version { self.new.version ≡ self.old.version }
        ensures takes { H.takes hook.new ≡ H.takes hook.old }
        ensures sends { Sends (H.takes hook.old) (H.holds hook.old) (H.holds hook.new) self.old self.new }
    {
        let hash = fnv64(key.as_slice());
        self.stage_hashed(alloc, hash, key, value, hook)
    }

    /// Makes a staged key visible. Takes no memory.
    pub fn apply(&mut self, key: &[u8])
        requires { IsStaged (found key.now (entries self.old)) }
        ensures puts { (e : Slot V) → found key.now (entries self.old) ≡ e ∷ [] → Puts key.now (shown e ∷ []) self.old self.new }
        ensures version { self.new.version ≡ self.old.version }
        ensures older { older self.new ≡ older self.old }
    {
        let at = self.staged_spot(key);
        self.apply_at(at);
    }

    /// Takes a staged key out. Takes no memory.
    pub fn unstage(&mut self, key: &[u8]) -> Entry<V>
        requires { IsStaged (found key.now (entries self.old)) }
        ensures was { (e : Slot V) → found key.now (entries self.old) ≡ e ∷ [] → result ≡ entry_of e }
        ensures puts { Puts key.now [] self.old self.new }
        ensures version { self.new.version ≡ self.old.version }
        ensures older { older self.new ≡ older self.old }
    {
        let at = self.staged_spot(key);
        self.unstage_at(at)
    }

    /// Takes a key out, if it is visible. Its bucket isn't older: `touch` sees to that. Takes no memory.
    pub fn remove(&mut self, key: &[u8]) -> Option<Entry<V>>
        requires { under key.now (older self.old) ≡ [] }
        ensures was { IfSome result (λ e. found key.now (entries self.old) ≡ slot_of false e ∷ []) }
        ensures puts { OnSome result (Puts key.now [] self.old self.new) }
        ensures none { IfNone result ((self.new ≡ self.old) × (shown_value (found key.now (entries self.old)) ≡ None)) }
        ensures version { self.new.version ≡ self.old.version }
        ensures older { older self.new ≡ older self.old }
    {
        let at = self.find(fnv64(key), key)?;
        if self.is_staged_at(at) {
            return None;
        }
        Some(self.remove_at(at))
    }

    /// Where a staged key stands.
    fn staged_spot(&self, key: &[u8]) -> Spot
        requires { IsStaged (found key.now (entries self.now)) }
        ensures stands { StandsAt self.now key.now result }
        ensures has { HasAt self.now key.now result }
        ensures staged { (d : Slot V) → (slot_at self.now result d).staged ≡ true }
    {
        match self.find(fnv64(key), key) {
            Some(at) => at,
            None => unreachable!(),
        }
    }
}

impl<V> DashTable<V> {
    ghost use Rattle.std.specs.Borrow.{sem};
    ghost use Rattle.df_dashtable.specs.Lends.{lends_key};

    /// What a key holds, for writing, if it is visible. Its bucket isn't older: `touch` sees to that.
    pub fn get_mut(&mut self, key: &[u8]) -> Option<&mut V>
        requires { under key.now (older self.old) ≡ [] }
        ensures* lends { sem 𝓛 (lends_key V.row self.entry key.now result) }
        ensures value { option_copied_mut result ≡ shown_value (found key.now (entries self.old)) }
    {
        let at = self.find(fnv64(key), key)?;
        if self.is_staged_at(at) {
            return None;
        }
        Some(self.at_mut(at))
    }
}
