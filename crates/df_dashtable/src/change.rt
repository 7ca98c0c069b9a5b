//! One key's entry is staged, made visible, taken out, or lent for writing.

ghost use Rattle.std.specs.Prelude.{◌≡◌, ◌<◌, ℕ, List, [], ◌∷◌, vec_len, IfOk, IfErr, OnOk, OnErr, true, false, length};
ghost use Rattle.std.specs.Borrow.{sem};
ghost use Rattle.df_model.specs.Hash.{fnv64};
ghost use Rattle.df_segment.specs.Entries.{Slot, found, shown, entry_of};
ghost use Rattle.df_segment.specs.Buckets.{Stands, IsRoom, IsFirst, entries_of};
ghost use Rattle.df_dashtable.specs.Lends.{lends_at};
ghost use Rattle.df_dashtable.specs.Tables.{entries, older, segment_of, segment_at, Same, Puts, IsSpot, IsSpotIn, slot_in, slot_at, StandsAt, IsFirstOf, IsNewer, Sends, EditsIn};

use crate::hook::Hook;
use crate::table::{DashTable, Spot};
use df_model::{Bin, NoMemory};
use df_segment::{Entry, Place, Segment};
use std::alloc::Global;

impl<V: Drop> DashTable<V> {
    /// Stages a key that isn't there, and answers where it stands. Err is want of memory, and hands both back: then
    /// nothing visible or staged has changed.
    pub fn stage_hashed<H: Hook<V>>(
        &mut self,
        alloc: Global,
        hash: u64,
        key: Bin,
        value: V,
        hook: &mut H,
    ) -> Result<Spot, (Bin, V)>
        requires hash { hash ≡ fnv64 key }
        requires absent { found key (entries self.old) ≡ [] }
        ensures ok { OnOk result (Puts key (record { key = key; value = value; staged = true } ∷ []) self.old self.new) }
        ensures stands { IfOk result (λ at. StandsAt self.new key at) }
        ensures first { IfOk result (λ at. IsFirstOf (segment_at self.new.segments at.segment) hash at.place.bucket) }
        ensures newer { IfOk result (λ at. IsNewer self.new at.segment at.place.bucket) }
        ensures err { OnErr result (Same self.old self.new) }
        ensures back { IfErr result (λ back. (back.0 ≡ key) × (back.1 ≡ value)) }
        ensures version { self.new.version ≡ self.old.version }
        ensures takes { H.takes hook.new ≡ H.takes hook.old }
        ensures sends { Sends (H.takes hook.old) (H.holds hook.old) (H.holds hook.new) self.old self.new }
    {
        match self.seat(alloc, hash, hook) {
            Ok((s, b)) => match self.stage_at(s, b, hash, key, value) {
                Ok(at) => Ok(at),
                Err(entry) => Err((entry.key, entry.value)),
            },
            Err(_) => Err((key, value)),
        }
    }

    /// Puts a staged entry into a bucket that has room and isn't older. Takes memory.
    fn stage_at(
        &mut self,
        s: usize,
        b: usize,
        hash: u64,
        key: Bin,
        value: V,
    ) -> Result<Spot, Entry<V>>
        requires own { s ≡ segment_of self.old hash }
        requires hash { hash ≡ fnv64 key }
        requires room { IsFirst (segment_at self.old.segments s) hash b }
        requires newer { IsNewer self.old s b }
        requires absent { found key (entries self.old) ≡ [] }
        ensures first { IfOk result (λ at. IsFirstOf (segment_at self.new.segments at.segment) hash at.place.bucket) }
        ensures newer { IfOk result (λ at. IsNewer self.new at.segment at.place.bucket) }
        ensures stands { IfOk result (λ at. StandsAt self.new key at) }
        ensures ok { OnOk result (Puts key (record { key = key; value = value; staged = true } ∷ []) self.old self.new) }
        ensures version { self.new.version ≡ self.old.version }
        ensures older { older self.new ≡ older self.old }
        ensures err { OnErr result (self.new ≡ self.old) }
        ensures back { IfErr result (λ back. back ≡ record { key = key; value = value }) }
    {
        if self.len + self.staged == usize::MAX {
            return Err(Entry { key, value });
        }
        let place = stage_in(&mut self.segments, s, b, hash, key, value)?;
        self.staged += 1;
        Ok(Spot { segment: s, place })
    }

    /// Takes a visible entry out of a bucket that isn't older. Takes no memory.
    pub fn remove_at(&mut self, at: Spot) -> Entry<V>
        requires spot { IsSpot self.old at }
        requires visible { (d : Slot V) → (slot_at self.old at d).staged ≡ false }
        requires newer { IsNewer self.old at.segment at.place.bucket }
        ensures value { (d : Slot V) → result ≡ entry_of (slot_at self.old at d) }
        ensures was { (d : Slot V) → found result.key (entries self.old) ≡ slot_at self.old at d ∷ [] }
        ensures puts { Puts result.key [] self.old self.new }
        ensures version { self.new.version ≡ self.old.version }
        ensures older { older self.new ≡ older self.old }
    {
        let entry = remove_in(&mut self.segments, at);
        self.len -= 1;
        entry
    }

    /// Takes a staged entry out. Takes no memory.
    pub fn unstage_at(&mut self, at: Spot) -> Entry<V>
        requires spot { IsSpot self.old at }
        requires staged { (d : Slot V) → (slot_at self.old at d).staged ≡ true }
        ensures value { (d : Slot V) → result ≡ entry_of (slot_at self.old at d) }
        ensures was { (d : Slot V) → found result.key (entries self.old) ≡ slot_at self.old at d ∷ [] }
        ensures puts { Puts result.key [] self.old self.new }
        ensures version { self.new.version ≡ self.old.version }
        ensures older { older self.new ≡ older self.old }
    {
        self.fresh();
        let entry = remove_in(&mut self.segments, at);
        self.staged -= 1;
        entry
    }
}

impl<V> DashTable<V> {
    /// Makes a staged entry visible. Takes no memory.
    pub fn apply_at(&mut self, at: Spot)
        requires spot { IsSpot self.old at }
        requires staged { (d : Slot V) → (slot_at self.old at d).staged ≡ true }
        ensures puts { (d : Slot V) → Puts (slot_at self.old at d).key (shown (slot_at self.old at d) ∷ []) self.old self.new }
        ensures version { self.new.version ≡ self.old.version }
        ensures older { older self.new ≡ older self.old }
    {
        self.fresh();
        apply_in(&mut self.segments, at);
        self.staged -= 1;
        self.len += 1;
    }

    /// The value at a spot of a bucket that isn't older, for writing.
    pub fn at_mut(&mut self, at: Spot) -> &mut V
        requires spot { IsSpot self.old at }
        requires newer { IsNewer self.old at.segment at.place.bucket }
        ensures* lends { sem 𝓛 (lends_at V.row self.entry at result) }
        ensures value { (d : Slot V) → (slot_at self.old at d).value ≡ result.now }
    {
        let segment = &mut self.segments[at.segment];
        segment.at_mut(at.place)
    }
}

fn stage_in<V: Drop>(
    segments: &mut Vec<Segment<V>>,
    s: usize,
    b: usize,
    hash: u64,
    key: Bin,
    value: V,
) -> Result<Place, Entry<V>>
    requires segment { s < vec_len segments.old }
    requires hash { hash ≡ fnv64 key }
    requires room { IsRoom (segment_at segments.old.items s) hash b }
    requires absent { found key (entries_of (segment_at segments.old.items s)) ≡ [] }
    ensures place { IfOk result (λ p. p.bucket ≡ b) }
    ensures stands { IfOk result (λ p. Stands (segment_at segments.new.items s) key p) }
    ensures ok { OnOk result (EditsIn segments.old.items segments.new.items s b [] (record { key = key; value = value; staged = true } ∷ [])) }
    ensures err { OnErr result (segments.new.items ≡ segments.old.items) }
    ensures back { IfErr result (λ back. back ≡ record { key = key; value = value }) }
{
    let segment = &mut segments[s];
    let place = segment.stage_at(hash, b, key, value)?;
    segment.once();
    Ok(place)
}

fn remove_in<V: Drop>(segments: &mut Vec<Segment<V>>, at: Spot) -> Entry<V>
    requires { IsSpotIn segments.old.items at }
    ensures value { (d : Slot V) → result ≡ entry_of (slot_in segments.old.items at d) }
    ensures rest { (e : Slot V) → e ≡ slot_in segments.old.items at e → EditsIn segments.old.items segments.new.items at.segment at.place.bucket (e ∷ []) [] }
{
    let segment = &mut segments[at.segment];
    let entry = segment.remove(at.place);
    segment.once();
    entry
}

fn apply_in<V>(segments: &mut Vec<Segment<V>>, at: Spot)
    requires { IsSpotIn segments.old.items at }
    ensures { (e : Slot V) → e ≡ slot_in segments.old.items at e → EditsIn segments.old.items segments.new.items at.segment at.place.bucket (e ∷ []) (shown e ∷ []) }
{
    let segment = &mut segments[at.segment];
    segment.apply(at.place);
    segment.once();
}
