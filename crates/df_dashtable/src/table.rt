//! The table: a directory of places, each of which names a segment.

ghost use Rattle.std.specs.Prelude.{◌≡◌, eqb, ◌^◌, ◌<◌, ◌≤◌, ℕ, List, map, [], ◌∷◌, slice_index, slice_index_or, IfSome, IfNone, IfOk, length};
ghost use Rattle.std.specs.Option.{option_copied, option_to_list};
ghost use Rattle.df_model.specs.Hash.{fnv64};
ghost use Rattle.df_segment.specs.Entries.{Slot, found, entry_of};
ghost use Rattle.df_segment.specs.Buckets.{Stands, bucket_at, entries_of};
ghost use Rattle.df_dashtable.specs.Visible.{under};
ghost use Rattle.df_dashtable.specs.Tables.{entries, older, visible, segment_of, segment_at, Same, IsSpot, IsSpotIn, slot_in, slot_at, StandsAt, HasAt, IsNewer, IsFresh, shown_value, staged_in, directory_place};

use df_model::NoMemory;
use df_segment::{Bucket, Entry, Place, Segment};
use df_text::fnv64;
use std::alloc::Global;
use std::marker::Model;

/// The greatest depth of a directory.
pub(crate) const GREATEST_DEPTH: u32 = 20;

/// A table of keys with values, visible or staged.
#[derive(Drop)]
pub struct DashTable<V> {
    pub(crate) version: u64,
    pub(crate) depth: u32,
    pub(crate) greatest_depth: u32,
    pub(crate) directory: Vec<u32>,
    pub(crate) segments: Vec<Segment<V>>,
    /// How many entries are visible.
    pub(crate) len: usize,
    /// How many are staged.
    pub(crate) staged: usize,
}

impl<V> Model for DashTable<V> {
    ghost use Rattle.std.specs.Prelude.{◌≤◌};
    ghost use Rattle.df_dashtable.specs.Tables.{Table, IsTable, IsCounted};

    ghost Value = { Table V };

    ghost view = { λ t. record { version = t.version; depth = t.depth; directory = t.directory.items; segments = t.segments.items } };

    ghost invariant = { λ t. IsTable t.version t.depth t.directory.items t.segments.items × ((t.greatest_depth ≤ 20) × IsCounted t.len t.staged t.segments.items) };
}

/// Where an entry stands. A stage and a removal may move it.
#[derive(Clone, Copy)]
pub struct Spot {
    pub segment: usize,
    pub place: Place,
}

impl<V: Drop> DashTable<V> {
    /// No entries, and one segment.
    pub fn new(alloc: Global, greatest_depth: u32) -> Result<DashTable<V>, NoMemory>
        requires { greatest_depth ≤ 20 }
        ensures version { IfOk result (λ t. t.version ≡ 0) }
        ensures none { IfOk result (λ t. entries t ≡ []) }
    {
        let mut directory = Vec::with_capacity(alloc, 1)?;
        let mut segments = Vec::with_capacity(alloc, 1)?;
        let segment = Segment::new(alloc, 0, 0)?;
        directory.push_reserved(0);
        segments.push_reserved(segment);
        Ok(DashTable {
            version: 0,
            depth: 0,
            greatest_depth,
            directory,
            segments,
            len: 0,
            staged: 0,
        })
    }

    /// The version becomes a higher one, and so every bucket older. Takes no memory.
    pub fn raise(&mut self, version: u64)
        requires above { self.old.version < version }
        requires settled { staged_in (entries self.old) ≡ [] }
        ensures same { Same self.old self.new }
        ensures version { self.new.version ≡ version }
        ensures older { older self.new ≡ visible self.new }
    {
        self.version = version;
    }
}

impl<V> DashTable<V> {
    pub fn version(&self) -> u64
        ensures { result ≡ self.now.version }
    {
        self.version
    }

    /// How many keys are visible.
    pub fn len(&self) -> usize
        ensures { result ≡ length (visible self.now) }
    {
        self.len
    }

    pub fn is_empty(&self) -> bool
        ensures { result ≡ eqb (length (visible self.now)) 0 }
    {
        self.len() == 0
    }

    /// Each key has one entry at most: it is visible, or staged, or not there.
    pub fn once(&self)
        ensures once { (key : List ℕ) → length (found key (entries self.now)) ≤ 1 }
        ensures holds { (key : List ℕ) → map (λ pair. pair.1) (under key (visible self.now)) ≡ option_to_list (shown_value (found key (entries self.now))) }
    {
        let _ = &self.segments;
    }

    /// No staged entry stands in an older bucket.
    pub fn fresh(&self)
        ensures { IsFresh self.now }
    {
        let _ = &self.segments;
    }

    /// The key of an entry in a bucket that isn't older doesn't wait in an older one.
    pub(crate) fn touched(&self, at: Spot, key: &[u8])
        requires stands { StandsAt self.now key.now at }
        requires newer { IsNewer self.now at.segment at.place.bucket }
        ensures { under key.now (older self.now) ≡ [] }
    {
        let _ = &self.segments;
    }

    /// A key that isn't there doesn't wait in an older bucket.
    pub(crate) fn untouched(&self, key: &[u8])
        requires { found key.now (entries self.now) ≡ [] }
        ensures { under key.now (older self.now) ≡ [] }
    {
        let _ = &self.segments;
    }

    /// The segment of a hash.
    pub(crate) fn segment_of(&self, hash: u64) -> usize
        ensures value { result ≡ segment_of self.now hash }
        ensures within { result < length self.now.segments }
    {
        named(self.directory.as_slice(), place_in(hash, self.depth))
    }

    /// Where the key stands, visible or staged.
    pub fn find(&self, hash: u64, key: &[u8]) -> Option<Spot>
        requires { hash ≡ fnv64 key.now }
        ensures some { IfSome result (λ at. StandsAt self.now key.now at) }
        ensures has { IfSome result (λ at. HasAt self.now key.now at) }
        ensures none { IfNone result (found key.now (entries self.now) ≡ []) }
    {
        let place = place_in(hash, self.depth);
        let s = named(self.directory.as_slice(), place);
        match find_in(self.segments.as_slice(), s, hash, key) {
            Some(place) => Some(Spot { segment: s, place }),
            None => None,
        }
    }

    /// The entry at a spot, lent.
    pub fn entry_at(&self, at: Spot) -> &Entry<V>
        requires { IsSpot self.now at }
        ensures { (d : Slot V) → result.now ≡ entry_of (slot_at self.now at d) }
    {
        entry_in(self.segments.as_slice(), at)
    }

    /// Whether the entry at a spot is staged.
    pub fn is_staged_at(&self, at: Spot) -> bool
        requires { IsSpot self.now at }
        ensures { (d : Slot V) → result ≡ (slot_at self.now at d).staged }
    {
        is_staged_in(self.segments.as_slice(), at)
    }

    /// What the key holds, if it is visible. Looks at two buckets, and at the stash where that may have the key.
    pub fn get_hashed(&self, hash: u64, key: &[u8]) -> Option<&V>
        requires { hash ≡ fnv64 key.now }
        ensures { option_copied result ≡ shown_value (found key.now (entries self.now)) }
    {
        let at = self.find(hash, key)?;
        if self.is_staged_at(at) {
            return None;
        }
        Some(&self.entry_at(at).value)
    }

    /// What the key holds, if it is visible.
    pub fn get(&self, key: &[u8]) -> Option<&V>
        ensures { option_copied result ≡ shown_value (found key.now (entries self.now)) }
    {
        self.get_hashed(fnv64(key), key)
    }
}

/// The place of a hash in a directory.
fn place_in(hash: u64, depth: u32) -> usize
    requires { depth ≤ 20 }
    ensures value { result ≡ directory_place hash depth }
    ensures within { result < 2 ^ depth }
{
    if depth == 0 {
        0
    } else {
        (hash >> (64 - depth)) as usize
    }
}

/// The segment that a place names.
fn named(directory: &[u32], place: usize) -> usize
    requires { place < length directory.now }
    ensures { result ≡ slice_index directory.now place }
{
    directory[place] as usize
}

fn find_in<V>(segments: &[Segment<V>], s: usize, hash: u64, key: &[u8]) -> Option<Place>
    requires hash { hash ≡ fnv64 key.now }
    requires within { s < length segments.now }
    ensures some { IfSome result (λ p. Stands (segment_at segments.now s) key.now p) }
    ensures none { IfNone result (found key.now (entries_of (segment_at segments.now s)) ≡ []) }
{
    segments[s].find(hash, key)
}

pub(crate) fn bucket_in<V>(segments: &[Segment<V>], s: usize, b: usize) -> &Bucket<V>
    requires segment { s < length segments.now }
    requires bucket { b < length (segment_at segments.now s).buckets }
    ensures { result.now ≡ bucket_at (segment_at segments.now s).buckets b }
{
    segments[s].bucket(b)
}

fn entry_in<V>(segments: &[Segment<V>], at: Spot) -> &Entry<V>
    requires { IsSpotIn segments.now at }
    ensures { (d : Slot V) → result.now ≡ entry_of (slot_in segments.now at d) }
{
    entry_of(
        bucket_in(segments, at.segment, at.place.bucket),
        at.place.slot,
    )
}

fn entry_of<V>(bucket: &Bucket<V>, i: usize) -> &Entry<V>
    requires { i < length bucket.now.entries }
    ensures { (d : Slot V) → result.now ≡ entry_of (slice_index_or bucket.now.entries i d) }
{
    let entries = bucket.entries();
    &entries[i]
}

fn is_staged_in<V>(segments: &[Segment<V>], at: Spot) -> bool
    requires { IsSpotIn segments.now at }
    ensures { (d : Slot V) → result ≡ (slot_in segments.now at d).staged }
{
    bucket_in(segments, at.segment, at.place.bucket).is_staged(at.place.slot)
}
