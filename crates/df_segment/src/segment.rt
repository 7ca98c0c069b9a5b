//! A segment: 56 regular buckets, and stash buckets after them.
//!
//! A key stands in its home bucket, in the next one, or in a stash bucket. A home bucket that has ever sent a key to
//! the stash is flagged, so a miss at another home looks at two buckets alone. The flag stays when such a key goes,
//! and is handed to both halves of a split: it says only where a look is needed.

ghost use Rattle.std.specs.Prelude.{◌≡◌, ◌+◌, ◌-◌, All, map, vec_capacity, ◌<◌, ◌≤◌, [], ◌∷◌, ◌++◌, replicate, IfSome, IfNone, IfOk, IfErr, OnOk, OnErr, true, false, length, slice_index_or, slice_set, vec_len};
ghost use Rattle.std.specs.Borrow.{sem};
ghost use Rattle.df_model.specs.Hash.{fnv64};
ghost use Rattle.df_segment.specs.Entries.{Slot, tag_of, found, has_key, shown, slot_of, entry_of};
ghost use Rattle.df_segment.specs.Buckets.{staged_only, stay_bucket, go_bucket, stay_half, go_half, bucket_at, put_bucket, marked, added, without, showing, home_of, after, entries_of, IsAt, Stands, IsParting, IsPartings, IsRoom, IsFirst, IsFull, Edits, IsOnce, SpillsMore};

use crate::bucket::{Bucket, Parting};
use crate::entry::Entry;
use df_model::{Bin, NoMemory};
use std::alloc::Global;
use std::marker::Model;

/// How many buckets are some key's home.
const REGULAR: usize = 56;

/// How many buckets a segment has at first.
const BUCKETS: usize = 60;

/// Where an entry stands in a segment. A removal in that bucket, and a split, may move it.
#[derive(Clone, Copy)]
pub struct Place {
    pub bucket: usize,
    pub slot: usize,
}

/// Buckets of up to 14 entries.
#[derive(Drop)]
pub struct Segment<V> {
    depth: u32,
    spilled: [bool; 56],
    buckets: Vec<Bucket<V>>,
}

impl<V> Model for Segment<V> {
    ghost use Rattle.df_segment.specs.Buckets.{Segment as Held, IsSound};

    ghost Value = { Held V };

    ghost view = { λ s. record { depth = s.depth; buckets = s.buckets.items } };

    ghost invariant = { λ s. IsSound s.spilled s.buckets.items };
}

impl<V: Drop> Segment<V> {
    /// No entries.
    pub fn new(alloc: Global, depth: u32, version: u64) -> Result<Segment<V>, NoMemory>
        ensures { IfOk result (λ s. s ≡ record { depth = depth; buckets = replicate 60 (record { version = version; entries = [] }) }) }
    {
        let buckets = empty_buckets(alloc, BUCKETS, version)?;
        Ok(Segment {
            depth,
            spilled: [false; 56],
            buckets,
        })
    }

    /// One more stash bucket.
    pub fn add_stash(&mut self, alloc: Global, version: u64) -> Result<(), NoMemory>
        ensures ok { OnOk result (self.new ≡ record self.old { buckets = self.old.buckets ++ record { version = version; entries = [] } ∷ [] }) }
        ensures err { OnErr result (self.new ≡ self.old) }
    {
        self.buckets.push(Bucket::new(alloc, version))?;
        Ok(())
    }
}

impl<V: Drop> Segment<V> {
    /// Moves the entries whose next bit of the hash is 1 to a segment of their own. All memory is taken first.
    pub fn split(&mut self, alloc: Global) -> Result<Segment<V>, NoMemory>
        requires { self.old.depth < 64 }
        ensures stays { OnOk result (self.new ≡ stay_half (63 - self.old.depth) self.old) }
        ensures goes { IfOk result (λ half. half ≡ go_half (63 - self.old.depth) self.old) }
        ensures err { OnErr result (self.new ≡ self.old) }
    {
        let bit = 63 - self.depth;
        let partings = partings_of(alloc, self.buckets.as_slice(), bit)?;
        let halves = Vec::with_capacity(alloc, self.buckets.len())?;
        let halves = part_all(&mut self.buckets, bit, partings, halves);
        self.depth += 1;
        let spilled = self.spilled;
        Ok(Segment {
            depth: self.depth,
            spilled,
            buckets: halves,
        })
    }
}

impl<V: Drop> Segment<V> {
    /// Takes all visible entries out of a bucket; what is staged stays. Takes no memory.
    pub fn clear(&mut self, b: usize)
        requires { b < length self.old.buckets }
        ensures { self.new ≡ put_bucket self.old b (staged_only (bucket_at self.old.buckets b)) }
    {
        clear_in(&mut self.buckets, b);
    }
}

fn clear_in<V: Drop>(buckets: &mut Vec<Bucket<V>>, b: usize)
    requires { b < vec_len buckets.old }
    ensures { buckets.new.items ≡ slice_set buckets.old.items b (staged_only (bucket_at buckets.old.items b)) }
{
    let bucket = &mut buckets[b];
    bucket.clear();
}

/// What goes of each bucket, and memory for it.
fn partings_of<V: Drop>(
    alloc: Global,
    buckets: &[Bucket<V>],
    bit: u32,
) -> Result<Vec<Parting<V>>, NoMemory>
    requires { bit < 64 }
    ensures { IfOk result (λ ps. IsPartings bit buckets.now ps.items) }
{
    let mut partings = Vec::with_capacity(alloc, buckets.len())?;
    'buckets: for b in 0..buckets.len() {
        let parting = parting_at(alloc, buckets, b, bit)?;
        partings.push_reserved(parting);
    }
    Ok(partings)
}

fn parting_at<V: Drop>(
    alloc: Global,
    buckets: &[Bucket<V>],
    b: usize,
    bit: u32,
) -> Result<Parting<V>, NoMemory>
    requires within { b < length buckets.now }
    requires bit { bit < 64 }
    ensures fits { IfOk result (λ p. IsParting bit (bucket_at buckets.now b).entries p.going (vec_capacity p.room)) }
    ensures empty { IfOk result (λ p. p.room.items ≡ []) }
    ensures bit { IfOk result (λ p. p.bit ≡ bit) }
{
    buckets[b].parting(alloc, bit)
}

/// Parts each bucket: what stays stands in its place, and what goes is answered. Takes no memory.
fn part_all<V: Drop>(
    buckets: &mut Vec<Bucket<V>>,
    bit: u32,
    partings: Vec<Parting<V>>,
    halves: Vec<Bucket<V>>,
) -> Vec<Bucket<V>>
    requires partings { IsPartings bit buckets.old.items partings.items }
    requires empty { halves.items ≡ [] }
    requires room { vec_len buckets.old ≤ vec_capacity halves }
    ensures stays { buckets.new.items ≡ map (stay_bucket bit) buckets.old.items }
    ensures goes { result.items ≡ map (go_bucket bit) buckets.old.items }
{
    let mut halves = halves;
    'buckets: for parting in partings {
        let half = part_in(buckets, halves.len(), parting);
        halves.push_reserved(half);
    }
    halves
}

/// Parts one bucket.
fn part_in<V: Drop>(buckets: &mut Vec<Bucket<V>>, b: usize, parting: Parting<V>) -> Bucket<V>
    requires within { b < vec_len buckets.old }
    requires fits { IsParting parting.bit (bucket_at buckets.old.items b).entries parting.going (vec_capacity parting.room) }
    requires empty { parting.room.items ≡ [] }
    ensures stay { buckets.new.items ≡ slice_set buckets.old.items b (stay_bucket parting.bit (bucket_at buckets.old.items b)) }
    ensures go { result ≡ go_bucket parting.bit (bucket_at buckets.old.items b) }
{
    let bucket = &mut buckets[b];
    bucket.part(parting)
}

/// Empty buckets.
fn empty_buckets<V: Drop>(
    alloc: Global,
    count: usize,
    version: u64,
) -> Result<Vec<Bucket<V>>, NoMemory>
    ensures { IfOk result (λ buckets. buckets.items ≡ replicate count (record { version = version; entries = [] })) }
{
    let mut buckets = Vec::with_capacity(alloc, count)?;
    'buckets: for _ in 0..count {
        buckets.push_reserved(Bucket::new(alloc, version));
    }
    Ok(buckets)
}

impl<V> Segment<V> {
    ghost use Rattle.df_segment.specs.Lends.{lends_at};

    /// The value at a place, for writing.
    pub fn at_mut(&mut self, p: Place) -> &mut V
        requires bucket { p.bucket < length self.old.buckets }
        requires slot { p.slot < length (bucket_at self.old.buckets p.bucket).entries }
        ensures* lends { sem 𝓛 (lends_at V.row self.entry p result) }
        ensures value { (d : Slot V) → (slice_index_or (bucket_at self.old.buckets p.bucket).entries p.slot d).value ≡ result.now }
    {
        let bucket = &mut self.buckets[p.bucket];
        bucket.value_mut(p.slot)
    }
}

impl<V> Segment<V> {
    pub fn depth(&self) -> u32
        ensures { result ≡ self.now.depth }
    {
        self.depth
    }

    pub fn buckets(&self) -> usize
        ensures value { result ≡ length self.now.buckets }
        ensures enough { 60 ≤ result }
    {
        self.buckets.len()
    }

    pub fn bucket(&self, b: usize) -> &Bucket<V>
        requires { b < length self.now.buckets }
        ensures { result.now ≡ bucket_at self.now.buckets b }
    {
        bucket_of(self.buckets.as_slice(), b)
    }

    /// Each key stands once at most.
    pub fn once(&self)
        ensures { IsOnce self.now }
    {
        let _ = &self.buckets;
    }

    /// The place of the key, visible or staged. Looks at its home bucket and the next one, and at the stash only
    /// where that home has spilled.
    pub fn find(&self, hash: u64, key: &[u8]) -> Option<Place>
        requires { hash ≡ fnv64 key.now }
        ensures some { IfSome result (λ p. Stands self.now key.now p) }
        ensures none { IfNone result (found key.now (entries_of self.now) ≡ []) }
    {
        let tag = (hash % 256) as u8;
        let home = home_of(hash);
        let buckets = self.buckets.as_slice();
        if let Some(slot) = find_in(buckets, home, tag, key) {
            return Some(Place { bucket: home, slot });
        }
        let next = next_of(home);
        if let Some(slot) = find_in(buckets, next, tag, key) {
            return Some(Place { bucket: next, slot });
        }
        if self.spilled[home] {
            'stash: for bucket in REGULAR..buckets.len() {
                if let Some(slot) = find_in(buckets, bucket, tag, key) {
                    return Some(Place { bucket, slot });
                }
            }
        }
        None
    }

    /// The first bucket of home, next and the stash that has room.
    pub fn room(&self, hash: u64) -> Option<usize>
        ensures some { IfSome result (λ b. IsFirst self.now hash b) }
        ensures none { IfNone result (IsFull self.now hash) }
    {
        let home = home_of(hash);
        let buckets = self.buckets.as_slice();
        if has_room(buckets, home) {
            return Some(home);
        }
        let next = next_of(home);
        if has_room(buckets, next) {
            return Some(next);
        }
        'stash: for bucket in REGULAR..buckets.len() {
            if has_room(buckets, bucket) {
                return Some(bucket);
            }
        }
        None
    }

    /// Stages a key that isn't there, in the first of home, next and the stash buckets that has room. Err says that
    /// none has, or that memory is short, and hands the entry back.
    pub fn stage(&mut self, hash: u64, key: Bin, value: V) -> Result<Place, Entry<V>>
        requires hash { hash ≡ fnv64 key }
        requires absent { found key (entries_of self.old) ≡ [] }
        ensures first { IfOk result (λ p. IsFirst self.old hash p.bucket) }
        ensures stands { IfOk result (λ p. Stands self.new key p) }
        ensures ok { IfOk result (λ p. Edits self.old self.new p.bucket [] (record { key = key; value = value; staged = true } ∷ [])) }
        ensures err { OnErr result (self.new ≡ self.old) }
        ensures back { IfErr result (λ back. back ≡ record { key = key; value = value }) }
    {
        match self.room(hash) {
            Some(b) => self.stage_at(hash, b, key, value),
            None => Err(Entry { key, value }),
        }
    }

    /// Puts a staged entry into a bucket with room. Takes memory.
    pub fn stage_at(&mut self, hash: u64, b: usize, key: Bin, value: V) -> Result<Place, Entry<V>>
        requires hash { hash ≡ fnv64 key }
        requires room { IsRoom self.old hash b }
        requires absent { found key (entries_of self.old) ≡ [] }
        ensures place { IfOk result (λ p. p.bucket ≡ b) }
        ensures stands { IfOk result (λ p. Stands self.new key p) }
        ensures ok { OnOk result (Edits self.old self.new b [] (record { key = key; value = value; staged = true } ∷ [])) }
        ensures err { OnErr result (self.new ≡ self.old) }
        ensures back { IfErr result (λ back. back ≡ record { key = key; value = value }) }
    {
        let entry = Entry { key, value };
        let home = home_of(hash);
        let slot = push_in(&mut self.buckets, b, (hash % 256) as u8, entry)?;
        note_spill(&mut self.spilled, b, home);
        Ok(Place { bucket: b, slot })
    }

    /// Takes an entry out. Takes no memory.
    pub fn remove(&mut self, p: Place) -> Entry<V>
        requires bucket { p.bucket < length self.old.buckets }
        requires slot { p.slot < length (bucket_at self.old.buckets p.bucket).entries }
        ensures value { (d : Slot V) → result ≡ entry_of (slice_index_or (bucket_at self.old.buckets p.bucket).entries p.slot d) }
        ensures rest { (e : Slot V) → e ≡ slice_index_or (bucket_at self.old.buckets p.bucket).entries p.slot e → Edits self.old self.new p.bucket (e ∷ []) [] }
    {
        remove_in(&mut self.buckets, p)
    }

    /// Makes an entry visible. Takes no memory.
    pub fn apply(&mut self, p: Place)
        requires bucket { p.bucket < length self.old.buckets }
        requires slot { p.slot < length (bucket_at self.old.buckets p.bucket).entries }
        ensures { (e : Slot V) → e ≡ slice_index_or (bucket_at self.old.buckets p.bucket).entries p.slot e → Edits self.old self.new p.bucket (e ∷ []) (shown e ∷ []) }
    {
        show_in(&mut self.buckets, p);
    }

    /// Gives a bucket this version.
    pub fn mark(&mut self, b: usize, version: u64)
        requires { b < length self.old.buckets }
        ensures { self.new ≡ put_bucket self.old b (marked version (bucket_at self.old.buckets b)) }
    {
        mark_in(&mut self.buckets, b, version);
    }
}

/// The home of keys of this hash.
fn home_of(hash: u64) -> usize
    ensures value { result ≡ home_of hash }
    ensures within { result < 56 }
{
    (hash / 256 % 56) as usize
}

/// The bucket after a home bucket.
fn next_of(home: usize) -> usize
    requires { home < 56 }
    ensures value { result ≡ after home }
    ensures within { result < 56 }
{
    if home == REGULAR - 1 { 0 } else { home + 1 }
}

fn bucket_of<V>(buckets: &[Bucket<V>], b: usize) -> &Bucket<V>
    requires { b < length buckets.now }
    ensures { result.now ≡ bucket_at buckets.now b }
{
    &buckets[b]
}

fn find_in<V>(buckets: &[Bucket<V>], b: usize, tag: u8, key: &[u8]) -> Option<usize>
    requires within { b < length buckets.now }
    requires tag { tag ≡ tag_of key.now }
    ensures some { IfSome result (λ i. IsAt (bucket_at buckets.now b).entries i key.now) }
    ensures none { IfNone result (found key.now (bucket_at buckets.now b).entries ≡ []) }
{
    buckets[b].find(tag, key)
}

fn has_room<V>(buckets: &[Bucket<V>], b: usize) -> bool
    requires within { b < length buckets.now }
    ensures free { result ≡ true → length (bucket_at buckets.now b).entries < 14 }
    ensures full { result ≡ false → 14 ≤ length (bucket_at buckets.now b).entries }
{
    buckets[b].has_room()
}

/// Flags the home of a key that was put into a stash bucket.
fn note_spill(spilled: &mut [bool; 56], b: usize, home: usize)
    requires { home < 56 }
    ensures more { SpillsMore spilled.old spilled.new }
    ensures noted { 56 ≤ b → slice_index_or spilled.new home false ≡ true }
{
    if b >= REGULAR {
        spilled[home] = true;
    }
}

/// Puts an entry into a bucket, and answers its place there.
fn push_in<V>(
    buckets: &mut Vec<Bucket<V>>,
    b: usize,
    tag: u8,
    entry: Entry<V>,
) -> Result<usize, Entry<V>>
    requires within { b < vec_len buckets.old }
    requires free { length (bucket_at buckets.old.items b).entries < 14 }
    requires tag { tag ≡ tag_of entry.key }
    ensures slot { IfOk result (λ i. i ≡ length (bucket_at buckets.old.items b).entries) }
    ensures ok { OnOk result (buckets.new.items ≡ slice_set buckets.old.items b (added (slot_of true entry) (bucket_at buckets.old.items b))) }
    ensures err { OnErr result (buckets.new.items ≡ buckets.old.items) }
    ensures back { IfErr result (λ back. back ≡ entry) }
{
    let bucket = &mut buckets[b];
    let slot = bucket.len();
    bucket.push(tag, true, entry)?;
    Ok(slot)
}

fn remove_in<V>(buckets: &mut Vec<Bucket<V>>, p: Place) -> Entry<V>
    requires bucket { p.bucket < vec_len buckets.old }
    requires slot { p.slot < length (bucket_at buckets.old.items p.bucket).entries }
    ensures value { (d : Slot V) → result ≡ entry_of (slice_index_or (bucket_at buckets.old.items p.bucket).entries p.slot d) }
    ensures rest { buckets.new.items ≡ slice_set buckets.old.items p.bucket (without p.slot (bucket_at buckets.old.items p.bucket)) }
{
    let bucket = &mut buckets[p.bucket];
    bucket.remove(p.slot)
}

fn show_in<V>(buckets: &mut Vec<Bucket<V>>, p: Place)
    requires bucket { p.bucket < vec_len buckets.old }
    requires slot { p.slot < length (bucket_at buckets.old.items p.bucket).entries }
    ensures { buckets.new.items ≡ slice_set buckets.old.items p.bucket (showing p.slot (bucket_at buckets.old.items p.bucket)) }
{
    let bucket = &mut buckets[p.bucket];
    bucket.show(p.slot);
}

fn mark_in<V>(buckets: &mut Vec<Bucket<V>>, b: usize, version: u64)
    requires { b < vec_len buckets.old }
    ensures { buckets.new.items ≡ slice_set buckets.old.items b (marked version (bucket_at buckets.old.items b)) }
{
    let bucket = &mut buckets[b];
    bucket.mark(version);
}
