//! A bucket: a version, and up to 14 entries with one byte of hash and one bit beside each.
//!
//! Entries stand without gaps, and the memory for them grows by two at a time. The bit says that an entry is staged.

ghost use Rattle.std.specs.Prelude.{◌≡◌, ◌/◌, ◌%◌, ◌^◌, eqb, ◌<◌, ◌≤◌, ◌++◌, ◌∷◌, [], IfSome, IfNone, IfOk, IfErr, OnOk, OnErr, true, false, length, map, ℕ, ◌+◌, slice_index, slice_index_or, slice_set, vec_len, vec_capacity};
ghost use Rattle.std.specs.List.{remove, filter};
ghost use Rattle.std.specs.Str.{bytes_eq};
ghost use Rattle.df_segment.specs.declared.entry.Entry.{Entry};
ghost use Rattle.df_segment.specs.Entries.{Slot, tag_of, goes, has_key, found, alter, shown, slots, slot_of, entry_of, flag_at};
ghost use Rattle.df_segment.specs.Buckets.{TagsAgree, IsAt, IsParting, stays_in, goes_in, stay_bucket, go_bucket, staged_only, marked, added, without};

use crate::entry::Entry;
use crate::flags::{has_flag, lowest, of_first, set_flag, without, without_place};
use df_model::NoMemory;
use df_text::fnv64;
use std::alloc::Global;
use std::marker::Model;
use std::simd::prelude::*;

/// How many entries a bucket has room for.
pub const BUCKET_ROOM: usize = 14;

/// How many places are added where the memory is full.
const GROWTH: usize = 2;

/// Up to 14 entries and a version.
#[derive(Drop)]
pub struct Bucket<V> {
    version: u64,
    /// Two more than there are places, so that all are compared at once.
    tags: [u8; 16],
    staged: u16,
    entries: Vec<Entry<V>>,
}

impl<V> Model for Bucket<V> {
    ghost use Rattle.df_segment.specs.Entries.{slots, flag_at};
    ghost use Rattle.df_segment.specs.Buckets.{Bucket as Held, TagsAgree};

    ghost Value = { Held V };

    ghost view = { λ b. record { version = b.version; entries = slots (flag_at b.staged) b.entries.items } };

    ghost invariant = { λ b. TagsAgree b.tags b.entries.items };
}

impl<V> Bucket<V> {
    /// An empty bucket. Takes no memory.
    pub(crate) fn new(alloc: Global, version: u64) -> Bucket<V>
        ensures { result ≡ record { version = version; entries = [] } }
    {
        Bucket {
            version,
            tags: [0; 16],
            staged: 0,
            entries: Vec::new(alloc),
        }
    }

    pub fn version(&self) -> u64
        ensures { result ≡ self.now.version }
    {
        self.version
    }

    /// The entries, visible and staged, lent.
    pub fn entries(&self) -> &[Entry<V>]
        ensures { result.now ≡ map entry_of self.now.entries }
    {
        self.entries.as_slice()
    }

    /// How many entries there are, visible and staged.
    pub fn len(&self) -> usize
        ensures { result ≡ length self.now.entries }
    {
        self.entries.len()
    }

    /// Whether an entry is staged.
    pub fn is_staged(&self, i: usize) -> bool
        requires { i < length self.now.entries }
        ensures { (d : Slot V) → result ≡ (slice_index_or self.now.entries i d).staged }
    {
        has_flag(self.staged, i)
    }

    /// The first visible entry from this place on: a walk begins at 0 and goes on behind what it was given.
    pub fn next_visible(&self, from: usize) -> Option<usize>
        ensures within { IfSome result (λ i. i < length self.now.entries) }
        ensures behind { IfSome result (λ i. from ≤ i) }
        ensures visible { IfSome result (λ i. (d : Slot V) → (slice_index_or self.now.entries i d).staged ≡ false) }
        ensures skipped { IfSome result (λ i. (k : ℕ) (d : Slot V) → from ≤ k → k < i → (slice_index_or self.now.entries k d).staged ≡ true) }
        ensures none { IfNone result ((k : ℕ) (d : Slot V) → from ≤ k → k < length self.now.entries → (slice_index_or self.now.entries k d).staged ≡ true) }
    {
        'entries: for i in from..self.len() {
            if !self.is_staged(i) {
                return Some(i);
            }
        }
        None
    }

    pub(crate) fn has_room(&self) -> bool
        ensures free { result ≡ true → length self.now.entries < 14 }
        ensures full { result ≡ false → 14 ≤ length self.now.entries }
    {
        self.len() < BUCKET_ROOM
    }

    /// The places whose tag this is.
    fn matching(&self, tag: u8) -> u64
        ensures within { (k : ℕ) → flag_at result k ≡ true → k < length self.now.entries }
        ensures near { (k : ℕ) → flag_at result k ≡ true → k < 14 }
        ensures all { (k : ℕ) (d : Slot V) → k < length self.now.entries → tag_of (slice_index_or self.now.entries k d).key ≡ tag → flag_at result k ≡ true }
    {
        of_first(same_tags(&self.tags, tag), self.entries.len())
    }

    /// Where the key stands. Compares keys of its tag alone.
    pub(crate) fn find(&self, tag: u8, key: &[u8]) -> Option<usize>
        requires { tag ≡ tag_of key.now }
        ensures some { IfSome result (λ i. IsAt self.now.entries i key.now) }
        ensures none { IfNone result (found key.now self.now.entries ≡ []) }
    {
        let mut left = self.matching(tag);
        'matches: while left != 0 {
            let i = lowest(left);
            if self.has_at(i, key) {
                return Some(i);
            }
            left = without(left, i);
        }
        None
    }

    /// Whether the entry at this place is the key's.
    fn has_at(&self, i: usize, key: &[u8]) -> bool
        requires { i < length self.now.entries }
        ensures { (d : Slot V) → result ≡ has_key key.now (slice_index_or self.now.entries i d) }
    {
        is_key(self.entries.as_slice(), i, key)
    }

    pub(crate) fn mark(&mut self, version: u64)
        ensures { self.new ≡ marked version self.old }
    {
        self.version = version;
    }

    /// Puts an entry behind the others.
    pub(crate) fn push(&mut self, tag: u8, staged: bool, entry: Entry<V>) -> Result<(), Entry<V>>
        requires free { length self.old.entries < 14 }
        requires tag { tag ≡ tag_of entry.key }
        ensures ok { OnOk result (self.new ≡ added (slot_of staged entry) self.old) }
        ensures err { OnErr result (self.new ≡ self.old) }
        ensures back { IfErr result (λ back. back ≡ entry) }
    {
        if make_room(&mut self.entries).is_err() {
            return Err(entry);
        }
        let i = self.entries.len();
        self.tags[i] = tag;
        self.staged = set_flag(self.staged, i, staged);
        self.entries.push_reserved(entry);
        Ok(())
    }

    /// Takes an entry out.
    pub(crate) fn remove(&mut self, i: usize) -> Entry<V>
        requires { i < length self.old.entries }
        ensures value { (d : Slot V) → result ≡ entry_of (slice_index_or self.old.entries i d) }
        ensures rest { self.new ≡ record self.old { entries = remove self.old.entries i } }
    {
        close_gap(&mut self.tags, i);
        self.staged = without_place(self.staged, i);
        self.entries.remove(i)
    }

    ghost use Rattle.std.specs.Borrow.{sem};
    ghost use Rattle.df_segment.specs.Lends.{lends_in_bucket};

    /// The value of an entry, for writing.
    pub(crate) fn value_mut(&mut self, i: usize) -> &mut V
        requires { i < length self.old.entries }
        ensures* lends { sem 𝓛 (lends_in_bucket V.row self.entry i result) }
        ensures value { (d : Slot V) → (slice_index_or self.old.entries i d).value ≡ result.now }
    {
        let entry = &mut self.entries[i];
        &mut entry.value
    }

    /// Makes an entry visible.
    pub(crate) fn show(&mut self, i: usize)
        requires { i < length self.old.entries }
        ensures { self.new ≡ record self.old { entries = alter shown i self.old.entries } }
    {
        self.staged = set_flag(self.staged, i, false);
    }
}

/// What of a bucket goes at a split, and memory for as much.
#[derive(Drop)]
pub(crate) struct Parting<V> {
    pub(crate) bit: u32,
    pub(crate) going: [bool; 14],
    pub(crate) room: Vec<Entry<V>>,
}

/// What goes at a split, as it comes.
#[derive(Drop)]
struct Half<V> {
    tags: [u8; 16],
    staged: u16,
    entries: Vec<Entry<V>>,
    ghost agree: { TagsAgree tags entries.items },
}

impl<V> Half<V> {
    fn new(room: Vec<Entry<V>>) -> Half<V>
        requires { room.items ≡ [] }
        ensures items { result.entries.items ≡ [] }
        ensures room { vec_capacity result.entries ≡ vec_capacity room }
    {
        Half {
            tags: [0; 16],
            staged: 0,
            entries: room,
        }
    }

    /// Takes no memory.
    fn put(&mut self, tag: u8, staged: bool, entry: Entry<V>)
        requires few { vec_len self.old.entries < 14 }
        requires room { vec_len self.old.entries < vec_capacity self.old.entries }
        requires tag { tag ≡ tag_of entry.key }
        ensures items { slots (flag_at self.new.staged) self.new.entries.items ≡ slots (flag_at self.old.staged) self.old.entries.items ++ slot_of staged entry ∷ [] }
        ensures room { vec_capacity self.new.entries ≡ vec_capacity self.old.entries }
    {
        let i = self.entries.len();
        self.tags[i] = tag;
        self.staged = set_flag(self.staged, i, staged);
        self.entries.push_reserved(entry);
    }

    fn into_bucket(self, version: u64) -> Bucket<V>
        ensures { result ≡ record { version = version; entries = slots (flag_at self.staged) self.entries.items } }
    {
        let tags = self.tags;
        Bucket {
            version,
            tags,
            staged: self.staged,
            entries: self.entries,
        }
    }
}

impl<V: Drop> Bucket<V> {
    /// What goes at a split by this bit, and memory for it.
    pub(crate) fn parting(&self, alloc: Global, bit: u32) -> Result<Parting<V>, NoMemory>
        requires { bit < 64 }
        ensures fits { IfOk result (λ p. IsParting bit self.now.entries p.going (vec_capacity p.room)) }
        ensures empty { IfOk result (λ p. p.room.items ≡ []) }
        ensures bit { IfOk result (λ p. p.bit ≡ bit) }
    {
        let (going, count) = going_of(self.entries.as_slice(), bit);
        let room = Vec::with_capacity(alloc, count)?;
        Ok(Parting { bit, going, room })
    }

    /// Takes out what goes at a split. Takes no memory.
    pub(crate) fn part(&mut self, parting: Parting<V>) -> Bucket<V>
        requires fits { IsParting parting.bit self.old.entries parting.going (vec_capacity parting.room) }
        requires empty { parting.room.items ≡ [] }
        ensures stay { self.new ≡ stay_bucket parting.bit self.old }
        ensures go { result ≡ go_bucket parting.bit self.old }
    {
        let _ = &self.version;
        let going = parting.going;
        let mut half = Half::new(parting.room);
        let mut at = 0;
        'entries: for k in 0..self.len() {
            if going[k] {
                self.hand_over(at, &mut half);
            } else {
                at += 1;
            }
        }
        self.trim();
        half.into_bucket(self.version)
    }

    /// Moves an entry with its tag and its flag.
    fn hand_over(&mut self, i: usize, half: &mut Half<V>)
        requires within { i < length self.old.entries }
        requires few { vec_len half.old.entries < 14 }
        requires room { vec_len half.old.entries < vec_capacity half.old.entries }
        ensures stay { self.new ≡ record self.old { entries = remove self.old.entries i } }
        ensures go { (d : Slot V) → slots (flag_at half.new.staged) half.new.entries.items ≡ slots (flag_at half.old.staged) half.old.entries.items ++ slice_index_or self.old.entries i d ∷ [] }
        ensures room { vec_capacity half.new.entries ≡ vec_capacity half.old.entries }
    {
        let tag = self.tags[i];
        let staged = has_flag(self.staged, i);
        let entry = self.remove(i);
        half.put(tag, staged, entry);
    }

    /// Takes out all visible entries. Takes no memory.
    pub(crate) fn clear(&mut self)
        ensures { self.new ≡ staged_only self.old }
    {
        let _ = &self.version;
        let mut at = 0;
        'entries: for k in 0..self.len() {
            if self.is_staged(at) {
                at += 1;
            } else {
                self.drop_at(at);
            }
        }
        self.trim();
    }

    fn drop_at(&mut self, i: usize)
        requires { i < length self.old.entries }
        ensures { self.new ≡ record self.old { entries = remove self.old.entries i } }
    {
        let _ = self.remove(i);
    }

    /// Gives back the memory that isn't used.
    fn trim(&mut self)
        ensures { self.new ≡ self.old }
    {
        self.entries.shrink_to_fit();
    }
}

fn is_key<V>(entries: &[Entry<V>], i: usize, key: &[u8]) -> bool
    requires { i < length entries.now }
    ensures { (d : Entry V) → result ≡ bytes_eq (slice_index_or entries.now i d).key key.now }
{
    entries[i].key.as_slice() == key
}

/// The lanes that have this tag.
fn same_tags(tags: &[u8; 16], tag: u8) -> u64
    ensures { (k : ℕ) → k < 16 → flag_at result k ≡ eqb (slice_index tags.now k) tag }
{
    u8x16::from_array(*tags)
        .simd_eq(u8x16::splat(tag))
        .to_bitmask()
}

/// Which entries have keys whose hash has this bit, and how many they are.
fn going_of<V>(entries: &[Entry<V>], bit: u32) -> ([bool; 14], usize)
    requires few { length entries.now ≤ 14 }
    requires bit { bit < 64 }
    ensures marks { (i : ℕ) (d : Entry V) → i < length entries.now → slice_index_or result.0 i false ≡ goes bit (slice_index_or entries.now i d).key }
    ensures count { result.1 ≡ length (filter (λ e. goes bit e.key) entries.now) }
{
    let mut going = [false; 14];
    let mut count = 0;
    'entries: for i in 0..entries.len() {
        let goes = goes_at(entries, i, bit);
        going[i] = goes;
        if goes {
            count += 1;
        }
    }
    (going, count)
}

/// Whether the key of an entry has this bit in its hash.
fn goes_at<V>(entries: &[Entry<V>], i: usize, bit: u32) -> bool
    requires within { i < length entries.now }
    requires bit { bit < 64 }
    ensures { (d : Entry V) → result ≡ goes bit (slice_index_or entries.now i d).key }
{
    has_bit(fnv64(entries[i].key.as_slice()), bit)
}

fn has_bit(hash: u64, bit: u32) -> bool
    requires { bit < 64 }
    ensures { result ≡ eqb (hash / 2 ^ bit % 2) 1 }
{
    (hash >> bit) % 2 == 1
}

/// Makes room for one more entry.
fn make_room<V>(entries: &mut Vec<Entry<V>>) -> Result<(), NoMemory>
    ensures items { entries.new.items ≡ entries.old.items }
    ensures room { OnOk result (vec_len entries.new < vec_capacity entries.new) }
{
    if entries.len() == entries.capacity() {
        entries.reserve_exact(GROWTH)?;
    }
    Ok(())
}

/// The tags behind one place move down.
fn close_gap(tags: &mut [u8; 16], i: usize)
    requires { i < 14 }
    ensures below { (k : ℕ) → k < i → slice_index tags.new k ≡ slice_index tags.old k }
    ensures behind { (k : ℕ) → i ≤ k → k < 13 → slice_index tags.new k ≡ slice_index tags.old (k + 1) }
{
    'tags: for k in i..13 {
        tags[k] = tags[k + 1];
    }
}
