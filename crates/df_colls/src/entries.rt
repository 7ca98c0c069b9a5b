//! Entries in the order of their keys: what maps and sets of byte strings stand on.

ghost use Rattle.std.specs.Prelude.{◌≡◌, ◌+◌, ◌<◌, ◌≤◌, ◌++◌, IfOk, IfErr, OnOk, MatchResult, T, length, drop, slice_get, vec_len, vec_capacity};
ghost use Rattle.std.specs.Option.{option_copied};
ghost use Rattle.std.specs.FinMap as map;
ghost use Rattle.df_colls.specs.Roomy.{order};
ghost use Rattle.df_colls.specs.Cuts.{flat, IsFilled};
ghost use Rattle.df_colls.specs.Places.{IsAt, GoesTo, Present, Absent, Makes, IsFound, IsMissing, IsHome, Starts, made};
ghost use Rattle.df_colls.specs.Parts.{item_lists};
ghost use Rattle.df_colls.specs.Runs.{IsFront};

use crate::chunks::{Chunks, FULL, Place};
use crate::copies::{CopyIn, append};
use df_model::{Bin, NoMemory};
use std::alloc::Global;
use std::cmp::Ordering;
use std::marker::Model;
use std::mem;

/// A finite map from byte strings, and room for more entries.
#[derive(Debug, Drop)]
pub(crate) struct Entries<X> {
    body: Body<X>,
}

/// Up to `FULL` entries lie in one vector, which grows as any other; more lie in chunks. Only `reserve` makes chunks of a
/// vector, so that no put takes memory.
#[derive(Debug, Drop)]
enum Body<X> {
    Small(Vec<(Bin, X)>),
    Large(Box<Chunks<(Bin, X)>>),
}

impl<X> Model for Entries<X> {
    ghost use Rattle.std.specs.Prelude.{T};
    ghost use Rattle.std.specs.FinMap.{is_sorted};
    ghost use Rattle.df_colls.specs.Roomy.{Roomy, roomy_code, order};
    ghost use Rattle.df_colls.specs.Bodies.{entries_of, room_of, IsShort};
    ghost use Rattle.df_colls.specs.Places.{made};

    ghost Value = { Roomy X };

    ghost coded = { roomy_code X.code };

    ghost view = { λ e. record { contents = made (entries_of e.body); spare = room_of e.body } };

    ghost invariant = { λ e. T (is_sorted order (entries_of e.body)) × IsShort e.body };
}

impl<X: Drop> Entries<X> {
    /// No entries. Takes no memory.
    pub(crate) fn new(alloc: Global) -> Entries<X>
        ensures { result.contents ≡ map.empty }
    {
        Entries {
            body: Body::Small(Vec::new(alloc)),
        }
    }

    /// These entries, in the order of their keys.
    pub(crate) fn from_items(alloc: Global, items: Vec<(Bin, X)>) -> Result<Entries<X>, NoMemory>
        requires { T (map.is_sorted order items.items) }
        ensures { IfOk result (λ entries. entries.contents ≡ made items.items) }
    {
        if items.len() <= FULL {
            return Ok(Entries {
                body: Body::Small(items),
            });
        }
        let chunks = Chunks::from_items(alloc, items)?;
        let chunks = Box::new(alloc, chunks)?;
        Ok(Entries {
            body: Body::Large(chunks),
        })
    }

    /// How many entries there are.
    pub(crate) fn len(&self) -> usize
        ensures { result ≡ map.len self.now.contents }
    {
        match &self.body {
            Body::Small(items) => items.len(),
            Body::Large(chunks) => chunks.len(),
        }
    }

    /// Makes room for `count` entries, those that there is room for among them.
    pub(crate) fn reserve(&mut self, count: usize) -> Result<(), NoMemory>
        ensures contents { self.new.contents ≡ self.old.contents }
        ensures spare { self.old.spare ≤ self.new.spare }
        ensures ok { OnOk result (count ≤ self.new.spare) }
    {
        match &mut self.body {
            Body::Small(items) => {
                if count <= FULL - items.len() {
                    items.reserve(count)?;
                    return Ok(());
                }
                let mut chunks = chunked(items)?;
                let done = chunks.reserve(count);
                self.body = Body::Large(chunks);
                done
            }
            Body::Large(chunks) => chunks.reserve(count),
        }
    }

    /// What stands at the key.
    pub(crate) fn get(&self, key: &[u8]) -> Option<&X>
        ensures { option_copied result ≡ map.get self.now.contents key.now }
    {
        match &self.body {
            Body::Small(items) => held(items, key),
            Body::Large(chunks) => held_among(chunks, key),
        }
    }

    /// Puts the value at the key, and answers what stood there. Takes no memory.
    pub(crate) fn put(&mut self, key: Bin, value: X) -> Option<X>
        requires { 0 < self.old.spare }
        ensures contents { self.new.contents ≡ map.insert self.old.contents key value }
        ensures old { result ≡ map.get self.old.contents key }
        ensures room { self.old.spare ≤ self.new.spare + 1 }
    {
        match &mut self.body {
            Body::Small(items) => put(items, key, value),
            Body::Large(chunks) => put_among(chunks, key, value),
        }
    }

    /// Removes the key, and answers what stood there.
    pub(crate) fn remove(&mut self, key: &[u8]) -> Option<X>
        ensures contents { self.new.contents ≡ map.remove self.old.contents key.now }
        ensures old { result ≡ map.get self.old.contents key.now }
        ensures spare { self.old.spare ≤ self.new.spare }
    {
        match &mut self.body {
            Body::Small(items) => remove(items, key),
            Body::Large(chunks) => remove_among(chunks, key),
        }
    }

    /// The entry at this place, from 0.
    pub(crate) fn at(&self, i: usize) -> Option<&(Bin, X)>
        ensures { option_copied result ≡ slice_get (map.entries self.now.contents) i }
    {
        self.run(i).first()
    }

    /// Entries from this place on, at least one where there is one. A loop over all of them goes from
    /// run to run.
    pub(crate) fn run(&self, from: usize) -> &[(Bin, X)]
        ensures front { IsFront (drop from (map.entries self.now.contents)) result.now }
        ensures goes_on { from < map.len self.now.contents → 0 < length result.now }
    {
        match &self.body {
            Body::Small(items) => run(items, from),
            Body::Large(chunks) => chunks.run(from),
        }
    }
}

impl<X: CopyIn> Entries<X> {
    /// The same entries in memory of their own.
    pub(crate) fn copy(&self, alloc: Global) -> Result<Entries<X>, NoMemory>
        ensures { IfOk result (λ copy. copy.contents ≡ self.now.contents) }
    {
        let mut items = Vec::with_capacity(alloc, self.len())?;
        self.append_from(alloc, &mut items, 0)?;
        Entries::from_items(alloc, items)
    }

    /// Adds copies of the entries from this place on at the end. Where memory runs out, some of them may be there.
    pub(crate) fn append_from(
        &self,
        alloc: Global,
        to: &mut Vec<(Bin, X)>,
        from: usize,
    ) -> Result<(), NoMemory>
        ensures { OnOk result (to.new.items ≡ to.old.items ++ drop from (map.entries self.now.contents)) }
    {
        let mut at = from;
        'runs: while at < self.len() {
            let run = self.run(at);
            append(alloc, to, run)?;
            at += run.len();
        }
        Ok(())
    }
}

// ---- in one vector

/// What stands at the key.
fn held<'a, X>(items: &'a Vec<(Bin, X)>, key: &[u8]) -> Option<&'a X>
    requires { T (map.is_sorted order items.now.items) }
    ensures { option_copied result ≡ map.get (made items.now.items) key.now }
{
    match place(items, key) {
        Ok(i) => Some(&items[i].1),
        Err(_) => None,
    }
}

/// Puts the value at the key, and answers what stood there. Takes no memory.
fn put<X: Drop>(items: &mut Vec<(Bin, X)>, key: Bin, value: X) -> Option<X>
    requires sorted { T (map.is_sorted order items.old.items) }
    requires room { vec_len items.old < vec_capacity items.old }
    ensures entries { Makes items.new.items (map.insert (made items.old.items) key value) }
    ensures old { result ≡ map.get (made items.old.items) key }
    ensures len { vec_len items.new ≤ vec_len items.old + 1 }
    ensures capacity { vec_capacity items.old ≤ vec_capacity items.new }
{
    match place(items, key.as_slice()) {
        Ok(i) => Some(mem::replace(&mut items[i], (key, value)).1),
        Err(i) => {
            match items.insert(i, (key, value)) {
                Ok(()) => {}
                Err(_) => unreachable!(),
            }
            None
        }
    }
}

/// Removes the key, and answers what stood there.
fn remove<X: Drop>(items: &mut Vec<(Bin, X)>, key: &[u8]) -> Option<X>
    requires { T (map.is_sorted order items.old.items) }
    ensures entries { Makes items.new.items (map.remove (made items.old.items) key.now) }
    ensures old { result ≡ map.get (made items.old.items) key.now }
    ensures len { vec_len items.new ≤ vec_len items.old }
    ensures capacity { vec_capacity items.old ≤ vec_capacity items.new }
{
    match place(items, key) {
        Ok(i) => Some(items.remove(i).1),
        Err(_) => None,
    }
}

/// The items from this place on.
fn run<X>(items: &Vec<(Bin, X)>, from: usize) -> &[(Bin, X)]
    ensures { result.now ≡ drop from items.now.items }
{
    let all = items.as_slice();
    if from < all.len() { &all[from..] } else { &[] }
}

/// Moves the items into a first chunk.
fn chunked<X: Drop>(items: &mut Vec<(Bin, X)>) -> Result<Box<Chunks<(Bin, X)>>, NoMemory>
    requires { vec_len items.old ≤ FULL }
    ensures items { IfOk result (λ chunks. flat chunks.value.parts ≡ items.old.items) }
    ensures room { IfOk result (λ chunks. FULL ≤ chunks.value.spare + vec_len items.old) }
    ensures kept { IfErr result (λ _. items.new ≡ items.old) }
{
    let alloc = *items.allocator();
    let mut chunks = Box::new(alloc, Chunks::new(alloc))?;
    chunks.reserve(FULL)?;
    let all = mem::replace(items, Vec::new(alloc));
    chunks.push_all(all);
    Ok(chunks)
}

// ---- in chunks

/// What stands at the key.
fn held_among<'a, X: Drop>(chunks: &'a Chunks<(Bin, X)>, key: &[u8]) -> Option<&'a X>
    requires { T (map.is_sorted order (flat chunks.now.parts)) }
    ensures { option_copied result ≡ map.get (made (flat chunks.now.parts)) key.now }
{
    match find(chunks, key) {
        Ok(place) => Some(&chunks.get(place).1),
        Err(_) => None,
    }
}

/// Puts the value at the key, and answers what stood there. Takes no memory.
fn put_among<X: Drop>(chunks: &mut Chunks<(Bin, X)>, key: Bin, value: X) -> Option<X>
    requires sorted { T (map.is_sorted order (flat chunks.old.parts)) }
    requires room { 0 < chunks.old.spare }
    ensures entries { Makes (flat chunks.new.parts) (map.insert (made (flat chunks.old.parts)) key value) }
    ensures old { result ≡ map.get (made (flat chunks.old.parts)) key }
    ensures spare { chunks.old.spare ≤ chunks.new.spare + 1 }
{
    match find(chunks, key.as_slice()) {
        Ok(place) => Some(chunks.replace(place, (key, value)).1),
        Err(place) => {
            chunks.insert(place, (key, value));
            None
        }
    }
}

/// Removes the key, and answers what stood there.
fn remove_among<X: Drop>(chunks: &mut Chunks<(Bin, X)>, key: &[u8]) -> Option<X>
    requires { T (map.is_sorted order (flat chunks.old.parts)) }
    ensures entries { Makes (flat chunks.new.parts) (map.remove (made (flat chunks.old.parts)) key.now) }
    ensures old { result ≡ map.get (made (flat chunks.old.parts)) key.now }
    ensures spare { chunks.old.spare ≤ chunks.new.spare }
{
    match find(chunks, key) {
        Ok(place) => Some(chunks.remove(place).1),
        Err(_) => None,
    }
}

/// Where the key stands, or where it would go.
fn find<X: Drop>(list: &Chunks<(Bin, X)>, key: &[u8]) -> Result<Place, Place>
    requires { T (map.is_sorted order (flat list.now.parts)) }
    ensures { MatchResult result (IsFound key.now list.now.parts) (IsMissing key.now list.now.parts) }
{
    let parts = list.parts();
    if parts.len() == 0 {
        return Err(Place { chunk: 0, at: 0 });
    }
    let chunk = home(parts, key);
    match place(&parts[chunk], key) {
        Ok(at) => Ok(Place { chunk, at }),
        Err(at) => Err(Place { chunk, at }),
    }
}

/// The one chunk where the key may stand or go: the last of those that begin at or below it, or the first.
fn home<X: Drop>(parts: &[Vec<(Bin, X)>], key: &[u8]) -> usize
    requires sorted { T (map.is_sorted order (flat (item_lists parts.now))) }
    requires filled { IsFilled (item_lists parts.now) }
    requires some { 0 < length parts.now }
    ensures within { result < length parts.now }
    ensures home { IsHome key.now (item_lists parts.now) result }
{
    let mut low = 0;
    let mut high = parts.len();
    'halves: while high - low > 1 {
        let middle = low + (high - low) / 2;
        if starts_above(&parts[middle], key) {
            high = middle;
        } else {
            low = middle;
        }
    }
    low
}

/// Whether the chunk's first key is above this one.
fn starts_above<X>(chunk: &Vec<(Bin, X)>, key: &[u8]) -> bool
    ensures { Starts key.now chunk.now.items result }
{
    match chunk.first() {
        Some(entry) => match entry.0.as_slice().cmp(key) {
            Ordering::Less => false,
            Ordering::Equal => false,
            Ordering::Greater => true,
        },
        None => false,
    }
}

/// Where the key stands in the chunk, or where it would go.
fn place<X>(items: &Vec<(Bin, X)>, key: &[u8]) -> Result<usize, usize>
    requires { T (map.is_sorted order items.now.items) }
    ensures place { MatchResult result (IsAt key.now items.now.items) (GoesTo key.now items.now.items) }
    ensures entry { MatchResult result (Present key.now items.now.items) (Absent key.now items.now.items) }
{
    items.binary_search_by(|entry| entry.0.as_slice().cmp(key))
}
