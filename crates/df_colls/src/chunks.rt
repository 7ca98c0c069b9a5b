//! A list that is cut into chunks, so that an insert or a removal moves the items of one chunk at most.
//!
//! Only the first chunk may be empty. Up to `FULL` items there is one chunk, which grows as a plain vector; a full chunk
//! gives its upper half to one of the free chunks, which `reserve` took.

ghost use Rattle.std.specs.Prelude.{◌≡◌, ◌+◌, ◌*◌, ◌<◌, ◌≤◌, ◌++◌, ◌⊎◌, [], ◌∷◌, IfOk, OnOk, length, sum, drop, slice_set, slice_index, slice_index_or, vec_len, vec_capacity};
ghost use Rattle.std.specs.List.{All, insert, remove};
ghost use Rattle.df_colls.specs.Cuts.{flat, index_of, IsPlace, IsGap, IsFilled};
ghost use Rattle.df_colls.specs.Parts.{AreHalves, IsFull, IsSplit, HasMore, IsFree, item_lists};
ghost use Rattle.df_colls.specs.Runs.{IsFront};
ghost use Rattle.df_colls.specs.Sums.{lens_of};

use crate::sums::Sums;
use df_model::NoMemory;
use std::alloc::Global;
use std::marker::Model;
use std::mem;

/// How many items a chunk holds at most.
pub(crate) const FULL: usize = 256;

/// How many of a full chunk's items stay in it when it is split.
const HALF: usize = 128;

/// How many chunks there are at most, so that no count of items leaves its type.
const MOST: usize = 1 << 50;

/// An item's place, or one where an item may go: which chunk, and where in it.
#[derive(Clone, Copy, Debug, Drop)]
pub(crate) struct Place {
    pub chunk: usize,
    pub at: usize,
}

/// A list in chunks, and room for more items.
#[derive(Debug, Drop)]
pub(crate) struct Chunks<T> {
    parts: Vec<Vec<T>>,
    free: Vec<Vec<T>>,
    sums: Sums,
    len: usize,
}

impl<T> Model for Chunks<T> {
    ghost use Rattle.df_colls.specs.Cuts.{Cut, cut_code};
    ghost use Rattle.df_colls.specs.Parts.{item_lists, spare_of, IsSound};
    ghost use Rattle.df_colls.specs.Sums.{IsSummed};

    ghost Value = { Cut T };

    ghost coded = { cut_code T.code };

    ghost view = { λ c. record { parts = item_lists c.parts.items; spare = spare_of c.parts.items c.free.items } };

    ghost invariant = { λ c. IsSound c.parts c.free c.len × IsSummed c.parts c.free c.sums };
}

impl<T: Drop> Chunks<T> {
    /// No items. Takes no memory.
    pub(crate) fn new(alloc: Global) -> Chunks<T>
        ensures { result.parts ≡ [] }
    {
        Chunks {
            parts: Vec::new(alloc),
            free: Vec::new(alloc),
            sums: Sums::new(alloc),
            len: 0,
        }
    }

    /// How many items there are.
    pub(crate) fn len(&self) -> usize
        ensures { result ≡ length (flat self.now.parts) }
    {
        self.len
    }

    /// The chunks, lent.
    pub(crate) fn parts(&self) -> &[Vec<T>]
        ensures parts { item_lists result.now ≡ self.now.parts }
        ensures filled { IsFilled self.now.parts }
    {
        self.parts.as_slice()
    }

    /// The item at the place.
    pub(crate) fn get(&self, place: Place) -> &T
        requires { IsPlace self.now.parts place }
        ensures { result.now ≡ slice_index_or (flat self.now.parts) (index_of self.now.parts place) result.now }
    {
        &self.parts[place.chunk][place.at]
    }

    /// Puts the item in the place of another, which is answered.
    pub(crate) fn replace(&mut self, place: Place, item: T) -> T
        requires { IsPlace self.old.parts place }
        ensures items { flat self.new.parts ≡ slice_set (flat self.old.parts) (index_of self.old.parts place) item }
        ensures old { result ≡ slice_index_or (flat self.old.parts) (index_of self.old.parts place) result }
        ensures spare { self.new.spare ≡ self.old.spare }
    {
        let chunk = &mut self.parts[place.chunk];
        mem::replace(&mut chunk[place.at], item)
    }

    /// Puts the item before the one at the place, or at the end of the chunk. Takes no memory.
    pub(crate) fn insert(&mut self, place: Place, item: T)
        requires spare { 0 < self.old.spare }
        requires place { 0 < length self.old.parts → IsGap self.old.parts place }
        ensures items { flat self.new.parts ≡ insert (flat self.old.parts) (index_of self.old.parts place) item }
        ensures room { self.old.spare ≤ self.new.spare + 1 }
    {
        self.len += 1;
        if self.parts[place.chunk].len() < FULL {
            add(&mut self.parts[place.chunk], place.at, item);
            recount(&self.parts, &mut self.sums, place.chunk);
        } else {
            let high = match self.free.pop() {
                Some(chunk) => chunk,
                None => unreachable!(),
            };
            split_with(&mut self.parts, place, item, high);
            recount(&self.parts, &mut self.sums, place.chunk);
            count_new(&self.parts, &mut self.sums, place.chunk + 1);
        }
    }

    /// Takes the item out. A chunk that is empty then is free, but for the first.
    pub(crate) fn remove(&mut self, place: Place) -> T
        requires { IsPlace self.old.parts place }
        ensures items { flat self.new.parts ≡ remove (flat self.old.parts) (index_of self.old.parts place) }
        ensures old { result ≡ slice_index_or (flat self.old.parts) (index_of self.old.parts place) result }
        ensures spare { self.old.spare ≤ self.new.spare }
    {
        self.len -= 1;
        let item = self.parts[place.chunk].remove(place.at);
        recount(&self.parts, &mut self.sums, place.chunk);
        if place.chunk == 0 {
            return item;
        }
        if self.parts[place.chunk].len() > 0 {
            return item;
        }
        let chunk = self.parts.remove(place.chunk);
        self.sums.remove(place.chunk);
        give_back(&mut self.free, chunk);
        item
    }

    /// Items from this place on, at least one where there is one: the rest of a chunk.
    pub(crate) fn run(&self, from: usize) -> &[T]
        ensures front { IsFront (drop from (flat self.now.parts)) result.now }
        ensures goes_on { from < length (flat self.now.parts) → 0 < length result.now }
    {
        if from >= self.len {
            return &[];
        }
        let spot = self.sums.find(from);
        &self.parts[spot.leaf].as_slice()[spot.rest..]
    }

    /// Makes room for `count` items, those that there is room for among them.
    pub(crate) fn reserve(&mut self, count: usize) -> Result<(), NoMemory>
        ensures items { flat self.new.parts ≡ flat self.old.parts }
        ensures spare { self.old.spare ≤ self.new.spare }
        ensures ok { OnOk result (count ≤ self.new.spare) }
    {
        if count <= self.free.len() {
            return Ok(());
        }
        self.begin()?;
        if self.parts.len() == 1 && count <= FULL - self.parts[0].len() {
            self.parts[0].reserve(count)?;
            return Ok(());
        }
        self.reserve_chunks(count)
    }

    /// The first chunk, where there is none yet.
    fn begin(&mut self) -> Result<(), NoMemory>
        ensures items { flat self.new.parts ≡ flat self.old.parts }
        ensures spare { self.old.spare ≤ self.new.spare }
        ensures ok { OnOk result (0 < length self.new.parts) }
    {
        if self.parts.len() > 0 {
            return Ok(());
        }
        let alloc = *self.parts.allocator();
        self.sums.reserve(1)?;
        self.parts.push(Vec::new(alloc))?;
        count_new(&self.parts, &mut self.sums, 0);
        Ok(())
    }

    /// The same, in free chunks.
    fn reserve_chunks(&mut self, count: usize) -> Result<(), NoMemory>
        requires { 0 < length self.old.parts }
        ensures items { flat self.new.parts ≡ flat self.old.parts }
        ensures spare { self.old.spare ≤ self.new.spare }
        ensures ok { OnOk result (count ≤ self.new.spare) }
    {
        let missing = FULL - self.parts[0].len();
        self.parts[0].reserve(missing)?;
        let wanted = count.min(self.parts.len() + count / HALF + 1);
        if wanted > MOST - self.parts.len() {
            return Err(NoMemory);
        }
        self.parts.reserve(wanted)?;
        self.sums.reserve(self.parts.len() + wanted)?;
        let alloc = *self.parts.allocator();
        take_chunks(alloc, &mut self.free, wanted)
    }

    /// Puts the items at the end. Takes no memory.
    pub(crate) fn push_all(&mut self, items: Vec<T>)
        requires { vec_len items ≤ self.old.spare }
        ensures items { flat self.new.parts ≡ flat self.old.parts ++ items.items }
        ensures room { self.old.spare ≤ self.new.spare + vec_len items }
    {
        'items: for item in items {
            let place = self.end();
            self.insert(place, item);
        }
    }

    /// Where an item would go at the end.
    fn end(&self) -> Place
        ensures gap { 0 < length self.now.parts → IsGap self.now.parts result }
        ensures end { index_of self.now.parts result ≡ length (flat self.now.parts) }
    {
        match self.parts.last() {
            Some(chunk) => Place {
                chunk: self.parts.len() - 1,
                at: chunk.len(),
            },
            None => Place { chunk: 0, at: 0 },
        }
    }

    /// These items.
    pub(crate) fn from_items(alloc: Global, items: Vec<T>) -> Result<Chunks<T>, NoMemory>
        ensures { IfOk result (λ chunks. flat chunks.parts ≡ items.items) }
    {
        let mut chunks = Chunks::new(alloc);
        'items: for item in items {
            chunks.reserve(1)?;
            let place = chunks.end();
            chunks.insert(place, item);
        }
        Ok(chunks)
    }
}

/// The sums learn how long this chunk is now.
fn recount<T>(parts: &Vec<Vec<T>>, sums: &mut Sums, chunk: usize)
    requires chunk { (chunk < vec_len parts.now) × (chunk < length sums.old.lens) }
    requires short { All (λ c. vec_len c ≤ FULL) parts.now.items }
    requires fits { sum sums.old.lens ≤ MOST * FULL }
    ensures lens { sums.new.lens ≡ slice_set sums.old.lens chunk (slice_index (lens_of parts.now.items) chunk) }
    ensures room { sums.new.room ≡ sums.old.room }
{
    sums.set(chunk, parts[chunk].len());
}

/// The sums learn of a new chunk.
fn count_new<T>(parts: &Vec<Vec<T>>, sums: &mut Sums, chunk: usize)
    requires chunk { (chunk < vec_len parts.now) × (chunk ≤ length sums.old.lens) }
    requires short { All (λ c. vec_len c ≤ FULL) parts.now.items }
    requires fits { sum sums.old.lens ≤ MOST * FULL }
    requires room { length sums.old.lens < sums.old.room }
    ensures lens { sums.new.lens ≡ insert sums.old.lens chunk (slice_index (lens_of parts.now.items) chunk) }
    ensures room { sums.new.room ≡ sums.old.room }
{
    sums.insert(chunk, parts[chunk].len());
}

/// Puts the item into a chunk that has room.
fn add<T: Drop>(chunk: &mut Vec<T>, at: usize, item: T)
    requires at { at ≤ vec_len chunk.old }
    requires room { vec_len chunk.old < vec_capacity chunk.old }
    ensures items { chunk.new.items ≡ insert chunk.old.items at item }
    ensures len { vec_len chunk.new ≡ vec_len chunk.old + 1 }
    ensures capacity { vec_capacity chunk.old ≤ vec_capacity chunk.new }
{
    match chunk.insert(at, item) {
        Ok(()) => {}
        Err(_) => unreachable!(),
    }
}

/// Splits the full chunk, puts the item into the half where it belongs, and the upper half behind the lower.
fn split_with<T: Drop>(parts: &mut Vec<Vec<T>>, place: Place, item: T, mut high: Vec<T>)
    requires chunk { place.chunk < vec_len parts.old }
    requires full { IsFull parts.old.items place }
    requires empty { (vec_len high ≡ 0) × (FULL ≤ vec_capacity high) }
    requires room { vec_len parts.old < vec_capacity parts.old }
    ensures split { IsSplit parts.old.items parts.new.items place item }
    ensures capacity { vec_capacity parts.old ≤ vec_capacity parts.new }
{
    let low = &mut parts[place.chunk];
    move_upper(low, &mut high);
    add_to_half(low, &mut high, place.at, item);
    match parts.insert(place.chunk + 1, high) {
        Ok(()) => {}
        Err(_) => unreachable!(),
    }
}

/// Puts the item into one of the two halves.
fn add_to_half<T: Drop>(low: &mut Vec<T>, high: &mut Vec<T>, at: usize, item: T)
    requires lens { (vec_len low.old ≡ HALF) × (vec_len high.old ≡ HALF) }
    requires at { at ≤ FULL }
    requires room { (FULL ≤ vec_capacity low.old) × (FULL ≤ vec_capacity high.old) }
    ensures halves { AreHalves low.new high.new (insert (low.old.items ++ high.old.items) at item) }
{
    if at <= HALF {
        add(low, at, item);
    } else {
        add(high, at - HALF, item);
    }
}

/// Moves the upper half of a full chunk to an empty one.
fn move_upper<T: Drop>(low: &mut Vec<T>, high: &mut Vec<T>)
    requires full { vec_len low.old ≡ FULL }
    requires empty { vec_len high.old ≡ 0 }
    requires room { FULL ≤ vec_capacity high.old }
    ensures items { low.new.items ++ high.new.items ≡ low.old.items }
    ensures lens { (vec_len low.new ≡ HALF) × (vec_len high.new ≡ HALF) }
    ensures capacities { (vec_capacity low.old ≤ vec_capacity low.new) × (vec_capacity high.old ≤ vec_capacity high.new) }
{
    'upper: while low.len() > HALF {
        match low.pop() {
            Some(item) => match high.push(item) {
                Ok(()) => {}
                Err(_) => unreachable!(),
            },
            None => unreachable!(),
        }
    }
    high.reverse();
}

/// An empty chunk is free again, where the list of those has room.
fn give_back<T: Drop>(free: &mut Vec<Vec<T>>, chunk: Vec<T>)
    ensures { HasMore free.old.items free.new.items chunk }
{
    if free.len() < free.capacity() {
        match free.push(chunk) {
            Ok(()) => {}
            Err(_) => unreachable!(),
        }
    }
}

/// Takes free chunks until there are so many. Where memory runs out, some of them may be there.
fn take_chunks<T: Drop>(
    alloc: Global,
    free: &mut Vec<Vec<T>>,
    wanted: usize,
) -> Result<(), NoMemory>
    requires { All IsFree free.old.items }
    ensures free { All IsFree free.new.items }
    ensures more { vec_len free.old ≤ vec_len free.new }
    ensures most { (vec_len free.new ≤ wanted) ⊎ (vec_len free.new ≡ vec_len free.old) }
    ensures ok { OnOk result (wanted ≤ vec_len free.new) }
{
    'chunks: while free.len() < wanted {
        let chunk = Vec::with_capacity(alloc, FULL)?;
        free.push(chunk)?;
    }
    Ok(())
}
