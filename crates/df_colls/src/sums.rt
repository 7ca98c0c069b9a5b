//! Sums over a list of lengths, by which the place of an item is found in logarithmic time.
//!
//! The lowest level is the lengths. Each level above holds the sums of 16 in a row of the level below it, so that a change
//! of one length is a change of one sum on each level, and a search looks at 16 sums of each at most.

ghost use Rattle.std.specs.Prelude.{◌≡◌, ℕ, ◌+◌, ◌*◌, ◌/◌, ◌^◌, ◌<◌, ◌≤◌, [], ◌∷◌, ◌++◌, IfOk, OnOk, length, sum, take, drop, slice_set, slice_index, vec_len, vec_capacity};
ghost use Rattle.std.specs.List.{All, insert, remove};
ghost use Rattle.df_colls.specs.Parts.{item_lists};
ghost use Rattle.df_colls.specs.Sums.{IsAbove, IsTower, IsSpot, IsEmptyLevel, lowest, with_len};

use df_model::NoMemory;
use std::alloc::Global;
use std::marker::Model;
use std::mem;

/// How many numbers of one level make one of the next.
const WIDTH: usize = 16;

/// Where an item is: which length it falls into, and how many items of that one stand before it.
#[derive(Clone, Copy, Debug, Drop)]
pub(crate) struct Spot {
    pub leaf: usize,
    pub rest: usize,
}

/// A list of lengths, and room for more of them.
#[derive(Debug, Drop)]
pub(crate) struct Sums {
    levels: Vec<Vec<usize>>,
    room: usize,
}

impl Model for Sums {
    ghost use Rattle.df_colls.specs.Sums.{Lens, lens_code, IsSumming, lowest};
    ghost use Rattle.df_colls.specs.Parts.{item_lists};

    ghost Value = { Lens };

    ghost coded = { lens_code };

    ghost view = { λ s. record { lens = lowest (item_lists s.levels.items); room = s.room } };

    ghost invariant = { λ s. IsSumming s.levels.items s.room };
}

impl Sums {
    /// No lengths, and no room. Takes no memory.
    pub(crate) fn new(alloc: Global) -> Sums
        ensures { result.lens ≡ [] }
    {
        Sums {
            levels: Vec::new(alloc),
            room: 0,
        }
    }

    /// Makes room for `count` lengths, those that are there among them.
    pub(crate) fn reserve(&mut self, count: usize) -> Result<(), NoMemory>
        ensures lens { self.new.lens ≡ self.old.lens }
        ensures room { self.old.room ≤ self.new.room }
        ensures ok { OnOk result (count ≤ self.new.room) }
    {
        if count <= self.room {
            return Ok(());
        }
        let wanted = count.max(self.room.saturating_mul(2));
        let alloc = *self.levels.allocator();
        let mut levels = empty_levels(alloc, wanted)?;
        levels[0].extend_from_slice(self.lens())?;
        regroup(&mut levels, wanted);
        self.levels = levels;
        self.room = wanted;
        Ok(())
    }

    /// The lengths, lent.
    fn lens(&self) -> &[usize]
        ensures { result.now ≡ self.now.lens }
    {
        match self.levels.first() {
            Some(level) => level.as_slice(),
            None => &[],
        }
    }

    /// The length becomes another.
    pub(crate) fn set(&mut self, leaf: usize, len: usize)
        requires leaf { leaf < length self.old.lens }
        requires fits { sum self.old.lens + len < 2 ^ 64 }
        ensures lens { self.new.lens ≡ slice_set self.old.lens leaf len }
        ensures room { self.new.room ≡ self.old.room }
    {
        let was = self.levels[0][leaf];
        set_path(&mut self.levels, leaf, was, len);
    }

    /// Puts a length before the one with this number, or at the end. Takes no memory.
    pub(crate) fn insert(&mut self, leaf: usize, len: usize)
        requires leaf { leaf ≤ length self.old.lens }
        requires room { length self.old.lens < self.old.room }
        requires fits { sum self.old.lens + len < 2 ^ 64 }
        ensures lens { self.new.lens ≡ insert self.old.lens leaf len }
        ensures room { self.new.room ≡ self.old.room }
    {
        match self.levels[0].insert(leaf, len) {
            Ok(()) => {}
            Err(_) => unreachable!(),
        }
        regroup(&mut self.levels, self.room);
    }

    /// Takes the length out.
    pub(crate) fn remove(&mut self, leaf: usize)
        requires leaf { leaf < length self.old.lens }
        ensures lens { self.new.lens ≡ remove self.old.lens leaf }
        ensures room { self.new.room ≡ self.old.room }
    {
        let _len = self.levels[0].remove(leaf);
        regroup(&mut self.levels, self.room);
    }

    /// Where the item with this number is, from 0.
    pub(crate) fn find(&self, item: usize) -> Spot
        requires { item < sum self.now.lens }
        ensures { IsSpot self.now.lens item result }
    {
        let levels = self.levels.as_slice();
        let mut from = 0;
        let mut rest = item;
        let mut i = levels.len() - 1;
        'levels: while i > 0 {
            let spot = walk(levels[i].as_slice(), from, rest);
            from = spot.leaf * WIDTH;
            rest = spot.rest;
            i -= 1;
        }
        walk(levels[0].as_slice(), from, rest)
    }
}

/// Levels with nothing in them yet, each with room for so many numbers.
fn empty_levels(alloc: Global, wanted: usize) -> Result<Vec<Vec<usize>>, NoMemory>
    ensures some { IfOk result (λ levels. 0 < vec_len levels) }
    ensures empty { IfOk result (λ levels. All (IsEmptyLevel wanted) levels.items) }
{
    let mut levels = Vec::new(alloc);
    levels.push(Vec::with_capacity(alloc, wanted)?)?;
    let mut size = wanted;
    'levels: while size > WIDTH {
        levels.push(Vec::with_capacity(alloc, wanted)?)?;
        size = size / WIDTH + 1;
    }
    Ok(levels)
}

/// The sums of each level above the lowest, anew.
fn regroup(levels: &mut Vec<Vec<usize>>, room: usize)
    requires some { (0 < vec_len levels.old) × (0 < room) }
    requires len { length (lowest (item_lists levels.old.items)) ≤ room }
    requires room { All (λ v. room ≤ vec_capacity v) levels.old.items }
    requires fits { sum (lowest (item_lists levels.old.items)) < 2 ^ 64 }
    ensures lens { lowest (item_lists levels.new.items) ≡ lowest (item_lists levels.old.items) }
    ensures tower { IsTower (item_lists levels.new.items) }
    ensures room { All (λ v. room ≤ vec_capacity v) levels.new.items }
    ensures len { vec_len levels.new ≡ vec_len levels.old }
{
    let alloc = *levels.allocator();
    let count = levels.len();
    'levels: for i in 1..count {
        let mut level = mem::replace(&mut levels[i], Vec::new(alloc));
        group(levels[i - 1].as_slice(), &mut level);
        levels[i] = level;
    }
}

/// The sums of 16 numbers in a row. One sum may be of none.
fn group(below: &[usize], level: &mut Vec<usize>)
    requires room { length below.now / WIDTH + 1 ≤ vec_capacity level.old }
    requires fits { sum below.now < 2 ^ 64 }
    ensures sums { IsAbove level.new.items below.now }
    ensures capacity { vec_capacity level.old ≤ vec_capacity level.new }
{
    level.clear();
    let count = below.len() / WIDTH + 1;
    'groups: for i in 0..count {
        let rest = &below[i * WIDTH..];
        let part = &rest[..rest.len().min(WIDTH)];
        push_within(level, total(part));
    }
}

/// Adds the number at the end, where there is room.
fn push_within(level: &mut Vec<usize>, number: usize)
    requires { vec_len level.old < vec_capacity level.old }
    ensures items { level.new.items ≡ level.old.items ++ number ∷ [] }
    ensures len { vec_len level.new ≡ vec_len level.old + 1 }
    ensures capacity { vec_capacity level.old ≤ vec_capacity level.new }
{
    match level.push(number) {
        Ok(()) => {}
        Err(_) => unreachable!(),
    }
}

/// Their sum.
fn total(numbers: &[usize]) -> usize
    requires { sum numbers.now < 2 ^ 64 }
    ensures { result ≡ sum numbers.now }
{
    numbers.iter().sum()
}

/// The length becomes another, and so does each sum that it is in.
fn set_path(levels: &mut Vec<Vec<usize>>, leaf: usize, was: usize, len: usize)
    requires tower { IsTower (item_lists levels.old.items) }
    requires leaf { leaf < length (lowest (item_lists levels.old.items)) }
    requires was { was ≡ slice_index (lowest (item_lists levels.old.items)) leaf }
    requires fits { sum (lowest (item_lists levels.old.items)) + len < 2 ^ 64 }
    ensures levels { item_lists levels.new.items ≡ with_len was len leaf (item_lists levels.old.items) }
    ensures len { vec_len levels.new ≡ vec_len levels.old }
    ensures room { (room : ℕ) → All (λ v. room ≤ vec_capacity v) levels.old.items → All (λ v. room ≤ vec_capacity v) levels.new.items }
{
    let mut at = leaf;
    let count = levels.len();
    'levels: for i in 0..count {
        let level = &mut levels[i];
        level[at] = level[at] - was + len;
        at /= WIDTH;
    }
}

/// From this number of a level on, the one into which the item falls that stands so many behind its start.
fn walk(level: &[usize], from: usize, rest: usize) -> Spot
    requires from { from ≤ length level.now }
    requires within { rest + sum (take from level.now) < sum level.now }
    ensures { IsSpot level.now (rest + sum (take from level.now)) result }
{
    let mut leaf = from;
    let mut rest = rest;
    'numbers: while rest >= level[leaf] {
        rest -= level[leaf];
        leaf += 1;
    }
    Spot { leaf, rest }
}
