//! The table grows: a segment is split, the directory is doubled, or a stash bucket is added.

ghost use Rattle.std.specs.Prelude.{◌≡◌, ◌+◌, ◌-◌, ◌*◌, ◌/◌, ◌<◌, ◌≤◌, ◌++◌, ℕ, [], ◌∷◌, slice_set, slice_index, vec_len, vec_capacity, IfSome, IfNone, IfOk, OnOk, OnErr, length};
ghost use Rattle.df_segment.specs.Buckets.{IsFirst, IsFull, stay_half, go_half};
ghost use Rattle.df_dashtable.specs.Tables.{older, segment_of, segment_at, Same, IsNewer, Sends, Divides, stashed, renamed};

use crate::hook::Hook;
use crate::table::{DashTable, GREATEST_DEPTH};
use df_model::NoMemory;
use df_segment::Segment;
use std::alloc::Global;

/// How often room is made for one key: a split for each depth, one stash bucket, and the look that finds room.
const ROUNDS: u32 = GREATEST_DEPTH + 2;

impl<V: Drop> DashTable<V> {
    /// The first bucket that has room for a key of this hash. It isn't older.
    pub(crate) fn seat<H: Hook<V>>(
        &mut self,
        alloc: Global,
        hash: u64,
        hook: &mut H,
    ) -> Result<(usize, usize), NoMemory>
        ensures own { IfOk result (λ at. at.0 ≡ segment_of self.new hash) }
        ensures room { IfOk result (λ at. IsFirst (segment_at self.new.segments at.0) hash at.1) }
        ensures newer { IfOk result (λ at. IsNewer self.new at.0 at.1) }
        ensures same { Same self.old self.new }
        ensures version { self.new.version ≡ self.old.version }
        ensures takes { H.takes hook.new ≡ H.takes hook.old }
        ensures sends { Sends (H.takes hook.old) (H.holds hook.old) (H.holds hook.new) self.old self.new }
    {
        'rounds: for _ in 0..ROUNDS {
            let s = self.segment_of(hash);
            match self.room_of(s, hash) {
                Some(b) => {
                    self.touch_at(s, b, hook)?;
                    return Ok((s, b));
                }
                None => self.widen(alloc, s, hook)?,
            }
        }
        Err(NoMemory)
    }

    fn room_of(&self, s: usize, hash: u64) -> Option<usize>
        requires { s < length self.now.segments }
        ensures { IfSome result (λ b. IsFirst (segment_at self.now.segments s) hash b) }
    {
        room_in(self.segments.as_slice(), s, hash)
    }

    /// Splits a segment, or gives it a further stash bucket where it is of the greatest depth. Each older bucket
    /// that entries may leave goes to the hook first.
    fn widen<H: Hook<V>>(&mut self, alloc: Global, s: usize, hook: &mut H) -> Result<(), NoMemory>
        requires { s < length self.old.segments }
        ensures same { Same self.old self.new }
        ensures version { self.new.version ≡ self.old.version }
        ensures takes { H.takes hook.new ≡ H.takes hook.old }
        ensures sends { Sends (H.takes hook.old) (H.holds hook.old) (H.holds hook.new) self.old self.new }
    {
        let depth = depth_in(self.segments.as_slice(), s);
        if depth >= self.greatest_depth {
            return self.add_stash(alloc, s);
        }
        self.touch_segment(s, hook)?;
        self.deepen(alloc, depth)?;
        self.split_at(alloc, s)
    }

    /// One more stash bucket.
    fn add_stash(&mut self, alloc: Global, s: usize) -> Result<(), NoMemory>
        requires { s < length self.old.segments }
        ensures same { Same self.old self.new }
        ensures version { self.new.version ≡ self.old.version }
        ensures older { older self.new ≡ older self.old }
    {
        stash_in(alloc, &mut self.segments, s, self.version)?;
        Ok(())
    }

    /// Makes the directory deeper than a segment of this depth.
    fn deepen(&mut self, alloc: Global, depth: u32) -> Result<(), NoMemory>
        requires low { depth < 20 }
        requires shallow { depth ≤ self.old.depth }
        ensures segments { self.new.segments ≡ self.old.segments }
        ensures version { self.new.version ≡ self.old.version }
        ensures ok { OnOk result (depth < self.new.depth) }
    {
        if depth == self.depth {
            return self.double(alloc);
        }
        Ok(())
    }

    /// The directory with two places for each. No entry moves.
    fn double(&mut self, alloc: Global) -> Result<(), NoMemory>
        requires { self.old.depth < 20 }
        ensures segments { self.new.segments ≡ self.old.segments }
        ensures version { self.new.version ≡ self.old.version }
        ensures ok { OnOk result (self.new.depth ≡ self.old.depth + 1) }
    {
        let directory = doubled(alloc, self.directory.as_slice())?;
        self.directory = directory;
        self.depth += 1;
        Ok(())
    }

    /// Splits a segment none of whose buckets is older.
    fn split_at(&mut self, alloc: Global, s: usize) -> Result<(), NoMemory>
        requires within { s < length self.old.segments }
        requires deeper { (segment_at self.old.segments s).depth < self.old.depth }
        requires newer { (b : ℕ) → b < length (segment_at self.old.segments s).buckets → IsNewer self.old s b }
        ensures same { Same self.old self.new }
        ensures version { self.new.version ≡ self.old.version }
        ensures older { older self.new ≡ older self.old }
    {
        divide(
            alloc,
            &mut self.segments,
            &mut self.directory,
            self.depth,
            s,
        )?;
        Ok(())
    }
}

/// Each place twice.
fn doubled(alloc: Global, directory: &[u32]) -> Result<Vec<u32>, NoMemory>
    requires { length directory.now ≤ 1048576 }
    ensures long { IfOk result (λ twice. length twice.items ≡ 2 * length directory.now) }
    ensures places { IfOk result (λ twice. (q : ℕ) → q < 2 * length directory.now → slice_index twice.items q ≡ slice_index directory.now (q / 2)) }
{
    let mut twice = Vec::with_capacity(alloc, 2 * directory.len())?;
    'places: for q in 0..2 * directory.len() {
        twice.push_reserved(directory[q / 2]);
    }
    Ok(twice)
}

/// Splits a segment, and lets the places of what went name the new one. All memory is taken first.
fn divide<V: Drop>(
    alloc: Global,
    segments: &mut Vec<Segment<V>>,
    directory: &mut Vec<u32>,
    depth: u32,
    s: usize,
) -> Result<(), NoMemory>
    requires within { s < vec_len segments.old }
    requires few { length segments.old.items ≤ 1048576 }
    requires deeper { (segment_at segments.old.items s).depth < depth }
    requires deep { depth ≤ 20 }
    ensures ok { OnOk result (Divides depth s segments.old.items segments.new.items directory.old.items directory.new.items) }
    ensures err { OnErr result ((segments.new.items ≡ segments.old.items) × (directory.new.items ≡ directory.old.items)) }
{
    segments.reserve(1)?;
    let own = depth_in(segments.as_slice(), s);
    let half = split_in(alloc, segments, s)?;
    let new = segments.len() as u32;
    segments.push_reserved(half);
    rename(directory.as_mut_slice(), s, new, depth - 1 - own);
    Ok(())
}

fn depth_in<V>(segments: &[Segment<V>], s: usize) -> u32
    requires { s < length segments.now }
    ensures { result ≡ (segment_at segments.now s).depth }
{
    segments[s].depth()
}

fn split_in<V: Drop>(
    alloc: Global,
    segments: &mut Vec<Segment<V>>,
    s: usize,
) -> Result<Segment<V>, NoMemory>
    requires within { s < vec_len segments.old }
    requires shallow { (segment_at segments.old.items s).depth < 64 }
    ensures stays { OnOk result (segments.new.items ≡ slice_set segments.old.items s (stay_half (63 - (segment_at segments.old.items s).depth) (segment_at segments.old.items s))) }
    ensures goes { IfOk result (λ half. half ≡ go_half (63 - (segment_at segments.old.items s).depth) (segment_at segments.old.items s)) }
    ensures err { OnErr result (segments.new.items ≡ segments.old.items) }
    ensures capacity { vec_capacity segments.new ≡ vec_capacity segments.old }
{
    let segment = &mut segments[s];
    segment.split(alloc)
}

/// The places that name s and have this bit name the new segment.
fn rename(directory: &mut [u32], s: usize, new: u32, shift: u32)
    requires { shift < 64 }
    ensures long { length directory.new ≡ length directory.old }
    ensures places { (q : ℕ) → q < length directory.old → slice_index directory.new q ≡ renamed s new shift q (slice_index directory.old q) }
{
    'places: for q in 0..directory.len() {
        directory[q] = renamed_place(directory[q], q, s, new, shift);
    }
}

fn renamed_place(old: u32, q: usize, s: usize, new: u32, shift: u32) -> u32
    requires { shift < 64 }
    ensures { result ≡ renamed s new shift q old }
{
    if old as usize == s && (q >> shift) % 2 == 1 {
        new
    } else {
        old
    }
}

fn stash_in<V: Drop>(
    alloc: Global,
    segments: &mut Vec<Segment<V>>,
    s: usize,
    version: u64,
) -> Result<(), NoMemory>
    requires { s < vec_len segments.old }
    ensures ok { OnOk result (segments.new.items ≡ slice_set segments.old.items s (stashed version (segment_at segments.old.items s))) }
    ensures err { OnErr result (segments.new.items ≡ segments.old.items) }
{
    let segment = &mut segments[s];
    segment.add_stash(alloc, version)
}

fn room_in<V>(segments: &[Segment<V>], s: usize, hash: u64) -> Option<usize>
    requires { s < length segments.now }
    ensures some { IfSome result (λ b. IsFirst (segment_at segments.now s) hash b) }
    ensures none { IfNone result (IsFull (segment_at segments.now s) hash) }
{
    segments[s].room(hash)
}
