//! A walk over the visible entries, in order of segment, bucket and slot.

ghost use Rattle.std.specs.Prelude.{◌≡◌, ◌<◌, ℕ, suc, [], ◌∷◌, IfSome, IfNone, length, slice_index_or};
ghost use Rattle.df_segment.specs.Entries.{Slot};
ghost use Rattle.df_dashtable.specs.Tables.{visible, segment_at, IsSpot, IsSpotIn, slot_in, slot_at};
ghost use Rattle.df_dashtable.specs.Walks.{IsPlace, slot_of_place, pair_of, rest_in, row_from, rest_of, segments_from, rest_from, visible_behind};

use crate::table::{DashTable, Spot, bucket_in};
use df_segment::{Bucket, Place, Segment};

impl<V> DashTable<V> {
    /// Where a walk begins: the first visible entry.
    pub fn first_visible(&self) -> Option<Spot>
        ensures none { IfNone result (visible self.now ≡ []) }
        ensures spot { IfSome result (λ at. IsSpot self.now at) }
        ensures some { IfSome result (λ at. (d : Slot V) → visible self.now ≡ pair_of (slot_at self.now at d) ∷ visible_behind at self.now) }
    {
        walk_segments(self.segments.as_slice(), 0)
    }

    /// Where a walk goes on: the first visible entry behind this one.
    pub fn next_visible(&self, at: Spot) -> Option<Spot>
        requires { IsSpot self.now at }
        ensures none { IfNone result (visible_behind at self.now ≡ []) }
        ensures spot { IfSome result (λ next. IsSpot self.now next) }
        ensures some { IfSome result (λ next. (d : Slot V) → visible_behind at self.now ≡ pair_of (slot_at self.now next d) ∷ visible_behind next self.now) }
    {
        walk_behind(self.segments.as_slice(), at)
    }
}

fn walk_behind<V>(segments: &[Segment<V>], at: Spot) -> Option<Spot>
    requires { IsSpotIn segments.now at }
    ensures none { IfNone result (rest_from at.segment at.place.bucket (suc at.place.slot) segments.now ≡ []) }
    ensures spot { IfSome result (λ next. IsSpotIn segments.now next) }
    ensures some { IfSome result (λ next. (d : Slot V) → rest_from at.segment at.place.bucket (suc at.place.slot) segments.now ≡ pair_of (slot_in segments.now next d) ∷ rest_from next.segment next.place.bucket (suc next.place.slot) segments.now) }
{
    let slot = slot_behind(
        bucket_in(segments, at.segment, at.place.bucket),
        at.place.slot,
    );
    walk_from(segments, at.segment, at.place.bucket, slot)
}

fn slot_behind<V>(bucket: &Bucket<V>, slot: usize) -> usize
    requires { slot < length bucket.now.entries }
    ensures { result ≡ suc slot }
{
    let count = bucket.len();
    if slot < count {
        slot + 1
    } else {
        unreachable!()
    }
}

fn walk_from<V>(segments: &[Segment<V>], s: usize, b: usize, i: usize) -> Option<Spot>
    requires segment { s < length segments.now }
    requires bucket { b < length (segment_at segments.now s).buckets }
    ensures none { IfNone result (rest_from s b i segments.now ≡ []) }
    ensures spot { IfSome result (λ at. IsSpotIn segments.now at) }
    ensures some { IfSome result (λ at. (d : Slot V) → rest_from s b i segments.now ≡ pair_of (slot_in segments.now at d) ∷ rest_from at.segment at.place.bucket (suc at.place.slot) segments.now) }
{
    let _count = segments.len();
    if let Some(place) = walk_in(segments, s, b, i) {
        return Some(Spot { segment: s, place });
    }
    walk_segments(segments, s + 1)
}

/// The first visible entry of the segments from this one on.
fn walk_segments<V>(segments: &[Segment<V>], from: usize) -> Option<Spot>
    ensures none { IfNone result (segments_from from segments.now ≡ []) }
    ensures spot { IfSome result (λ at. IsSpotIn segments.now at) }
    ensures some { IfSome result (λ at. (d : Slot V) → segments_from from segments.now ≡ pair_of (slot_in segments.now at d) ∷ rest_from at.segment at.place.bucket (suc at.place.slot) segments.now) }
{
    'segments: for s in from..segments.len() {
        if let Some(place) = walk_row_in(segments, s) {
            return Some(Spot { segment: s, place });
        }
    }
    None
}

fn walk_in<V>(segments: &[Segment<V>], s: usize, b: usize, i: usize) -> Option<Place>
    requires segment { s < length segments.now }
    requires bucket { b < length (segment_at segments.now s).buckets }
    ensures none { IfNone result (rest_of b i (segment_at segments.now s) ≡ []) }
    ensures place { IfSome result (λ p. IsPlace (segment_at segments.now s) p) }
    ensures some { IfSome result (λ p. (d : Slot V) → rest_of b i (segment_at segments.now s) ≡ pair_of (slot_of_place (segment_at segments.now s) p d) ∷ rest_of p.bucket (suc p.slot) (segment_at segments.now s)) }
{
    walk_buckets(&segments[s], b, i)
}

fn walk_row_in<V>(segments: &[Segment<V>], s: usize) -> Option<Place>
    requires { s < length segments.now }
    ensures none { IfNone result (row_from 0 (segment_at segments.now s) ≡ []) }
    ensures place { IfSome result (λ p. IsPlace (segment_at segments.now s) p) }
    ensures some { IfSome result (λ p. (d : Slot V) → row_from 0 (segment_at segments.now s) ≡ pair_of (slot_of_place (segment_at segments.now s) p d) ∷ rest_of p.bucket (suc p.slot) (segment_at segments.now s)) }
{
    walk_row(&segments[s], 0)
}

/// The first visible entry from slot i of bucket b on.
fn walk_buckets<V>(segment: &Segment<V>, b: usize, i: usize) -> Option<Place>
    requires { b < length segment.now.buckets }
    ensures none { IfNone result (rest_of b i segment.now ≡ []) }
    ensures place { IfSome result (λ p. IsPlace segment.now p) }
    ensures some { IfSome result (λ p. (d : Slot V) → rest_of b i segment.now ≡ pair_of (slot_of_place segment.now p d) ∷ rest_of p.bucket (suc p.slot) segment.now) }
{
    let _count = segment.buckets();
    if let Some(slot) = walk_bucket(segment.bucket(b), i) {
        return Some(Place { bucket: b, slot });
    }
    walk_row(segment, b + 1)
}

/// The first visible entry of the buckets from this one on.
fn walk_row<V>(segment: &Segment<V>, from: usize) -> Option<Place>
    ensures none { IfNone result (row_from from segment.now ≡ []) }
    ensures place { IfSome result (λ p. IsPlace segment.now p) }
    ensures some { IfSome result (λ p. (d : Slot V) → row_from from segment.now ≡ pair_of (slot_of_place segment.now p d) ∷ rest_of p.bucket (suc p.slot) segment.now) }
{
    let count = segment.buckets();
    'buckets: for b in from..count {
        if let Some(slot) = walk_bucket(segment.bucket(b), 0) {
            return Some(Place { bucket: b, slot });
        }
    }
    None
}

/// The first visible entry of a bucket from slot i on.
fn walk_bucket<V>(bucket: &Bucket<V>, i: usize) -> Option<usize>
    ensures none { IfNone result (rest_in i bucket.now ≡ []) }
    ensures within { IfSome result (λ k. k < length bucket.now.entries) }
    ensures some { IfSome result (λ k. (d : Slot V) → rest_in i bucket.now ≡ pair_of (slice_index_or bucket.now.entries k d) ∷ rest_in (suc k) bucket.now) }
{
    bucket.next_visible(i)
}
