//! Older buckets go to the hook, and are marked.

ghost use Rattle.std.specs.Prelude.{◌≡◌, ◌<◌, ℕ, [], ◌⊎◌, slice_set, vec_len, IfSome, IfNone, IfOk, OnOk, OnErr, length};
ghost use Rattle.df_model.specs.Hash.{fnv64};
ghost use Rattle.df_segment.specs.Entries.{found};
ghost use Rattle.df_segment.specs.Buckets.{bucket_at, put_bucket, marked};
ghost use Rattle.df_dashtable.specs.Visible.{under, older_in};
ghost use Rattle.df_dashtable.specs.Moves.{Moves};
ghost use Rattle.df_dashtable.specs.Tables.{entries, older, segment_at, mark_at, Same, StandsAt, HasAt, IsNewer, IsAllNewer, Sends, Touches};

use crate::hook::Hook;
use crate::table::{DashTable, Spot, bucket_in};
use df_model::NoMemory;
use df_segment::{Bucket, Segment};
use df_text::fnv64;

impl<V> DashTable<V> {
    /// What an older bucket has goes to the hook, and the bucket is marked.
    pub fn touch_at<H: Hook<V>>(&mut self, s: usize, b: usize, hook: &mut H) -> Result<(), NoMemory>
        requires segment { s < length self.old.segments }
        requires bucket { b < length (segment_at self.old.segments s).buckets }
        ensures ok { OnOk result ((self.new ≡ self.old) ⊎ (self.new ≡ mark_at self.old s b)) }
        ensures newer { OnOk result (IsNewer self.new s b) }
        ensures err { OnErr result ((self.new ≡ self.old) × (hook.new ≡ hook.old)) }
        ensures takes { H.takes hook.new ≡ H.takes hook.old }
        ensures sends { Sends (H.takes hook.old) (H.holds hook.old) (H.holds hook.new) self.old self.new }
    {
        let version = self.version;
        let bucket = bucket_in(self.segments.as_slice(), s, b);
        if bucket.version() < version {
            hook.before(bucket)?;
            mark_in(&mut self.segments, s, b, version);
        }
        Ok(())
    }
}

impl<V: Drop> DashTable<V> {
    /// Hands the bucket of a key to the hook, if it is older, and answers where the key stands, visible or staged.
    pub fn touch_hashed<H: Hook<V>>(
        &mut self,
        hash: u64,
        key: &[u8],
        hook: &mut H,
    ) -> Result<Option<Spot>, NoMemory>
        requires { hash ≡ fnv64 key.now }
        ensures none { IfOk result (λ spot. IfNone spot (found key.now (entries self.old) ≡ [])) }
        ensures stands { IfOk result (λ spot. IfSome spot (λ at. StandsAt self.new key.now at)) }
        ensures newer { IfOk result (λ spot. IfSome spot (λ at. IsNewer self.new at.segment at.place.bucket)) }
        ensures touched { OnOk result (under key.now (older self.new) ≡ []) }
        ensures same { Same self.old self.new }
        ensures version { self.new.version ≡ self.old.version }
        ensures takes { H.takes hook.new ≡ H.takes hook.old }
        ensures sends { Sends (H.takes hook.old) (H.holds hook.old) (H.holds hook.new) self.old self.new }
    {
        match self.find(hash, key) {
            Some(at) => {
                self.touch_at(at.segment, at.place.bucket, hook)?;
                self.touched(at, key);
                Ok(Some(at))
            }
            None => {
                self.untouched(key);
                Ok(None)
            }
        }
    }

    /// Hands each older bucket of a segment to the hook.
    pub fn touch_segment<H: Hook<V>>(&mut self, s: usize, hook: &mut H) -> Result<(), NoMemory>
        requires { s < length self.old.segments }
        ensures touched { Touches s self.old self.new }
        ensures newer { OnOk result ((b : ℕ) → b < length (segment_at self.new.segments s).buckets → IsNewer self.new s b) }
        ensures takes { H.takes hook.new ≡ H.takes hook.old }
        ensures sends { Sends (H.takes hook.old) (H.holds hook.old) (H.holds hook.new) self.old self.new }
    {
        let count = self.bucket_count_of(s);
        'buckets: for b in 0..count {
            self.touch_at(s, b, hook)?;
        }
        Ok(())
    }

    /// Hands each older bucket to the hook, in order of place. After want of memory the buckets so far stay marked.
    pub fn touch_all<H: Hook<V>>(&mut self, hook: &mut H) -> Result<(), NoMemory>
        ensures same { Same self.old self.new }
        ensures version { self.new.version ≡ self.old.version }
        ensures newer { OnOk result (IsAllNewer self.new) }
        ensures none { OnOk result (older self.new ≡ []) }
        ensures takes { H.takes hook.new ≡ H.takes hook.old }
        ensures sends { Sends (H.takes hook.old) (H.holds hook.old) (H.holds hook.new) self.old self.new }
    {
        let count = self.segment_count();
        'segments: for s in 0..count {
            self.touch_segment(s, hook)?;
        }
        Ok(())
    }
}

impl<V> DashTable<V> {
    /// How many segments there are.
    pub fn segment_count(&self) -> usize
        ensures { result ≡ length self.now.segments }
    {
        self.segments.len()
    }

    /// How many buckets a segment has.
    pub fn bucket_count_of(&self, s: usize) -> usize
        requires { s < length self.now.segments }
        ensures { result ≡ length (segment_at self.now.segments s).buckets }
    {
        count_in(self.segments.as_slice(), s)
    }

    /// A bucket, lent.
    pub fn bucket(&self, s: usize, b: usize) -> &Bucket<V>
        requires segment { s < length self.now.segments }
        requires bucket { b < length (segment_at self.now.segments s).buckets }
        ensures { result.now ≡ bucket_at (segment_at self.now.segments s).buckets b }
    {
        bucket_in(self.segments.as_slice(), s, b)
    }

    /// Gives a bucket the table's version. What waited in it waits no more: the caller has it. Takes no memory.
    pub fn mark(&mut self, s: usize, b: usize)
        requires segment { s < length self.old.segments }
        requires bucket { b < length (segment_at self.old.segments s).buckets }
        ensures marked { self.new ≡ mark_at self.old s b }
        ensures same { Same self.old self.new }
        ensures newer { IsNewer self.new s b }
        ensures moves { Moves (older self.old) (older_in self.old.version (bucket_at (segment_at self.old.segments s).buckets b)) (older self.new) }
    {
        let version = self.version;
        mark_in(&mut self.segments, s, b, version);
    }
}

fn count_in<V>(segments: &[Segment<V>], s: usize) -> usize
    requires { s < length segments.now }
    ensures { result ≡ length (segment_at segments.now s).buckets }
{
    segments[s].buckets()
}

fn mark_in<V>(segments: &mut Vec<Segment<V>>, s: usize, b: usize, version: u64)
    requires segment { s < vec_len segments.old }
    requires bucket { b < length (segment_at segments.old.items s).buckets }
    ensures { segments.new.items ≡ slice_set segments.old.items s (put_bucket (segment_at segments.old.items s) b (marked version (bucket_at (segment_at segments.old.items s).buckets b))) }
{
    let segment = &mut segments[s];
    segment.mark(b, version);
}
