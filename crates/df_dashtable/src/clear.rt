//! All visible entries are taken out at once.

ghost use Rattle.std.specs.Prelude.{◌≡◌, ◌<◌, [], map, slice_set, vec_len};
ghost use Rattle.df_dashtable.specs.Tables.{entries, older, visible, segment_at, staged_in, cleared};

use crate::table::DashTable;
use df_segment::Segment;

impl<V: Drop> DashTable<V> {
    /// Takes all visible entries out of a table of which nothing is older; what is staged stays. Takes no memory.
    pub fn clear(&mut self)
        requires { older self.old ≡ [] }
        ensures entries { entries self.new ≡ staged_in (entries self.old) }
        ensures visible { visible self.new ≡ [] }
        ensures version { self.new.version ≡ self.old.version }
        ensures older { older self.new ≡ [] }
    {
        clear_all(&mut self.segments);
        self.len = 0;
    }
}

fn clear_all<V: Drop>(segments: &mut Vec<Segment<V>>)
    ensures { segments.new.items ≡ map cleared segments.old.items }
{
    'segments: for s in 0..segments.len() {
        clear_segment(segments, s);
    }
}

fn clear_segment<V: Drop>(segments: &mut Vec<Segment<V>>, s: usize)
    requires { s < vec_len segments.old }
    ensures { segments.new.items ≡ slice_set segments.old.items s (cleared (segment_at segments.old.items s)) }
{
    let segment = &mut segments[s];
    clear_buckets(segment);
}

fn clear_buckets<V: Drop>(segment: &mut Segment<V>)
    ensures { segment.new ≡ cleared segment.old }
{
    let count = segment.buckets();
    'buckets: for b in 0..count {
        segment.clear(b);
    }
}
