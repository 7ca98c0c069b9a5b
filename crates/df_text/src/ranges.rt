//! Places and ranges, as commands on lists and strings give them: a negative number counts from the
//! end, and both ends of a range are in.

ghost use Rattle.std.specs.Prelude.{◌≡◌};
ghost use Rattle.df_model.specs.Ranges;

/// The place from 0 that this number means among `len` elements, None where it lies outside.
pub fn place(at: i64, len: usize) -> Option<usize>
    ensures { result ≡ Ranges.place at len }
{
    if at < 0 {
        len.checked_sub(at.unsigned_abs() as usize)
    } else if (at as usize) < len {
        Some(at as usize)
    } else {
        None
    }
}

/// Where a range begins among `len` elements, which may be behind the last one, and the place behind
/// its last element. The range is empty where it begins at that place or behind it.
pub fn ends(from: i64, to: i64, len: usize) -> (usize, usize)
    ensures { result ≡ (Ranges.start from len, Ranges.stop to len) }
{
    (start(from, len), stop(to, len))
}

fn start(from: i64, len: usize) -> usize
    ensures { result ≡ Ranges.start from len }
{
    if from < 0 {
        len.saturating_sub(from.unsigned_abs() as usize)
    } else {
        from as usize
    }
}

fn stop(to: i64, len: usize) -> usize
    ensures { result ≡ Ranges.stop to len }
{
    if to < 0 {
        len.saturating_sub((to.unsigned_abs() - 1) as usize)
    } else {
        len.min(to as usize + 1)
    }
}
