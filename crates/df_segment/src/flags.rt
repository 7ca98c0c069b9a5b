//! One bit for each of a bucket's places.

ghost use Rattle.std.specs.Prelude.{◌≡◌, ◌≢◌, ◌+◌, ◌<◌, ◌≤◌, ℕ, true, false};
ghost use Rattle.df_segment.specs.Entries.{flag_at};

/// Whether the bit of a place is set.
pub(crate) fn has_flag(flags: u16, i: usize) -> bool
    requires { i < 16 }
    ensures { result ≡ flag_at flags i }
{
    (flags >> i) % 2 == 1
}

/// The bits with that of one place set or cleared.
pub(crate) fn set_flag(flags: u16, i: usize, on: bool) -> u16
    requires { i < 16 }
    ensures own { flag_at result i ≡ on }
    ensures others { (k : ℕ) → k < 16 → k ≢ i → flag_at result k ≡ flag_at flags k }
{
    if on {
        flags | (1 << i)
    } else {
        flags & !(1 << i)
    }
}

/// The bits without that of one place: those behind it move down.
pub(crate) fn without_place(flags: u16, i: usize) -> u16
    requires { i < 15 }
    ensures below { (k : ℕ) → k < i → flag_at result k ≡ flag_at flags k }
    ensures behind { (k : ℕ) → i ≤ k → flag_at result k ≡ flag_at flags (k + 1) }
{
    ((flags >> (i + 1)) << i) + flags % (1 << i)
}

/// The lowest bit that is set.
pub(crate) fn lowest(marks: u64) -> usize
    requires { marks ≢ 0 }
    ensures { flag_at marks result ≡ true }
{
    marks.trailing_zeros() as usize
}

/// The marks with one of them cleared.
pub(crate) fn without(marks: u64, i: usize) -> u64
    requires bound { i < 64 }
    requires marked { flag_at marks i ≡ true }
    ensures fewer { result < marks }
    ensures others { (k : ℕ) → k < 64 → k ≢ i → flag_at result k ≡ flag_at marks k }
    ensures no_more { (k : ℕ) → flag_at result k ≡ true → flag_at marks k ≡ true }
{
    marks & !(1 << i)
}

/// The marks of the first places alone.
pub(crate) fn of_first(marks: u64, count: usize) -> u64
    requires { count < 64 }
    ensures kept { (k : ℕ) → k < count → flag_at result k ≡ flag_at marks k }
    ensures no_more { (k : ℕ) → flag_at result k ≡ true → k < count }
{
    marks & ((1 << count) - 1)
}
