//! What stands at the front of bytes: a length, or a string.
//!
//! These functions only look, at nine bytes at most. They never look at a string's own bytes.

ghost use Rattle.std.specs.Prelude.{◌≡◌, ◌<◌, ◌≤◌, length, take, drop, slice_index};
ghost use Rattle.std.specs.Int.{w32, w64, to_be_bytes};
ghost use Rattle.df_rdbcore.specs.Texts.{IsLength};
ghost use Rattle.df_rdbcore.specs.Seen.{SeesLength, SeesText};

/// The longest string that a file may have, in bytes.
const MAX_TEXT: u64 = 536_870_912;

/// What was seen where a length is needed.
#[derive(Clone, Copy)]
pub enum Seen {
    /// It isn't whole yet.
    More,
    /// The first byte begins no length.
    Bad,
    /// The number, and how many bytes its length takes.
    Whole(u64, usize),
}

/// What was seen where a string is needed.
#[derive(Clone, Copy)]
pub enum SeenText {
    /// It isn't whole yet.
    More,
    /// The first byte begins no string, or the string is too long.
    Bad,
    /// The string is compressed.
    Compressed,
    /// Where the string's bytes begin, and how many there are.
    Plain(usize, usize),
    /// The number that stands for the string, and how many bytes it takes.
    Number(i32, usize),
}

pub fn length_at(bytes: &[u8]) -> Seen
    ensures { SeesLength result bytes.now }
{
    if bytes.len() == 0 {
        return Seen::More;
    }
    let first = bytes[0];
    if first < 64 {
        return Seen::Whole(u64::from(first), 1);
    }
    if first < 128 {
        if bytes.len() < 2 {
            return Seen::More;
        }
        return Seen::Whole(u64::from(first - 64) * 256 + u64::from(bytes[1]), 2);
    }
    if first == 0x80 {
        if bytes.len() < 5 {
            return Seen::More;
        }
        return Seen::Whole(u64::from(word_at(bytes)), 5);
    }
    if first == 0x81 {
        if bytes.len() < 9 {
            return Seen::More;
        }
        return Seen::Whole(wide_at(bytes), 9);
    }
    Seen::Bad
}

/// The 32 bits behind the first byte, high part first.
fn word_at(bytes: &[u8]) -> u32
    requires { 5 ≤ length bytes.now }
    ensures { to_be_bytes w32 result ≡ take 4 (drop 1 bytes.now) }
{
    u32::from_be_bytes([bytes[1], bytes[2], bytes[3], bytes[4]])
}

/// The 64 bits behind the first byte, high part first.
fn wide_at(bytes: &[u8]) -> u64
    requires { 9 ≤ length bytes.now }
    ensures { to_be_bytes w64 result ≡ take 8 (drop 1 bytes.now) }
{
    u64::from_be_bytes([
        bytes[1], bytes[2], bytes[3], bytes[4], bytes[5], bytes[6], bytes[7], bytes[8],
    ])
}

pub fn text_at(bytes: &[u8]) -> SeenText
    ensures { SeesText result bytes.now }
{
    if bytes.len() == 0 {
        return SeenText::More;
    }
    let first = bytes[0];
    if first < 130 {
        return plain_at(bytes);
    }
    if first == 0xc3 {
        return SeenText::Compressed;
    }
    if first < 0xc0 || first > 0xc3 {
        return SeenText::Bad;
    }
    number_at(bytes)
}

/// A string behind its length.
fn plain_at(bytes: &[u8]) -> SeenText
    requires some { 0 < length bytes.now }
    requires low { slice_index bytes.now 0 < 130 }
    ensures { SeesText result bytes.now }
{
    match length_at(bytes) {
        Seen::More => SeenText::More,
        Seen::Bad => SeenText::Bad,
        Seen::Whole(n, used) => behind_length(bytes, n, used),
    }
}

/// So many bytes behind their length.
fn behind_length(bytes: &[u8], n: u64, used: usize) -> SeenText
    requires within { used ≤ length bytes.now }
    requires is_length { IsLength (take used bytes.now) n }
    ensures { SeesText result bytes.now }
{
    if n > MAX_TEXT {
        return SeenText::Bad;
    }
    let n = n as usize;
    if bytes.len() - used < n {
        return SeenText::More;
    }
    SeenText::Plain(used, n)
}

/// A signed number in place of a string, low byte first.
fn number_at(bytes: &[u8]) -> SeenText
    requires some { 0 < length bytes.now }
    requires least { 192 ≤ slice_index bytes.now 0 }
    requires most { slice_index bytes.now 0 < 195 }
    ensures { SeesText result bytes.now }
{
    if bytes[0] == 0xc0 {
        if bytes.len() < 2 {
            return SeenText::More;
        }
        return SeenText::Number(i32::from(i8::from_le_bytes([bytes[1]])), 2);
    }
    if bytes[0] == 0xc1 {
        if bytes.len() < 3 {
            return SeenText::More;
        }
        return SeenText::Number(i32::from(i16::from_le_bytes([bytes[1], bytes[2]])), 3);
    }
    if bytes.len() < 5 {
        return SeenText::More;
    }
    let number = i32::from_le_bytes([bytes[1], bytes[2], bytes[3], bytes[4]]);
    SeenText::Number(number, 5)
}
