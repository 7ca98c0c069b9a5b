//! What stands at the front of bytes: a line with a number, a frame's line, a word.
//!
//! These functions only look. They look at a line's bytes, at most a dozen, and at the two bytes of a
//! word's end, never at a word's own bytes.

ghost use Rattle.std.specs.Prelude.{◌≡◌, ◌+◌, ◌<◌, ◌≤◌, ◌^◌, length, drop};
ghost use Rattle.df_resp.specs.Lines.{digits, line};
ghost use Rattle.df_resp.specs.Frames.{begins_null, word_bytes, word};
ghost use Rattle.df_resp.specs.Seen.{SeesNumber, SeesFixed, SeesHead, SeesWord};

use crate::limits::MAX_WORDS;
use df_model::BadKind;

const CR: u8 = b'\r';

/// What was seen.
#[derive(Clone, Copy)]
pub enum Seen {
    /// It isn't whole yet.
    More,
    /// What was expected at the first bad byte, and its place.
    Bad(BadKind, usize),
    /// The number, count or length, and how many bytes there are up to its end.
    Whole(usize, usize),
}

/// A frame's line, by its count of words. A frame without words has count 0.
pub fn head_at(bytes: &[u8]) -> Seen
    ensures { SeesHead result bytes.now }
{
    if is_null(bytes) {
        return fixed_at(bytes, 2, b"1\r\n", BadKind::Count, 0);
    }
    line_at(bytes, b'*', BadKind::Count, MAX_WORDS)
}

/// Whether the count begins with a minus.
fn is_null(bytes: &[u8]) -> bool
    ensures { result ≡ begins_null bytes.now }
{
    // Most counts fail the second byte's test, so it comes first.
    bytes.len() > 1 && bytes[1] == b'-' && bytes[0] == b'*'
}

/// A word of at most so many bytes, by its length.
pub fn word_at(bytes: &[u8], limit: usize) -> Seen
    requires { limit < 2 ^ 32 }
    ensures { SeesWord result bytes.now (word limit bytes.now) }
{
    match line_at(bytes, b'$', BadKind::Length, limit) {
        Seen::More => Seen::More,
        Seen::Bad(kind, at) => Seen::Bad(kind, at),
        Seen::Whole(n, used) => word_bytes_at(bytes, used, n),
    }
}

/// A word's bytes, and its end.
fn word_bytes_at(bytes: &[u8], from: usize, n: usize) -> Seen
    requires behind { 0 < from }
    requires within { from ≤ length bytes.now }
    ensures { SeesWord result bytes.now (word_bytes n (drop from bytes.now)) }
{
    if bytes.len() - from < n {
        return Seen::More;
    }
    fixed_at(bytes, from + n, b"\r\n", BadKind::End, n)
}

/// A mark, a number of at most this limit, and the line's end.
fn line_at(bytes: &[u8], mark: u8, kind: BadKind, limit: usize) -> Seen
    requires { limit < 2 ^ 32 }
    ensures { SeesNumber result bytes.now (line mark kind limit bytes.now) }
{
    if bytes.len() == 0 {
        return Seen::More;
    }
    if bytes[0] != mark {
        return Seen::Bad(BadKind::Start, 0);
    }
    if bytes.len() == 1 {
        return Seen::More;
    }
    let b = bytes[1];
    if b < b'0' || b > b'9' || (b - b'0') as usize > limit {
        return Seen::Bad(kind, 1);
    }
    digits_at(bytes, kind, limit, (b - b'0') as usize)
}

/// The digits behind the first one, and the line's end.
fn digits_at(bytes: &[u8], kind: BadKind, limit: usize, first: usize) -> Seen
    requires within { 2 ≤ length bytes.now }
    requires small { limit < 2 ^ 32 }
    requires first { first ≤ limit }
    ensures { SeesNumber result bytes.now (digits kind limit first (drop 2 bytes.now)) }
{
    let mut value = first;
    'digits: for i in 2..bytes.len() {
        let b = bytes[i];
        if b == CR {
            return fixed_at(bytes, i + 1, b"\n", kind, value);
        }
        if b < b'0' || b > b'9' || value == 0 {
            return Seen::Bad(kind, i);
        }
        let next = 10 * value + (b - b'0') as usize;
        if next > limit {
            return Seen::Bad(kind, i);
        }
        value = next;
    }
    Seen::More
}

/// A fixed text at this place, which stands for a number.
fn fixed_at(bytes: &[u8], from: usize, text: &[u8], kind: BadKind, value: usize) -> Seen
    requires { from ≤ length bytes.now }
    ensures { SeesFixed result kind text.now from value bytes.now }
{
    'text: for (i, expected) in text.iter().enumerate() {
        if from + i == bytes.len() {
            return Seen::More;
        }
        if bytes[from + i] != *expected {
            return Seen::Bad(kind, from + i);
        }
    }
    Seen::Whole(value, from + text.len())
}
