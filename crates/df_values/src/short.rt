//! A few bytes in place.

ghost use Rattle.std.specs.Prelude.{◌≡◌, ◌+◌, ◌≤◌, ◌++◌, [], length, codes};
ghost use Rattle.df_model.specs.Replies.{crlf};

use std::marker::Model;

/// How many bytes a reply holds in place: enough for a number, for a status such as OK, and for a bulk of up to
/// 55 bytes.
pub const ROOM: usize = 62;

/// Up to `ROOM` bytes, seen as their list.
#[derive(Debug, Drop)]
pub struct Short {
    len: u8,
    bytes: [u8; ROOM],
}

impl Model for Short {
    ghost use Rattle.std.specs.Prelude.{List, ℕ, take, ◌≤◌};

    ghost Value = { List ℕ };

    ghost view = { λ s. take s.len s.bytes };

    ghost invariant = { λ s. s.len ≤ 62 };
}

impl Short {
    /// No bytes. Takes no memory.
    pub fn new() -> Short
        ensures { result ≡ [] }
    {
        Short {
            len: 0,
            bytes: [0; ROOM],
        }
    }

    /// How many bytes there are.
    pub fn len(&self) -> usize
        ensures len { result ≡ length self.now }
        ensures bound { result ≤ 62 }
    {
        usize::from(self.len)
    }

    /// Drops all bytes.
    pub fn clear(&mut self)
        ensures { self.new ≡ [] }
    {
        self.len = 0;
    }

    /// How many further bytes there is room for.
    pub fn room(&self) -> usize
        ensures { result + length self.now ≡ 62 }
    {
        ROOM - self.len()
    }

    /// The bytes, lent.
    pub fn as_slice(&self) -> &[u8]
        ensures { result.now ≡ self.now }
    {
        &self.bytes[..usize::from(self.len)]
    }

    /// Adds bytes at the end. Takes no memory.
    pub fn add(&mut self, more: &[u8])
        requires { length self.old + length more.now ≤ 62 }
        ensures { self.new ≡ self.old ++ more.now }
    {
        let from = usize::from(self.len);
        let end = from + more.len();
        self.bytes[from..end].copy_from_slice(more);
        self.len = end as u8;
    }

    /// Adds one line behind its mark.
    pub fn add_line(&mut self, mark: &[u8], text: &[u8])
        requires { length self.old + length mark.now + length text.now + 2 ≤ 62 }
        ensures { self.new ≡ self.old ++ (mark.now ++ text.now ++ crlf) }
    {
        self.add(mark);
        self.add(text);
        self.add(b"\r\n");
    }

    /// Adds bytes behind the digits of their length.
    pub fn add_bulk(&mut self, digits: &[u8], bytes: &[u8])
        requires { length self.old + length digits.now + length bytes.now + 5 ≤ 62 }
        ensures { self.new ≡ self.old ++ (codes "$" ++ digits.now ++ crlf ++ bytes.now ++ crlf) }
    {
        self.add_line(b"$", digits);
        self.add(bytes);
        self.add(b"\r\n");
    }
}
