//! The part of a reply that finds no room in place.

ghost use Rattle.std.specs.Prelude.{◌≡◌, ◌+◌, ◌^◌, ◌<◌, ◌≤◌, ◌++◌, [], drop, length, vec_len, vec_capacity, IfSome, OnOk, OnErr};
ghost use Rattle.df_colls.specs.Runs.{IsFront};
ghost use Rattle.df_model.specs.Replies.{encoding_of, crlf};
ghost use Rattle.df_model.specs.declared.reply.Reply.TheVariants.{Bulk, Error as ErrorReply};

use df_model::{Bin, ErrorText, NoMemory};
use df_resp::{encode_bulk, encode_error};
use std::alloc::Global;
use std::marker::Model;
use std::mem;

/// Bytes in buffers. What is added goes to one buffer that grows, and a byte string that is moved in stays a
/// buffer of its own.
#[derive(Debug, Drop)]
pub struct Rest {
    /// Byte strings that were moved in, and between them what was added before each.
    kept: Vec<Bin>,
    /// How many bytes these are together.
    kept_len: usize,
    /// What was added after them.
    tail: Vec<u8>,
}

/// The most room that is kept for the next reply, so that one large reply doesn't hold its memory for ever.
const KEPT_ROOM: usize = 65_536;

/// The most bytes in `kept`: so the length of a whole reply fits its type, however long `tail` is.
const MAX_KEPT: usize = 1 << 62;

impl Model for Rest {
    ghost use Rattle.std.specs.Prelude.{◌≡◌, ◌≤◌, ◌^◌, List, ℕ, ◌++◌, length};
    ghost use Rattle.df_values.specs.Joined.{joined};

    ghost Value = { List ℕ };

    ghost view = { λ r. joined r.kept.items ++ r.tail.items };

    ghost invariant = { λ r. (r.kept_len ≡ length (joined r.kept.items)) × (r.kept_len ≤ 2 ^ 62) };
}

impl Rest {
    /// No bytes. Takes no memory.
    pub fn new(alloc: Global) -> Rest
        ensures { result ≡ [] }
    {
        Rest {
            kept: Vec::new(alloc),
            kept_len: 0,
            tail: Vec::new(alloc),
        }
    }

    /// Drops all bytes; the room of the buffer that grows stays where it isn't large. Takes no memory.
    pub fn clear(&mut self)
        ensures { self.new ≡ [] }
    {
        self.kept.clear();
        self.kept_len = 0;
        if self.tail.capacity() > KEPT_ROOM {
            self.tail = Vec::new(self.alloc());
        }
        self.tail.clear();
    }

    /// Where its memory comes from.
    pub fn alloc(&self) -> Global {
        *self.tail.allocator()
    }

    /// Makes room for so many bytes more.
    pub fn reserve(&mut self, more: usize) -> Result<(), NoMemory>
        ensures { self.new ≡ self.old }
    {
        self.tail.reserve(more)?;
        Ok(())
    }

    /// How many bytes there are.
    pub fn len(&self) -> usize
        ensures len { result ≡ length self.now }
        ensures bound { result < 2 ^ 62 + 2 ^ 63 }
    {
        self.kept_len + self.tail.len()
    }

    /// Adds bytes at the end, or at want of memory nothing.
    pub fn add(&mut self, bytes: &[u8]) -> Result<(), NoMemory>
        ensures ok { OnOk result (self.new ≡ self.old ++ bytes.now) }
        ensures err { OnErr result (self.new ≡ self.old) }
    {
        self.tail.extend_from_slice(bytes)?;
        Ok(())
    }

    /// Adds one line, for which memory is asked once.
    pub fn add_line(&mut self, mark: &[u8], text: &[u8]) -> Result<(), NoMemory>
        requires { length mark.now ≡ 1 }
        ensures { OnOk result (self.new ≡ self.old ++ (mark.now ++ text.now ++ crlf)) }
    {
        self.tail.reserve(text.len() + 3)?;
        self.tail.extend_from_slice(mark)?;
        self.tail.extend_from_slice(text)?;
        self.tail.extend_from_slice(b"\r\n")?;
        Ok(())
    }

    /// Adds a byte string with its length in front.
    pub fn add_bulk(&mut self, bytes: &[u8]) -> Result<(), NoMemory>
        ensures { OnOk result (self.new ≡ self.old ++ encoding_of (Bulk bytes.now)) }
    {
        encode_bulk(bytes, &mut self.tail)
    }

    /// Adds an error's line.
    pub fn add_error(&mut self, error: &ErrorText) -> Result<(), NoMemory>
        ensures { OnOk result (self.new ≡ self.old ++ encoding_of (ErrorReply error.now)) }
    {
        encode_error(error, &mut self.tail)
    }

    /// Moves a byte string in as a buffer of its own.
    pub fn push(&mut self, alloc: Global, bin: Bin) -> Result<(), NoMemory>
        ensures ok { OnOk result (self.new ≡ self.old ++ bin) }
        ensures err { OnErr result (self.new ≡ self.old) }
    {
        let Some(kept_len) = sum(self.kept_len, self.tail.len(), bin.len()) else {
            return Err(NoMemory);
        };
        self.kept.reserve(2)?;
        let before = mem::replace(&mut self.tail, Vec::new(alloc));
        self.kept.push_reserved(Bin::from_vec(before));
        self.kept.push_reserved(bin);
        self.kept_len = kept_len;
        Ok(())
    }

    /// Bytes from this place on: at least one, where there is one.
    pub fn run(&self, from: usize) -> &[u8]
        ensures front { IsFront (drop from self.now) result.now }
        ensures goes_on { from < length self.now → 0 < length result.now }
    {
        let mut at = from;
        'kept: for bin in self.kept.as_slice() {
            if at < bin.len() {
                return &bin.as_slice()[at..];
            }
            at -= bin.len();
        }
        if at < self.tail.len() {
            return &self.tail.as_slice()[at..];
        }
        &[]
    }

    /// Appends all bytes. Takes no memory.
    pub fn append_to(&self, to: &mut Vec<u8>)
        requires { vec_len to.old + length self.now ≤ vec_capacity to.old }
        ensures { to.new.items ≡ to.old.items ++ self.now }
    {
        'kept: for bin in self.kept.as_slice() {
            append(bin.as_slice(), to);
        }
        append(self.tail.as_slice(), to);
    }
}

fn append(bytes: &[u8], to: &mut Vec<u8>)
    requires { vec_len to.old + length bytes.now ≤ vec_capacity to.old }
    ensures items { to.new.items ≡ to.old.items ++ bytes.now }
    ensures len { vec_len to.new ≡ vec_len to.old + length bytes.now }
    ensures capacity { vec_capacity to.old ≤ vec_capacity to.new }
{
    match to.extend_from_slice(bytes) {
        Ok(()) => {}
        Err(_) => unreachable!(),
    }
}

/// The three lengths together, where that is at most `MAX_KEPT`.
fn sum(a: usize, b: usize, c: usize) -> Option<usize>
    ensures { IfSome result (λ n. (n ≡ a + b + c) × (n ≤ 2 ^ 62)) }
{
    let n = a.checked_add(b)?.checked_add(c)?;
    if n <= MAX_KEPT { Some(n) } else { None }
}
