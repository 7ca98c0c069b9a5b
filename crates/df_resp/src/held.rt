//! What came on a connection and isn't given yet, as bytes.
//!
//! Pieces are added to a buffer. Once a word is whole there, all of it is frozen with no copy, and each
//! word is a slice of the frozen bytes. What is left of them when the next piece comes is copied back to the
//! buffer.
//!
//! What if a long word comes in many pieces? Its first part is copied back once. From then on it isn't
//! frozen before it is whole, and the buffer grows in place.
//! What if a piece comes before all whole words were taken? All that is left is copied, so a reader had
//! better be fed only once it answered NeedMore.

ghost use Rattle.std.specs.Prelude.{◌≡◌, ◌+◌, ◌-◌, ◌<◌, ◌≤◌, [], ◌++◌, length, take, drop, IfOk, OnOk, OnErr};

use bytes::{Bytes, BytesMut};
use df_model::NoMemory;
use std::alloc::Global;
use std::marker::Model;

/// Bytes of room that a new block has behind the piece that it is made for. So the end of a batch that is
/// longer than one piece finds room in the same block.
const ROOM_BEHIND: usize = 16384;

/// Bytes in order: they are added at the end and taken from the front.
#[derive(Drop)]
pub struct Held {
    /// Frozen bytes, from which words are cut.
    front: Bytes,
    /// What came since.
    buffer: BytesMut,
}

impl Model for Held {
    ghost use Rattle.std.specs.Prelude.{List, ℕ, ◌≡◌, ◌<◌, [], ◌++◌, length};

    ghost Value = { List ℕ };

    ghost view = { λ h. h.front ++ h.buffer.items };

    // Only one of them has bytes, so that what is looked at stands in one place.
    ghost invariant = { λ h. 0 < length h.front → h.buffer.items ≡ [] };
}

impl Held {
    /// No bytes. Takes no memory.
    pub fn new(alloc: Global) -> Held
        ensures { result ≡ [] }
    {
        Held {
            front: Bytes::new(),
            buffer: BytesMut::new(alloc),
        }
    }

    pub fn len(&self) -> usize
        ensures { result ≡ length self.now }
    {
        self.front.len() + self.buffer.len()
    }

    pub fn as_slice(&self) -> &[u8]
        ensures { result.now ≡ self.now }
    {
        if self.front.is_empty() {
            return self.buffer.as_slice();
        }
        self.front.as_slice()
    }

    /// Adds bytes.
    pub fn add(&mut self, piece: &[u8]) -> Result<(), NoMemory>
        ensures ok { OnOk result (self.new ≡ self.old ++ piece.now) }
        ensures err { OnErr result (self.new ≡ self.old) }
    {
        if !self.front.is_empty() {
            let alloc = *self.buffer.allocator();
            return thaw(alloc, &mut self.front, &mut self.buffer, piece);
        }
        // It lets its block go, so that the buffer can take the room back.
        self.front = Bytes::new();
        append(&mut self.buffer, piece)
    }

    /// Drops the first bytes.
    pub fn advance(&mut self, count: usize)
        requires { count ≤ length self.old }
        ensures { self.new ≡ drop count self.old }
    {
        if self.front.is_empty() {
            self.buffer.advance(count);
        } else {
            self.front.advance(count);
        }
    }

    /// Lets its memory go, where there are no bytes.
    pub fn shrink(&mut self)
        ensures { self.new ≡ self.old }
    {
        if self.len() == 0 {
            let alloc = *self.buffer.allocator();
            *self = Held::new(alloc);
        }
    }

    /// Takes the first bytes up to `used`, and gives of them the word of `n` bytes that ends two bytes
    /// before.
    pub fn cut(&mut self, n: usize, used: usize) -> Result<Bytes, NoMemory>
        requires room { n + 2 < used }
        requires within { used ≤ length self.old }
        ensures word { IfOk result (λ word. word ≡ take n (drop (used - n - 2) self.old)) }
        ensures rest { OnOk result (self.new ≡ drop used self.old) }
        ensures err { OnErr result (self.new ≡ self.old) }
    {
        freeze(&mut self.front, &mut self.buffer)?;
        let at = used - n - 2;
        let word = self.front.slice(at..at + n)?;
        self.front.advance(used);
        Ok(word)
    }
}

/// Makes all bytes the frozen ones. No byte is copied.
fn freeze(front: &mut Bytes, buffer: &mut BytesMut) -> Result<(), NoMemory>
    requires one { 0 < length front.old → buffer.old.items ≡ [] }
    ensures same { front.new ++ buffer.new.items ≡ front.old ++ buffer.old.items }
    ensures one { 0 < length front.new → buffer.new.items ≡ [] }
    ensures ok { OnOk result (buffer.new.items ≡ []) }
{
    if front.is_empty() {
        let len = buffer.len();
        *front = buffer.freeze_to(len)?;
    }
    Ok(())
}

/// Adds a piece behind the bytes of the buffer.
fn append(buffer: &mut BytesMut, piece: &[u8]) -> Result<(), NoMemory>
    ensures ok { OnOk result (buffer.new.items ≡ buffer.old.items ++ piece.now) }
    ensures err { OnErr result (buffer.new.items ≡ buffer.old.items) }
{
    if buffer.capacity() - buffer.len() < piece.len() {
        buffer.reserve(piece.len() + ROOM_BEHIND)?;
    }
    buffer.extend_from_slice(piece)?;
    Ok(())
}

/// Copies the frozen bytes back to the buffer, and adds a piece behind them.
fn thaw(
    alloc: Global,
    front: &mut Bytes,
    buffer: &mut BytesMut,
    piece: &[u8],
) -> Result<(), NoMemory>
    requires empty { buffer.old.items ≡ [] }
    ensures ok { OnOk result ((front.new ≡ []) × (buffer.new.items ≡ front.old ++ piece.now)) }
    ensures err { OnErr result ((front.new ≡ front.old) × (buffer.new.items ≡ [])) }
{
    let len = front.len() + piece.len();
    if buffer.capacity() < len {
        // Words of their block are in use, mostly of the request that was cut. A vector of this length isn't
        // filled with zeros first, as more room of the buffer would be.
        let mut joined = Vec::with_capacity(alloc, len)?;
        joined.extend_from_slice(front.as_slice())?;
        joined.extend_from_slice(piece)?;
        *buffer = BytesMut::from_vec(joined);
    } else {
        buffer.extend_reserved(front.as_slice());
        buffer.extend_reserved(piece);
    }
    *front = Bytes::new();
    Ok(())
}
