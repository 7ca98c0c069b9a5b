//! The value of a string: bytes, and room for more.

ghost use Rattle.std.specs.Prelude.{◌≡◌, ◌+◌, ◌≤◌, ◌++◌, [], length, IfOk, IsTrue, ◌↔◌, OnOk};
ghost use Rattle.df_model.specs.Meaning.Strings.{overwritten};

use df_model::{Bin, NoMemory, Text};
use std::alloc::Global;
use std::marker::Model;

/// A byte string, and room for further bytes: a short one stands in place. Contracts see the bytes and for how
/// many more there is room.
#[derive(Debug, Drop)]
pub struct StrVal {
    text: Text,
}

impl Model for StrVal {
    ghost use Rattle.std.specs.Prelude.{ℕ};
    ghost use Rattle.std.specs.Coded.{coded_ℕ};
    ghost use Rattle.df_model.specs.Spared.{Spared, spared_code};

    ghost Value = { Spared ℕ };

    ghost coded = { spared_code coded_ℕ };

    ghost view = { λ s. s.text };
}

impl StrVal {
    /// The empty string. Takes no memory.
    pub fn new() -> StrVal
        ensures { result.items ≡ [] }
    {
        StrVal { text: Text::new() }
    }

    /// The bytes of a key or a word. Takes no memory.
    pub fn from_bin(bin: Bin) -> StrVal
        ensures { result.items ≡ bin }
    {
        StrVal {
            text: bin.into_text(),
        }
    }

    /// The bytes, lent.
    pub fn as_slice(&self) -> &[u8]
        ensures { result.now ≡ self.now.items }
    {
        self.text.as_slice()
    }

    /// How many bytes there are.
    pub fn len(&self) -> usize
        ensures { result ≡ length self.now.items }
    {
        self.text.len()
    }

    /// Whether there are none.
    pub fn is_empty(&self) -> bool
        ensures { IsTrue result ↔ (self.now.items ≡ []) }
    {
        self.text.is_empty()
    }

    /// Makes room for `count` bytes more, and for some beyond, so that a string which grows byte by byte is
    /// seldom moved.
    pub fn reserve(&mut self, alloc: Global, count: usize) -> Result<(), NoMemory>
        ensures items { self.new.items ≡ self.old.items }
        ensures spare { self.old.spare ≤ self.new.spare }
        ensures ok { OnOk result (count ≤ self.new.spare) }
    {
        self.text.reserve(alloc, count)
    }

    /// Adds bytes at the end. Takes no memory.
    pub fn append(&mut self, more: &[u8])
        requires { length more.now ≤ self.old.spare }
        ensures items { self.new.items ≡ self.old.items ++ more.now }
        ensures spare { self.old.spare ≤ self.new.spare + length more.now }
    {
        self.text.append(more)
    }

    /// Writes bytes over those from this place on; zero bytes fill up to it. Takes no memory.
    pub fn write_at(&mut self, at: usize, new: &[u8])
        requires { at + length new.now ≤ length self.old.items + self.old.spare }
        ensures { self.new.items ≡ overwritten at new.now self.old.items }
    {
        self.text.write_at(at, new)
    }

    /// The same bytes in memory of their own.
    pub fn copy(&self, alloc: Global) -> Result<StrVal, NoMemory>
        ensures { IfOk result (λ copy. copy.items ≡ self.now.items) }
    {
        Ok(StrVal {
            text: self.text.copy(alloc)?,
        })
    }
}
