//! Byte strings, and the error of every call that may find no memory.

ghost use Rattle.std.specs.Prelude.{◌≡◌, IfOk, IsTrue, ◌↔◌, [], length, Some, refl, nat_eq};
ghost use Rattle.std.specs.Ordering.{nat_cmp};
ghost use Rattle.std.specs.Cmp.Lexicographic.{pointwise, slice_cmp, nat_list_eq_equiv, nat_list_cmp_total, texts_ties, texts_po};
ghost use Rattle.std.specs.Cmp.{partial_equiv_from_equiv};

use crate::Text;
use std::alloc::{AllocError, AllocFailed, Global};
use std::cmp::Ordering;
use std::hash::{Hash, Hasher};
use std::marker::Model;
use std::mem;

/// Memory ran out. A call that answers it leaves what it was lent as before, unless its page says
/// otherwise.
#[derive(Clone, Copy, Debug, PartialEq, Eq)]
pub struct NoMemory;

impl From<AllocError> for NoMemory {
    fn from(_: AllocError) -> Self {
        NoMemory
    }
}

impl<T: Drop> From<AllocFailed<T>> for NoMemory {
    fn from(_: AllocFailed<T>) -> Self {
        NoMemory
    }
}

/// A byte string: a key, a word of a request, a stored string. Contracts see its list of bytes,
/// and its order and equality are those of the bytes. Up to `IN_PLACE` bytes have no memory of their own.
#[derive(Debug, Drop)]
pub struct Bin {
    text: Text,
}

impl Model for Bin {
    ghost use Rattle.std.specs.Prelude.{List, ℕ};

    ghost Value = { List ℕ };

    ghost view = { λ b. b.text.items };
}

impl Bin {
    /// No bytes. Takes no memory.
    pub fn new() -> Bin
        ensures { result ≡ [] }
    {
        Bin { text: Text::new() }
    }

    /// A copy of the bytes.
    pub fn from_slice(alloc: Global, bytes: &[u8]) -> Result<Bin, NoMemory>
        ensures { IfOk result (λ b. b ≡ bytes.now) }
    {
        let text = Text::from_slice(alloc, bytes)?;
        Ok(Bin { text })
    }

    /// The vector's bytes. Where they fit in place, its memory is freed. Takes no memory.
    pub fn from_vec(bytes: Vec<u8>) -> Bin
        ensures { result ≡ bytes.items }
    {
        Bin {
            text: Text::from_vec(bytes),
        }
    }

    /// The bytes with what room there is for more. Takes no memory.
    pub fn into_text(self) -> Text
        ensures { result.items ≡ self }
    {
        self.text
    }

    /// Moves the bytes out, so that none are left. Takes no memory.
    pub fn take(&mut self) -> Bin
        ensures taken { result ≡ self.old }
        ensures left { self.new ≡ [] }
    {
        mem::replace(self, Bin::new())
    }

    /// The bytes, lent.
    pub fn as_slice(&self) -> &[u8]
        ensures { result.now ≡ self.now }
    {
        self.text.as_slice()
    }

    /// How many bytes there are.
    pub fn len(&self) -> usize
        ensures { result ≡ length self.now }
    {
        self.text.len()
    }

    /// Whether there are none.
    pub fn is_empty(&self) -> bool
        ensures { IsTrue result ↔ (self.now ≡ []) }
    {
        self.text.is_empty()
    }

    /// The same bytes in memory of their own.
    pub fn copy(&self, alloc: Global) -> Result<Bin, NoMemory>
        ensures { IfOk result (λ b. b ≡ self.now) }
    {
        Bin::from_slice(alloc, self.as_slice())
    }
}

impl PartialEq for Bin {
    ghost eq = { pointwise nat_eq };

    ghost laws = { partial_equiv_from_equiv nat_list_eq_equiv };

    fn eq(&self, other: &Bin) -> bool {
        self.as_slice() == other.as_slice()
    }
}

impl Eq for Bin {
    ghost laws = { nat_list_eq_equiv };
}

impl PartialOrd for Bin {
    ghost partial_cmp = { λ x y. Some (slice_cmp nat_cmp x y) };

    ghost laws = { texts_po };

    fn partial_cmp(&self, other: &Bin) -> Option<Ordering> {
        Some(self.cmp(other))
    }
}

impl Ord for Bin {
    ghost cmp = { slice_cmp nat_cmp };

    ghost total = { nat_list_cmp_total };

    ghost matches_partial_cmp = { λ x y. refl };

    ghost matches_eq = { texts_ties };

    fn cmp(&self, other: &Bin) -> Ordering {
        self.as_slice().cmp(other.as_slice())
    }
}

/// All bytes in one write. A key stands alone, so that its length need not be hashed too.
impl Hash for Bin {
    ghost use Rattle.df_model.specs.Writes.{writes, same_writes};

    ghost hash_input = { writes };

    ghost respects_eq = { same_writes };

    fn hash<H: Hasher>(&self, state: &mut H) {
        state.write(self.as_slice());
    }
}
