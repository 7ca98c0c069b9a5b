//! A list of contents that only clauses see, of any length in one word of memory.

ghost use Rattle.std.specs.Prelude.{◌≡◌, ◌++◌, ◌∷◌, []};

use df_model::Bin;
use std::fmt::{self, Debug, Formatter, Write};
use std::marker::Model;
use std::snapshot::Snapshot;

/// The contents that were put in place of a file, the oldest first.
#[cycle(puts)]
#[derive(Drop)]
pub(crate) struct Puts {
    last: Last,
}

/// A snapshot has no bytes, so what came before isn't kept.
#[cycle(puts)]
#[derive(Drop)]
enum Last {
    None,
    Put(Snapshot<Puts>, Snapshot<Bin>),
}

impl Model for Puts {
    ghost use Rattle.std.specs.Prelude.{List, ℕ, length};

    ghost Value = { List (List ℕ) };

    ghost use Rattle.df_outside.specs.Contents.{contents_of};

    ghost view = { λ p. contents_of p.last };

    ghost size = { length };

    ghost use Rattle.std.proofs.Common.{arith, length-append};

    ghost size_decreases = { λ p h. Prim.grind (arith, length-append) };
}

impl Puts {
    /// No content was put in place. Takes no memory.
    pub(crate) fn new() -> Puts
        ensures { result ≡ [] }
    {
        Puts { last: Last::None }
    }

    /// This content was put in place after those before. Takes no memory.
    pub(crate) fn push(&mut self, content: &Bin)
        ensures { self.new ≡ self.old ++ content.now ∷ [] }
    {
        let before = Snapshot::of(self);
        self.last = Last::Put(before, Snapshot::of(content));
    }
}

// Nothing is there to be shown.
impl Debug for Puts {
    fn fmt<W: Write>(&self, f: &mut Formatter<W>) -> fmt::Result {
        f.write_str("Puts")
    }
}
