//! The calls that were answered, which only clauses see: of any length in no memory.

ghost use Rattle.std.specs.Prelude.{◌≡◌, ◌++◌, ◌∷◌, []};

use crate::ran::Ran;
use std::marker::Model;
use std::snapshot::Snapshot;

/// The calls, the oldest first, each with the reply that it was given.
#[cycle(answered)]
#[derive(Drop)]
pub struct Answered {
    last: Last,
}

/// A snapshot has no bytes, so what came before isn't kept.
#[cycle(answered)]
#[derive(Drop)]
enum Last {
    None,
    After(Snapshot<Answered>, Ran),
}

impl Model for Answered {
    ghost use Rattle.std.specs.Prelude.{List, ℕ, length};
    ghost use Rattle.df_caller.specs.Told.{Told};
    ghost use Rattle.df_model.specs.contracts.reply.Reply as reply;
    ghost use Rattle.std.specs.Coded.{codes};

    ghost Value = { List Told };

    ghost coded = { Prim.hlevel (codes, reply.the_row.coded) };

    ghost use Rattle.df_desk.specs.Answered.{answered_in};

    ghost view = { λ a. answered_in a.last };

    ghost size = { length };

    ghost use Rattle.std.proofs.Common.{arith, length-append};

    ghost size_decreases = { λ a h. Prim.grind (arith, length-append) };
}

impl Answered {
    /// Takes no memory.
    pub fn new() -> Answered
        ensures { result ≡ [] }
    {
        Answered { last: Last::None }
    }

    /// One more call was answered. Takes no memory.
    pub(crate) fn push(&mut self, ran: Ran)
        ensures { self.new ≡ self.old ++ ran ∷ [] }
    {
        let before = Snapshot::of(self);
        self.last = Last::After(before, ran);
    }
}
