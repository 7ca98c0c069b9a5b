//! Who holds what, as a list that only clauses see: of any length in one word of memory.

ghost use Rattle.std.specs.Prelude.{◌≡◌, ◌∷◌, []};

use df_model::Keys;
use std::marker::Model;
use std::snapshot::Snapshot;

/// The holders, the last that took its intents first.
#[cycle(trail)]
#[derive(Drop)]
pub(crate) struct Trail {
    last: Step,
}

/// A snapshot has no bytes, so what came before isn't kept.
#[cycle(trail)]
#[derive(Drop)]
enum Step {
    None,
    Took(Snapshot<Trail>, Snapshot<u64>, Snapshot<Keys>),
    Released(Snapshot<Trail>, Snapshot<u64>),
}

impl Model for Trail {
    ghost use Rattle.std.specs.Prelude.{ℕ, List};
    ghost use Rattle.df_intents.specs.Trails.{Trailed};

    ghost Value = { Trailed };

    ghost use Rattle.df_intents.specs.Steps.{trailed_of};

    ghost view = { λ t. trailed_of t.last };

    ghost size = { λ t. t.steps };

    ghost use Rattle.std.proofs.Common.{arith};

    ghost size_decreases = { λ p h. Prim.grind arith };
}

impl Trail {
    ghost use Rattle.df_intents.specs.Holders.{without};

    pub(crate) fn new() -> Trail
        ensures { result.holders ≡ [] }
    {
        Trail { last: Step::None }
    }

    pub(crate) fn take(&mut self, number: u64, keys: &Keys)
        ensures { self.new.holders ≡ record { number = number; keys = keys.now } ∷ self.old.holders }
    {
        let before = Snapshot::of(self);
        self.last = Step::Took(before, Snapshot::of(&number), Snapshot::of(keys));
    }

    pub(crate) fn release(&mut self, number: u64)
        ensures { self.new.holders ≡ without number self.old.holders }
    {
        let before = Snapshot::of(self);
        self.last = Step::Released(before, Snapshot::of(&number));
    }
}
