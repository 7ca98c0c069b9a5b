//! Which calls of an object in memory are to fail, and how many did.

ghost use Rattle.std.specs.Prelude.{◌≡◌, ◌≤◌, MatchBool};
ghost use Rattle.df_outside.specs.FaultPlans.{plan_of, fails_next, passed, failed, IsQuiet};

use std::marker::Model;

/// The plan of one object, and its counts of calls and of faults.
#[derive(Debug, Drop)]
pub(crate) struct FaultPlan {
    /// The numbers of the calls that are to fail, from 0, in any order.
    fails: Vec<u64>,
    /// Stays at its last value, as `faults` does.
    calls: u64,
    faults: u64,
}

impl Model for FaultPlan {
    ghost use Rattle.df_outside.specs.FaultPlans.{FaultPlan};

    ghost Value = { FaultPlan };

    ghost view = { λ p. record { fails = p.fails.items; calls = p.calls; faults = p.faults } };
}

impl FaultPlan {
    /// The calls with these numbers, from 0, are to fail.
    pub(crate) fn new(fails: Vec<u64>) -> FaultPlan
        ensures { result ≡ plan_of fails.items }
    {
        FaultPlan {
            fails,
            calls: 0,
            faults: 0,
        }
    }

    /// Counts a call, and its fault where the list names it.
    pub(crate) fn fails_now(&mut self) -> bool
        ensures named { result ≡ fails_next self.old }
        ensures counted { MatchBool result (self.new ≡ failed self.old) (self.new ≡ passed self.old) }
        ensures quiet { IsQuiet self.old self.new }
        ensures grows { self.old.faults ≤ self.new.faults }
    {
        let fails = self.fails.contains(&self.calls);
        self.calls = self.calls.saturating_add(1);
        if fails {
            self.faults = self.faults.saturating_add(1);
        }
        fails
    }
}
