//! A source in memory, which gives bytes in pieces and fails where it is told to.

ghost use Rattle.std.specs.Prelude.{◌≡◌, ◌<◌, ◌++◌, length};
ghost use Rattle.std.specs.List.{concat};
ghost use Rattle.df_outside.specs.FaultPlans.{IsQuiet};
ghost use Rattle.df_outside.specs.MemSources.{source_of, inflow_of, HasGiven};
ghost use Rattle.df_outside.specs.Streams.{Reads};

use crate::fault_plan::FaultPlan;
use crate::pieces::Pieces;
use crate::{Got, Source};
use df_model::Bins;
use std::marker::Model;

/// Gives the bytes of its pieces in order, at each read as many of one piece as the buffer takes;
/// empty pieces are passed over. Once it said End, it says so for ever.
#[derive(Debug, Drop)]
pub struct MemSource {
    pieces: Pieces,
    ended: bool,
    plan: FaultPlan,
}

impl Model for MemSource {
    ghost use Rattle.std.specs.Prelude.{◌≡◌, [], true};
    ghost use Rattle.df_outside.specs.MemSources.{SourceState};

    ghost Value = { SourceState };

    ghost view = { λ s. record { cut = s.pieces; ended = s.ended; plan = s.plan } };

    ghost invariant = { λ s. s.ended ≡ true → s.pieces.left ≡ [] };
}

impl MemSource {
    /// `fails` names the reads that are to fail, counted from 0.
    pub fn new(pieces: Bins, fails: Vec<u64>) -> MemSource
        ensures state { result ≡ source_of pieces.items fails.items }
        ensures whole { concat result.cut.left ≡ concat pieces.items }
    {
        MemSource {
            pieces: Pieces::new(pieces),
            ended: false,
            plan: FaultPlan::new(fails),
        }
    }
}

impl Source for MemSource {
    ghost inflow = { inflow_of };

    fn read(&mut self, buf: &mut [u8]) -> Got
        requires { 0 < length buf.old }
        ensures reads { Reads result (inflow_of self.old) (inflow_of self.new) buf.new }
        ensures state { HasGiven result self.old self.new buf.old buf.new }
        ensures whole { self.new.cut.taken ++ concat self.new.cut.left ≡ self.old.cut.taken ++ concat self.old.cut.left }
        ensures quiet { IsQuiet self.old.plan self.new.plan }
    {
        if self.ended {
            return Got::End;
        }
        if self.plan.fails_now() {
            return Got::Failed;
        }
        match self.pieces.take(buf) {
            0 => {
                self.ended = true;
                Got::End
            }
            count => Got::Took(count),
        }
    }
}
