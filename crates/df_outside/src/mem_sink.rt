//! A sink in memory, which keeps what was written to it and fails where it is told to.

ghost use Rattle.std.specs.Prelude.{◌≡◌, ◌<◌, length};
ghost use Rattle.df_outside.specs.FaultPlans.{IsQuiet};
ghost use Rattle.df_outside.specs.MemSinks.{sink_of, outflow_of, HasWritten};
ghost use Rattle.df_outside.specs.Streams.{Writes};

use crate::fault_plan::FaultPlan;
use crate::{Put, Sink};
use std::alloc::Global;
use std::marker::Model;

/// Takes each piece as a whole, or nothing of it.
#[derive(Debug, Drop)]
pub struct MemSink {
    bytes: Vec<u8>,
    plan: FaultPlan,
}

impl Model for MemSink {
    ghost use Rattle.df_outside.specs.MemSinks.{SinkState};

    ghost Value = { SinkState };

    ghost view = { λ s. record { written = s.bytes.items; plan = s.plan } };
}

impl MemSink {
    /// `fails` names the writes that are to fail, counted from 0.
    pub fn new(alloc: Global, fails: Vec<u64>) -> MemSink
        ensures { result ≡ sink_of fails.items }
    {
        MemSink {
            bytes: Vec::new(alloc),
            plan: FaultPlan::new(fails),
        }
    }

    /// All bytes that were written.
    pub fn written(&self) -> &[u8]
        ensures { result.now ≡ self.now.written }
    {
        self.bytes.as_slice()
    }
}

impl Sink for MemSink {
    ghost outflow = { outflow_of };

    fn write(&mut self, piece: &[u8]) -> Put
        requires { 0 < length piece.now }
        ensures writes { Writes result (outflow_of self.old) (outflow_of self.new) piece.now }
        ensures state { HasWritten result self.old self.new piece.now }
        ensures quiet { IsQuiet self.old.plan self.new.plan }
    {
        if self.plan.fails_now() {
            return Put::Failed;
        }
        match self.bytes.extend_from_slice(piece) {
            Ok(()) => Put::Took(piece.len()),
            Err(_) => Put::NoMemory,
        }
    }
}
