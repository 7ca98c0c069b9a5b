//! A link in memory, which gives what arrives in its order and fails where it is told to.

ghost use Rattle.std.specs.Prelude.{◌≡◌, ◌<◌, length};
ghost use Rattle.df_outside.specs.FaultPlans.{IsQuiet};
ghost use Rattle.df_outside.specs.Links.{LinkReads, LinkWrites};
ghost use Rattle.df_outside.specs.MemLinks.{link_of, flow_of, HasGiven, HasWritten};

use crate::arrivals::{Arrival, Arrivals};
use crate::fault_plan::FaultPlan;
use crate::{Got, Link, Put};
use std::alloc::Global;
use std::marker::Model;

/// Gives its arrivals in order, at each read as many bytes of one arrival as the buffer takes. After the
/// last it says End, for ever. It takes each piece that is written as a whole, or nothing of it.
#[derive(Debug, Drop)]
pub struct MemLink {
    arrivals: Arrivals,
    bytes: Vec<u8>,
    ended: bool,
    reads: FaultPlan,
    writes: FaultPlan,
    waits: u64,
}

impl Model for MemLink {
    ghost use Rattle.df_outside.specs.MemLinks.{LinkState};

    ghost Value = { LinkState };

    ghost view = { λ l. record { arrivals = l.arrivals; written = l.bytes.items; ended = l.ended; reads = l.reads; writes = l.writes; waits = l.waits } };
}

impl MemLink {
    /// `reads` and `writes` name the reads and the writes that are to fail, each counted from 0.
    pub fn new(alloc: Global, arrivals: Vec<Arrival>, reads: Vec<u64>, writes: Vec<u64>) -> MemLink
        ensures { result ≡ link_of arrivals.items reads.items writes.items }
    {
        MemLink {
            arrivals: Arrivals::new(arrivals),
            bytes: Vec::new(alloc),
            ended: false,
            reads: FaultPlan::new(reads),
            writes: FaultPlan::new(writes),
            waits: 0,
        }
    }

    /// All bytes that were written.
    pub fn written(&self) -> &[u8]
        ensures { result.now ≡ self.now.written }
    {
        self.bytes.as_slice()
    }
}

impl Link for MemLink {
    ghost flow = { flow_of };

    fn read(&mut self, buf: &mut [u8]) -> Got
        requires { 0 < length buf.old }
        ensures reads { LinkReads result (flow_of self.old) (flow_of self.new) buf.new }
        ensures state { HasGiven result self.old self.new buf.old buf.new }
        ensures quiet { IsQuiet self.old.reads self.new.reads }
    {
        if self.ended {
            return Got::End;
        }
        if self.reads.fails_now() {
            return Got::Failed;
        }
        let got = self.arrivals.take(buf);
        match got {
            Got::End => self.ended = true,
            Got::NotYet => self.waits = self.waits.saturating_add(1),
            Got::Took(_) | Got::Failed | Got::NoMemory => {}
        }
        got
    }

    fn write(&mut self, piece: &[u8]) -> Put
        requires { 0 < length piece.now }
        ensures writes { LinkWrites result (flow_of self.old) (flow_of self.new) piece.now }
        ensures state { HasWritten result self.old self.new piece.now }
        ensures quiet { IsQuiet self.old.writes self.new.writes }
    {
        if self.writes.fails_now() {
            return Put::Failed;
        }
        match self.bytes.extend_from_slice(piece) {
            Ok(()) => Put::Took(piece.len()),
            Err(_) => Put::NoMemory,
        }
    }

    /// A link in memory has nothing to let go of.
    fn close(&mut self) {}
}
