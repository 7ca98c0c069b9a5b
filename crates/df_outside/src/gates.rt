//! Gates, which a shard passes while a command runs on it.

/// Told of each step of a call, and only that: it sees nothing of the step and changes nothing.
pub trait Gate: Sync {
    /// Called once in each callback: on this shard, for the call of this number.
    fn pass(&self, shard: u32, number: u64);
}

/// The gate of a server that runs: it does nothing.
#[derive(Clone, Copy, Debug)]
pub struct NoGate;

impl Gate for NoGate {
    fn pass(&self, _shard: u32, _number: u64) {}
}
