//! The keys that a call asks for on a shard.

use crate::{Bin, Reserved};

/// How a key is asked for: to be read, or to be written too.
#[derive(Clone, Copy, Debug, PartialEq, Eq)]
pub enum Mode {
    Shared,
    Exclusive,
}

/// Keys with their modes, no key twice.
pub type KeyModes = Reserved<(Bin, Mode)>;

/// Some keys of a shard, or all of them in one mode.
#[derive(Debug, Drop)]
pub enum Keys {
    Some(KeyModes),
    All(Mode),
}
