//! Tests of what lies outside, one object at a time, each through its trait. There is nothing to call.
#![tactic(auto)]

#[cfg(test)]
mod connections;
#[cfg(test)]
mod files;
#[cfg(test)]
mod memory;
#[cfg(test)]
mod sockets;
