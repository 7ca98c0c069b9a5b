//! The tests of the crates that write and read files, through their public calls.
#![tactic(auto)]

#[cfg(test)]
mod cursor;
#[cfg(test)]
mod loader;
#[cfg(test)]
mod writer;
