//! The tests of the crates of values and commands, through their public calls.
#![tactic(auto)]

#[cfg(test)]
mod colls;
#[cfg(test)]
mod hashes;
#[cfg(test)]
mod list;
#[cfg(test)]
mod lists;
#[cfg(test)]
mod sets;
#[cfg(test)]
mod strings;
#[cfg(test)]
mod table;
#[cfg(test)]
mod values;
