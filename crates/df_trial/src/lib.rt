//! A trial of the parts that shards will be made of: a scripted run of two shards, as a test. There is nothing to call.
#![tactic(auto)]

#[cfg(test)]
mod shard;
#[cfg(test)]
mod store;
#[cfg(test)]
mod tests;
