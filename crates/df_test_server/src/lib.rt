//! The tests of df_server, whole runs through its public call.
#![tactic(auto)]

#[cfg(test)]
mod pipe;
#[cfg(test)]
mod rows;
