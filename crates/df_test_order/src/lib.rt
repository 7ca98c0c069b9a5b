//! The tests of df_intents, df_txqueue, df_book and df_shardqueue, through their public calls.
#![tactic(auto)]

#[cfg(test)]
mod book;
#[cfg(test)]
mod intents;
#[cfg(test)]
mod shardqueue;
#[cfg(test)]
mod txqueue;
