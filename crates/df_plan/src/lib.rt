//! The commands of a call over shards, one after the other: a single command, or those of an EXEC under one number.
//!
//! Before the call's number is drawn, the memory of each command's first messages is taken. Once the call has its places on
//! all its shards, the commands run in turn: each in rounds, or at once where it names no key. What if a command finds no
//! memory? It is answered so, and the others run. What if there is none for the reply? They all run, and the reply is lost.
#![tactic(auto)]

mod plan;
mod replies;

pub use plan::Plan;
