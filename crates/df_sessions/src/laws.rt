//! Laws of the definitions, each the contract of a function that does nothing.

ghost use Rattle.df_sessions.specs.AllSessions.{PromisesAList};

/// What a room promises is one list for its sessions.
pub fn promises_a_list()
    ensures { PromisesAList }
{}
