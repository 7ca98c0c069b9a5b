//! The laws of calls on shards, each the contract of a function that does nothing.

ghost use Rattle.df_core.specs.Laws.{CallsKeepTheLaws, CompleteCallsRest, DueIsOne, EventsKeepTheInvariant, LogsAreOneHistory, RunsAreInOrder, RunsAreOneHistory, SavesStandInTheHistory};

/// The serial order law: whatever happens in whatever order, the finished calls are those of one thread that takes
/// them in the order of their numbers, and each number is above all that its caller had seen.
pub fn serial()
    ensures legal { RunsAreOneHistory }
    ensures ordered { RunsAreInOrder }
{}

/// The scheduler invariant: every event keeps it, on every shard.
pub fn kept()
    ensures { EventsKeepTheInvariant }
{}

/// The serial order law of logs alone, and what a save wrote: the keyspace at its place in the history.
pub fn listed()
    ensures legal { LogsAreOneHistory }
    ensures saves { SavesStandInTheHistory }
{}

/// Every call keeps what the order law asks for.
pub fn calls_keep_the_laws()
    ensures { CallsKeepTheLaws }
{}

/// A call is complete where nothing is due any more, but that a command which ended behind its reads, for want of
/// memory, might have gone on.
pub fn complete_calls_rest()
    ensures { CompleteCallsRest }
{}

/// Whoever has seen more or less of a call agrees with the others on what a hop of it is.
pub fn due_is_one()
    ensures { DueIsOne }
{}
