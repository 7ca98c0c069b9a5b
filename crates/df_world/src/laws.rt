//! Laws of a world, each the contract of a function that does nothing.

ghost use Rattle.df_world.specs.Laws.{FirstIsSound, EventsKeepSound, EventsKeepInvariant, RunsKeepInvariant, RunsAreLegal, ListsRise, RunsAreSeen};
ghost use Rattle.df_world.specs.Example.{BothRun};
ghost use Rattle.df_order.specs.Counters.{counters};

use df_order::Commands;
use df_order::laws::Counters;

/// A world without calls is sound.
pub fn first_world_is_sound<C: Commands>()
    ensures { FirstIsSound C.model }
{}

/// Every event keeps a world sound, and so the scheduler invariant on each shard.
pub fn events_keep_a_world_sound<C: Commands>()
    ensures sound { EventsKeepSound C.model }
    ensures invariant { EventsKeepInvariant C.model }
{}

/// The scheduler invariant holds on each shard at each moment of a run.
pub fn runs_keep_the_invariant<C: Commands>()
    ensures { RunsKeepInvariant C.model }
{}

/// Whatever happened in whatever order, the finished calls are those of one thread, in the order of their
/// numbers.
pub fn runs_are_one_history<C: Commands>()
    ensures legal { RunsAreLegal C.model }
    ensures rising { ListsRise C.model }
{}

/// Each number is above all that its caller had seen.
pub fn numbers_are_above_what_was_seen<C: Commands>()
    ensures { RunsAreSeen C.model }
{}

/// Events do happen: two calls on one counter come, wait, run in their turn and leave.
pub fn two_calls_run()
    ensures { BothRun }
{}

/// A crate that has commands gets a law of them by one call, as here for the counters of df_order.
pub fn counters_are_one_history()
    ensures { RunsAreLegal counters }
{
    runs_are_one_history::<Counters>()
}
