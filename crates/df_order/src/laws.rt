//! Laws of the order of calls, each the contract of a function that does nothing.

ghost use Rattle.df_order.specs.Model.{Model, Laws};
ghost use Rattle.df_order.specs.Counters.{counters};
ghost use Rattle.df_order.specs.Laws.{RecordedLegal, ItemsRise, NumbersStand, LogsSort, KeptAtFirst, KeptByEnqueue, KeptByLeave, KeptByEnter, KeptByHop, KeptAtOnce, KeptByLearning, RanIsGreatest, FreeIsApart, TurnIsApart, WaitingIsApart, StagedIsOwn};

/// Some commands, told by a model. A law that is generic over this is one of every model.
pub trait Commands {
    /// The commands as the laws see them.
    ghost model: { Model };
}

/// Logs in order, with all hops of each call and what they were told, are those of one thread that takes
/// the calls in the order of their numbers.
pub fn recorded_logs_are_one_history<C: Commands>()
    ensures legal { RecordedLegal C.model }
    ensures rising { ItemsRise C.model }
{}

/// The keyspace at a number is what the items below it leave, whatever ran before them on the shards.
pub fn numbers_stand_in_the_history<C: Commands>()
    ensures { NumbersStand C.model }
{}

/// A log in order does the same sorted by number.
pub fn logs_in_order_sort<C: Commands>()
    ensures { LogsSort C.model }
{}

/// A shard where nobody waits and nothing ran keeps the shard's invariant.
pub fn first_shard_is_kept<C: Commands>()
    ensures { KeptAtFirst C.model }
{}

/// So does one where a call comes to wait.
pub fn waiting_keeps_a_shard<C: Commands>()
    ensures { KeptByEnqueue C.model }
{}

/// So does one that a call leaves, after its last hop or without any.
pub fn leaving_keeps_a_shard<C: Commands>()
    ensures { KeptByLeave C.model }
{}

/// So does one where a hop runs that has its place in the order, as the next hop of a waiting call has in
/// its turn.
pub fn hops_keep_a_shard<C: Commands>()
    ensures in_order { KeptByEnter C.model }
    ensures in_turn { KeptByHop C.model }
{}

/// So does one where a call runs without waiting.
pub fn running_at_once_keeps_a_shard<C: Commands>()
    ensures { KeptAtOnce C.model }
{}

/// So does one of which further calls become known.
pub fn learning_calls_keeps_a_shard<C: Commands>()
    ensures { KeptByLearning C.model }
{}

/// Who can't conflict on a shard, while its invariant holds.
pub fn kept_shards_know_who_conflicts<C: Commands>()
    ensures ran { RanIsGreatest C.model }
    ensures free { FreeIsApart C.model }
    ensures turn { TurnIsApart C.model }
    ensures waiting { WaitingIsApart C.model }
{}

/// While it holds, what is staged for a number is its call's to write.
pub fn staged_is_its_calls<C: Commands>()
    ensures { StagedIsOwn C.model }
{}

/// Counters on two shards: a small model, so that the laws are known to be met.
pub struct Counters;

impl Commands for Counters {
    ghost model = { counters };
}

/// Calls that add to one counter keep the laws that every model owes.
pub fn counters_keep_the_laws()
    ensures { Laws counters }
{}
