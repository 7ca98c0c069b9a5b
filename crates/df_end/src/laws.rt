//! The laws of the end, each the contract of a function that does nothing.

ghost use Rattle.df_end.specs.Rounds.{CallsBegin, CallsEnd, DrawsKeepTheBound, ItemsGoOn, RoundsAreSeen, SessionsGoOn, TicketsKeepTheBound};
ghost use Rattle.df_end.specs.ShardSteps.{ArmedHasRoom, HopsAreFresh, ShardsLetGo, ShardsLetWait, ShardsNote, ShardsRunAtOnce, ShardsRunInTurn, ShardsTakeTickets, StagedStaysOwn};
ghost use Rattle.df_end.specs.Asked.{AnswersAreDue};
ghost use Rattle.df_end.specs.Laws.{CallsStay, EndsKeepThePromise, LobbiesBegin, LobbyTakesIn, OneSessionIsNumbered, SessionsBegin, ShardsBegin, ShardsEnd};

/// What the sessions, the shards and the closed book leave keeps the promise.
pub fn ends_keep_the_promise()
    ensures { EndsKeepThePromise }
{}

/// Where one session is all, its list may be numbered by place.
pub fn one_session_is_numbered()
    ensures { OneSessionIsNumbered }
{}

/// A call that ended stays so while its caller goes on.
pub fn calls_stay()
    ensures { CallsStay }
{}

/// The lobby takes a session in by the book's join.
pub fn lobby_takes_in()
    ensures { LobbyTakesIn }
{}

/// A shard where nobody waits may hand its pass out.
pub fn shards_end()
    ensures { ShardsEnd }
{}

/// The records hold at first: of the first pass, of a pass that is split off for a session, and of a new shard.
pub fn runs_begin()
    ensures lobby { LobbiesBegin }
    ensures sessions { SessionsBegin }
    ensures shards { ShardsBegin }
{}

/// A number that was just drawn has no entry, and the bound of entries by tickets stays.
pub fn calls_begin()
    ensures begun { CallsBegin }
    ensures draws { DrawsKeepTheBound }
    ensures tickets { TicketsKeepTheBound }
{}

/// After a round of hops, the entries that a caller has seen of a call are those of before and those of the answers.
pub fn rounds_are_seen()
    ensures { RoundsAreSeen }
{}

/// What a call leaves that ended, or that never ran.
pub fn calls_end()
    ensures { CallsEnd }
{}

/// A session goes on by a call.
pub fn sessions_go_on()
    ensures holds { SessionsGoOn }
    ensures items { ItemsGoOn }
{}

/// What a shard keeps holds on where it takes a ticket, and where calls come to wait and leave.
pub fn shards_let_calls_wait()
    ensures tickets { ShardsTakeTickets }
    ensures waits { ShardsLetWait }
    ensures leaves { ShardsLetGo }
{}

/// And where a hop runs, in its turn or at once, or a note is entered; the book has room for each armed hop.
pub fn shards_run_calls()
    ensures in_turn { ShardsRunInTurn }
    ensures at_once { ShardsRunAtOnce }
    ensures notes { ShardsNote }
    ensures room { ArmedHasRoom }
    ensures fresh { HopsAreFresh }
    ensures staged { StagedStaysOwn }
{}

/// An answer's part is the one that its caller asked for, however much more or less its shard had seen of the call.
pub fn answers_are_due()
    ensures { AnswersAreDue }
{}
