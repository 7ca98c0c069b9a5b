//! The laws of rounds, each the contract of a function that does nothing.

ghost use Rattle.std.specs.Prelude.{◌≡◌, ◌<◌, ℕ, false, is_some, true, Some, None};
ghost use Rattle.df_model.specs.Meaning.{meaning};
ghost use Rattle.df_model.specs.declared.command.Command.{Command};
ghost use Rattle.df_model.specs.declared.reply.Reply.{Reply};
ghost use Rattle.df_log.specs.Acts.{Act, Apply, Clear, Told, Unstage};
ghost use Rattle.df_core.specs.Courses.{Clears, Spread, changes_on};
ghost use Rattle.df_core.specs.Done.{want_of_memory};
ghost use Rattle.df_rounds.specs.Standing.{AskedIsDue, DueIsAsked, ListsGoOn, Once, Thrice, Twice, asks, first_asked, goes_on, hop_of, round_wanted, second_asked, stage_of, values_told};
ghost use Rattle.df_rounds.specs.Replies.{OverIsDone, StopIsDone, reply_of};
ghost use Rattle.df_rounds.specs.Progress.{CallsGive, CallsStart, CommandsGoOn, EndsLeave, NextIsDue, OverGoesOn, RoundsGoOn, SeenGoesOn, StopGoesOn};
ghost use Rattle.df_rounds.specs.Underway.{AnswersAreNew, RoundsBegin, RoundsEnd, RoundsSee, RoundsSend, RoundsTake};
ghost use Rattle.df_rounds.specs.Between.{AnswersAgree, CallsAreDrawn, CallsAsk, CallsDrawAgain, CallsGoRound, CallsLeave, CallsMove, CallsPass, CallsSee, TicketsAsk};

/// What a command asks of its shards next is due there, and nothing else is.
pub fn asked_is_due()
    ensures due { AskedIsDue }
    ensures only { DueIsAsked }
{}

/// A standing may be kept as a list for each round, with an answer for each shard.
pub fn lists_go_on()
    ensures { ListsGoOn }
{}

/// A command with keys on several shards changes all that it has to change, or nothing.
pub fn all_is_changed_or_nothing()
    // Where a read found no memory, nothing is staged, and the reply says so.
    ensures unread { (shards : ℕ) (command : Command) (a : ℕ → Told) (s : ℕ) → round_wanted shards (first_asked shards command Spread) a ≡ true → asks shards command Spread (Once a) s ≡ None }
    ensures unread_reply { (shards : ℕ) (command : Command) (saved : Reply) (a : ℕ → Told) → round_wanted shards (first_asked shards command Spread) a ≡ true → reply_of shards command Spread saved (Once a) ≡ want_of_memory }

    // Else each shard is asked to stage what changes there, if anything does, and where nothing does the reply is the
    // command's meaning over what was read.
    ensures staged { (shards : ℕ) (command : Command) (a : ℕ → Told) (s : ℕ) → s < shards → round_wanted shards (first_asked shards command Spread) a ≡ false → asks shards command Spread (Once a) s ≡ stage_of (changes_on shards s command (values_told shards command a)) }
    ensures read_reply { (shards : ℕ) (command : Command) (saved : Reply) (a : ℕ → Told) → round_wanted shards (first_asked shards command Spread) a ≡ false → reply_of shards command Spread saved (Once a) ≡ (meaning command (values_told shards command a)).0 }

    // Who was asked to stage is asked once more, and nobody else is. Until then the command isn't over.
    ensures each { (shards : ℕ) (command : Command) (a b : ℕ → Told) (s : ℕ) → is_some (asks shards command Spread (Twice a b) s) ≡ is_some (asks shards command Spread (Once a) s) }
    ensures unfinished { (shards : ℕ) (command : Command) (a b : ℕ → Told) → goes_on shards command Spread (Twice a b) ≡ goes_on shards command Spread (Once a) }

    // They all apply, as hop 2, and the reply is the command's meaning over what was read.
    ensures applied { (shards : ℕ) (command : Command) (a b : ℕ → Told) (s : ℕ) (stage : Act) → round_wanted shards (second_asked shards command Spread a) b ≡ false → asks shards command Spread (Once a) s ≡ Some stage → asks shards command Spread (Twice a b) s ≡ Some Apply }
    ensures applied_hop { (shards : ℕ) (command : Command) (a b : ℕ → Told) → round_wanted shards (second_asked shards command Spread a) b ≡ false → hop_of shards command Spread (Twice a b) ≡ 2 }
    ensures applied_reply { (shards : ℕ) (command : Command) (saved : Reply) (a b c : ℕ → Told) → round_wanted shards (second_asked shards command Spread a) b ≡ false → reply_of shards command Spread saved (Thrice a b c) ≡ (meaning command (values_told shards command a)).0 }

    // Or, where one found no memory to stage, they all take it back, as hop 3, that one too, and the reply says so.
    ensures taken_back { (shards : ℕ) (command : Command) (a b : ℕ → Told) (s : ℕ) (stage : Act) → round_wanted shards (second_asked shards command Spread a) b ≡ true → asks shards command Spread (Once a) s ≡ Some stage → asks shards command Spread (Twice a b) s ≡ Some Unstage }
    ensures taken_back_hop { (shards : ℕ) (command : Command) (a b : ℕ → Told) → round_wanted shards (second_asked shards command Spread a) b ≡ true → hop_of shards command Spread (Twice a b) ≡ 3 }
    ensures taken_back_reply { (shards : ℕ) (command : Command) (saved : Reply) (a b c : ℕ → Told) → round_wanted shards (second_asked shards command Spread a) b ≡ true → reply_of shards command Spread saved (Thrice a b c) ≡ want_of_memory }
{}

/// FLUSHALL clears each of several shards, as hop 2; or, where one found no memory for it, none, and each takes back
/// what it staged, as hop 3.
pub fn all_is_cleared_or_nothing()
    ensures cleared { (shards : ℕ) (command : Command) (a : ℕ → Told) (s : ℕ) → s < shards → round_wanted shards (first_asked shards command Clears) a ≡ false → asks shards command Clears (Once a) s ≡ Some Clear }
    ensures cleared_hop { (shards : ℕ) (command : Command) (a : ℕ → Told) → round_wanted shards (first_asked shards command Clears) a ≡ false → hop_of shards command Clears (Once a) ≡ 2 }
    ensures kept { (shards : ℕ) (command : Command) (a : ℕ → Told) (s : ℕ) → s < shards → round_wanted shards (first_asked shards command Clears) a ≡ true → asks shards command Clears (Once a) s ≡ Some Unstage }
    ensures kept_hop { (shards : ℕ) (command : Command) (a : ℕ → Told) → round_wanted shards (first_asked shards command Clears) a ≡ true → hop_of shards command Clears (Once a) ≡ 3 }
{}

/// A command that asks for nothing more is done, with the reply that is computed from what its shards told. One whose
/// reply takes memory that no shard took for it may stop for want of it.
pub fn over_is_done()
    ensures over { OverIsDone }
    ensures stopped { StopIsDone }
{}

/// What a call asks next is due, by all steps that were taken for it.
pub fn next_is_due()
    ensures { NextIsDue }
{}

/// A call stands at its first command, goes on by the answers of each round, and by each command that is done.
pub fn progress_goes_on()
    ensures start { CallsStart }
    ensures rounds { RoundsGoOn }
    ensures seen { SeenGoesOn }
    ensures commands { CommandsGoOn }
    ensures over { OverGoesOn }
    ensures stopped { StopGoesOn }
{}

/// Where no command is left the call gives its reply, and leaves what a call leaves that has ended.
pub fn calls_give()
    ensures reply { CallsGive }
    ensures left { EndsLeave }
{}

/// A round from its first ticket to its last answer, by the book's tickets and receipts, in any order.
pub fn rounds_go_on()
    ensures begun { RoundsBegin }
    ensures sent { RoundsSend }
    ensures taken { RoundsTake }
    ensures seen { RoundsSee }
    ensures fresh { AnswersAreNew }
    ensures ended { RoundsEnd }
{}

/// A call from its draw, round by round and command by command, to what it leaves; and one that never ran, which may
/// be drawn again.
pub fn calls_go_on()
    ensures drawn { CallsAreDrawn }
    ensures asks { CallsAsk }
    ensures tickets { TicketsAsk }
    ensures answers { AnswersAgree }
    ensures round { CallsGoRound }
    ensures sees { CallsSee }
    ensures moved { CallsMove }
    ensures left { CallsLeave }
    ensures passed { CallsPass }
    ensures again { CallsDrawAgain }
{}
