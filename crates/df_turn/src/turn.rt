//! A command under way: what it keeps between two rounds, and how it goes from one to the next.

ghost use Rattle.std.specs.Prelude.{◌≡◌, ◌+◌, ◌<◌, ℕ, length, IfOk};
ghost use Rattle.std.specs.Option.{option_map};
ghost use Rattle.df_model.specs.declared.command.Command.{Command};
ghost use Rattle.df_model.specs.declared.command.Call.TheVariants.{Single};
ghost use Rattle.df_log.specs.Acts.{Told};
ghost use Rattle.df_core.specs.Courses.{Spread, course_of};
ghost use Rattle.df_rounds.specs.Standing.{Fresh, Standing, asks, then_told};
ghost use Rattle.df_hops.specs.Parts.{act_of};
ghost use Rattle.df_keys.specs.Asked.{FootprintsStand};
ghost use Rattle.df_turn.specs.Steps.{Goes};
ghost use Rattle.df_turn.specs.Turns.{Asking, Began, IsAnswered, Ready, WentOn};

use crate::alone::{answered, bare_turn, ran, room};
use crate::course::{Course, course_of};
use crate::heard::forget;
use crate::several::{ended, read_turn};
use crate::whole::{cleared, counted, not_saved, walked, whole_turn};
use df_hops::{Outcome, Part};
use df_model::{Command, KeyModes, Keys, NoMemory};
use df_values::Pieces;
use std::alloc::Global;
use std::mem;

/// What a command keeps until its turn comes, and between two rounds.
#[derive(Drop)]
pub enum Rest {
    /// It names no key, and no shard is asked.
    Nowhere,
    /// It runs on this shard alone; the room for it there.
    Waiting(u32, Box<Command>),
    /// This shard runs it.
    Running(u32),
    /// SAVE: each shard begins a cut.
    Cutting,
    /// DBSIZE.
    Counting,
    /// KEYS.
    Walking,
    /// FLUSHALL: each shard stages nothing, to see that there is memory.
    Clearing,
    /// And clears, or takes that back where one found no memory.
    Cleared(bool),
    /// Several shards read their keys of the command.
    Reading(Vec<KeyModes>),
    /// They stage what changes; the reply is there.
    Staging(Pieces),
    /// They show it, or take it back where one found no memory.
    Ending(bool, Pieces),
}

/// A command before its turn, or under way.
#[derive(Drop)]
pub struct Turn {
    /// What each shard is asked next, until it is handed out.
    pub(crate) parts: Vec<Option<Part>>,
    /// Of the command, from 0 to 3.
    pub(crate) hop: u32,
    pub(crate) rest: Rest,
}

/// What comes of a round's answers.
#[derive(Drop)]
pub enum Next {
    /// Shards are asked again.
    Asks,
    /// It is over, and this is its reply.
    Over(Pieces),
    /// It is over, and there was no memory for its reply.
    Unsaid,
}

impl Turn {
    /// A command before its turn. The memory of its first messages is taken here. `keys` is what it asks for on each shard,
    /// where its keys stand on several; of any other command nobody looks at it.
    pub fn new(
        alloc: Global,
        shards: u32,
        command: &Command,
        keys: &[Option<Box<Keys>>],
    ) -> Result<Turn, NoMemory>
        requires some { 0 < shards }
        requires keys { course_of shards command.now ≡ Spread → FootprintsStand shards (Single command.now) keys.now }
        ensures { IfOk result (λ turn. Ready shards command.now turn) }
    {
        match course_of(command, shards) {
            Course::Nowhere => bare_turn(alloc, shards, Rest::Nowhere),
            Course::Alone(shard) => bare_turn(alloc, shards, Rest::Waiting(shard, room(alloc)?)),
            Course::Spread => read_turn(alloc, keys),
            Course::Names => whole_turn(alloc, shards, Course::Names, Rest::Walking),
            Course::Counts => whole_turn(alloc, shards, Course::Counts, Rest::Counting),
            Course::Cuts => whole_turn(alloc, shards, Course::Cuts, Rest::Cutting),
            Course::Clears => whole_turn(alloc, shards, Course::Clears, Rest::Clearing),
        }
    }

    /// The command's turn comes. One that runs on one shard alone moves into its part; one that names no key is over at
    /// once, and may be emptied. `command` is what `new` was given.
    pub fn begin(&mut self, alloc: Global, shards: u32, command: &mut Command) -> Next
        requires some { 0 < shards }
        requires ready { Ready shards command.old self.old }
        ensures began { Began result shards command.old self.new command.new }
    {
        match mem::replace(&mut self.rest, Rest::Nowhere) {
            Rest::Nowhere => answered(alloc, command),
            Rest::Waiting(shard, room) => self.run_there(shard, room, command),
            rest => {
                self.rest = rest;
                Next::Asks
            }
        }
    }

    /// Which of the command's hops is asked next, from 0 to 3.
    pub fn hop(&self) -> u32
        ensures { result ≡ self.now.hop }
    {
        self.hop
    }

    /// What the shard is asked next, which is handed out once.
    pub fn part(&mut self, shard: u32) -> Option<Part>
        requires there { shard < length self.old.parts.items }
        ensures same { (self.new.rest ≡ self.old.rest) × (self.new.hop ≡ self.old.hop) × (length self.new.parts.items ≡ length self.old.parts.items) }
        ensures part { (shards : ℕ) (command : Command) (standing : Standing) → Asking shards shard command standing self.old → (option_map act_of result ≡ asks shards command (course_of shards command) standing shard) × Asking shards (shard + 1) command standing self.new }
    {
        mem::replace(&mut self.parts[shard as usize], None)
    }

    /// Goes on by the answers of a round, which are taken out. `command` is what `begin` left, until its first round was
    /// answered; it may be emptied.
    pub fn go_on(
        &mut self,
        alloc: Global,
        shards: u32,
        command: &mut Command,
        outcomes: &mut Vec<Option<Outcome>>,
    ) -> Next
        requires answered { (asked : Command) × (standing : Standing) × (told : ℕ → Told) × IsAnswered shards asked standing told self.old command.old outcomes.old.items }
        ensures went { (asked : Command) (standing : Standing) (told : ℕ → Told) → IsAnswered shards asked standing told self.old command.old outcomes.old.items → WentOn result shards asked (then_told told standing) self.new outcomes.new.items }
    {
        let next = self.next(alloc, shards, command, outcomes.as_mut_slice());
        forget(outcomes.as_mut_slice());
        next
    }

    /// As `go_on`, but that not all answers are taken out.
    fn next(
        &mut self,
        alloc: Global,
        shards: u32,
        command: &mut Command,
        outcomes: &mut [Option<Outcome>],
    ) -> Next
        requires answered { (asked : Command) × (standing : Standing) × (told : ℕ → Told) × IsAnswered shards asked standing told self.old command.old outcomes.old }
        ensures went { (asked : Command) (standing : Standing) (told : ℕ → Told) → IsAnswered shards asked standing told self.old command.old outcomes.old → Goes result shards asked (then_told told standing) self.new }
    {
        match mem::replace(&mut self.rest, Rest::Counting) {
            Rest::Nowhere => unreachable!(),
            Rest::Waiting(_, _) => unreachable!(),
            Rest::Running(shard) => ran(alloc, shard, outcomes),
            Rest::Cutting => not_saved(alloc),
            Rest::Counting => counted(alloc, outcomes),
            Rest::Walking => walked(alloc, command, outcomes),
            Rest::Clearing => self.clear(outcomes),
            Rest::Cleared(wanted) => cleared(alloc, wanted),
            Rest::Reading(keys) => self.run(alloc, shards, command, keys, outcomes),
            Rest::Staging(reply) => self.show(reply, outcomes),
            Rest::Ending(wanted, reply) => ended(wanted, reply),
        }
    }
}
