//! What is kept of a call's commands until each had its turn.

ghost use Rattle.std.specs.Prelude.{◌≡◌, ◌+◌, ◌<◌, ℕ, suc, [], ◌∷◌, drop, length, slice_get, vec_len, IfOk, OnOk};
ghost use Rattle.std.specs.Bool.{OnFalse};
ghost use Rattle.std.specs.Option.{option_map};
ghost use Rattle.df_model.specs.Calls.{IsCall};
ghost use Rattle.df_model.specs.declared.command.Call.{Call};
ghost use Rattle.df_model.specs.declared.command.Call.TheVariants.{Single};
ghost use Rattle.df_footprints.specs.Footprints.{commands_of};
ghost use Rattle.df_keys.specs.Asked.{FootprintsStand};
ghost use Rattle.df_log.specs.Acts.{Told};
ghost use Rattle.df_core.specs.Courses.{Spread, course_of};
ghost use Rattle.df_rounds.specs.Progress.{Progress, after_round, asks_next, hop_next, progress_of};
ghost use Rattle.df_caller.specs.declared.slip.Slip.{Slip as TheSlip};
ghost use Rattle.df_hops.specs.Parts.{act_of};
ghost use Rattle.df_turn.specs.Turns.{IsClear, Ready};
ghost use Rattle.df_plan.specs.Plans.{AlikeCalls, AllReady, Asks, GoesTo, IsAnswered, Planned};
ghost use Rattle.df_plan.specs.Commands.{CameTo, ComesBy, Rests};

use crate::replies::add_reply;
use df_caller::Slip;
use df_hops::{Outcome, Part};
use df_keys::{find_keys, find_keys_of};
use df_model::{Call, Command, Keys, NoMemory, WholeOp};
use df_turn::{Course, Next, Turn, course_of};
use df_values::Pieces;
use std::alloc::Global;
use std::mem;

/// The commands of one call, and then of the next one, which uses its lists again.
#[derive(Drop)]
pub struct Plan {
    /// A turn for each command of the call.
    turns: Vec<Turn>,
    /// How many commands are over.
    at: u32,
    /// What is left of the command under way.
    command: Command,
    /// Whether there was memory for all replies so far.
    said: bool,
}

impl Plan {
    /// No commands. Takes no memory.
    pub fn new(alloc: Global) -> Plan {
        Plan {
            turns: Vec::new(alloc),
            at: 0,
            command: any_command(),
            said: true,
        }
    }

    /// Takes the memory of the call's commands: for each its first messages, and of an EXEC the head of its reply, which is
    /// written to the slip; `keys` gets what the call asks for on each shard. The call stays as it is.
    pub fn prepare(
        &mut self,
        alloc: Global,
        shards: u32,
        slip: &mut Slip,
        keys: &mut Vec<Option<Box<Keys>>>,
    ) -> Result<(), NoMemory>
        requires some { 0 < shards }
        requires is_call { IsCall slip.old.call }
        requires room { length keys.old.items ≡ shards }
        ensures call { slip.new.call ≡ slip.old.call }
        ensures room { length keys.new.items ≡ shards }
        ensures keys { OnOk result (FootprintsStand shards slip.old.call keys.new.items) }
        ensures planned { OnOk result (Planned shards slip.old.call self.new slip.new.reply) }
    {
        self.turns.clear();
        self.at = 0;
        self.said = true;
        match &slip.call {
            Call::Single(command) => self.add_single(alloc, shards, command, keys),
            Call::Exec(commands) => {
                slip.reply.put_array_head(commands.len())?;
                self.add_turns(alloc, shards, commands.as_slice(), keys)?;
                find_keys(alloc, &slip.call, shards, keys)
            }
        }
    }

    /// The turn of a call that is this command alone: what the call asks for is what the command does.
    fn add_single(
        &mut self,
        alloc: Global,
        shards: u32,
        command: &Command,
        keys: &mut Vec<Option<Box<Keys>>>,
    ) -> Result<(), NoMemory>
        requires some { 0 < shards }
        requires none { self.old.turns.items ≡ [] }
        requires room { length keys.old.items ≡ shards }
        ensures same { (self.new.at ≡ self.old.at) × (self.new.said ≡ self.old.said) }
        ensures room { length keys.new.items ≡ shards }
        ensures keys { OnOk result (FootprintsStand shards (Single command.now) keys.new.items) }
        ensures ready { OnOk result (AllReady shards (command.now ∷ []) self.new.turns.items) }
    {
        find_keys_of(alloc, command, shards, keys)?;
        let turn = Turn::new(alloc, shards, command, keys.as_slice())?;
        self.turns.push(turn)?;
        Ok(())
    }

    /// A turn for each command of an EXEC.
    fn add_turns(
        &mut self,
        alloc: Global,
        shards: u32,
        commands: &[Command],
        keys: &mut Vec<Option<Box<Keys>>>,
    ) -> Result<(), NoMemory>
        requires some { 0 < shards }
        requires none { self.old.turns.items ≡ [] }
        requires room { length keys.old.items ≡ shards }
        ensures same { (self.new.at ≡ self.old.at) × (self.new.said ≡ self.old.said) }
        ensures room { length keys.new.items ≡ shards }
        ensures ready { OnOk result (AllReady shards commands.now self.new.turns.items) }
    {
        'commands: for command in commands {
            let turn = turn_of(alloc, shards, command, keys)?;
            self.turns.push(turn)?;
        }
        Ok(())
    }

    /// Once the call has its places: its first commands begin, up to one that asks its shards. Answers whether one does; else the
    /// call is over, and its reply lies in the slip if it was said.
    pub fn set_out(&mut self, alloc: Global, shards: u32, slip: &mut Slip) -> bool
        requires some { 0 < shards }
        requires planned { Planned shards slip.old.call self.old slip.old.reply }
        ensures goes { GoesTo result shards slip.old.call (progress_of slip.old.call) self.new slip.new }
    {
        self.begin_next(alloc, shards, slip)
    }

    /// As which hop of the call its shards are asked next.
    pub fn hop(&self) -> u32
        requires asks { (shards t : ℕ) × (call : Call) × (progress : Progress) × (slip : TheSlip) × Asks shards t call progress self.now slip }
        ensures hop { (shards t : ℕ) (call : Call) (progress : Progress) (slip : TheSlip) → Asks shards t call progress self.now slip → result ≡ hop_next shards progress }
    {
        4 * self.at + self.turns[self.at as usize].hop()
    }

    /// What the shard is asked next, which is handed out once.
    pub fn part(&mut self, shard: u32) -> Option<Part>
        requires asks { (shards : ℕ) × (call : Call) × (progress : Progress) × (slip : TheSlip) × (shard < shards) × Asks shards shard call progress self.old slip }
        ensures said { self.new.said ≡ self.old.said }
        ensures part { (shards : ℕ) (call : Call) (progress : Progress) (slip : TheSlip) → Asks shards shard call progress self.old slip → (option_map act_of result ≡ asks_next shards progress shard) × Asks shards (shard + 1) call progress self.new slip }
    {
        self.turns[self.at as usize].part(shard)
    }

    /// Goes on by the answers of a round, which are taken out. Answers whether shards are asked again; else the call is over, and
    /// its reply lies in the slip if it was said.
    pub fn go_on(
        &mut self,
        alloc: Global,
        shards: u32,
        slip: &mut Slip,
        outcomes: &mut Vec<Option<Outcome>>,
    ) -> bool
        requires answered { (call : Call) × (progress : Progress) × (told : ℕ → Told) × IsAnswered shards call progress told self.old slip.old outcomes.old.items }
        ensures clear { IsClear shards outcomes.new.items }
        ensures goes { (call : Call) (progress : Progress) (told : ℕ → Told) → IsAnswered shards call progress told self.old slip.old outcomes.old.items → GoesTo result shards call (after_round told progress) self.new slip.new }
    {
        let next = self.turns[self.at as usize].go_on(alloc, shards, &mut self.command, outcomes);
        if self.is_asking(slip, next) {
            return true;
        }
        self.begin_next(alloc, shards, slip)
    }

    /// Whether there was memory for the reply of each command that is over.
    pub fn said(&self) -> bool
        ensures { result ≡ self.now.said }
    {
        self.said
    }

    /// Begins the commands that are left, in turn, until one asks its shards, and answers whether one does.
    fn begin_next(&mut self, alloc: Global, shards: u32, slip: &mut Slip) -> bool
        requires some { 0 < shards }
        requires rests { (call : Call) × (progress : Progress) × Rests shards call progress self.old slip.old }
        ensures goes { (call : Call) (progress : Progress) → Rests shards call progress self.old slip.old → GoesTo result shards call progress self.new slip.new }
    {
        'commands: while (self.at as usize) < self.turns.len() {
            let next = self.begin(alloc, shards, slip);
            if self.is_asking(slip, next) {
                return true;
            }
        }
        self.turns.clear();
        false
    }

    /// Takes the next command out of the slip, and begins it.
    fn begin(&mut self, alloc: Global, shards: u32, slip: &mut Slip) -> Next
        requires some { 0 < shards }
        requires there { self.old.at < length self.old.turns.items }
        requires rests { (call : Call) × (progress : Progress) × Rests shards call progress self.old slip.old }
        ensures at { self.new.at ≡ self.old.at }
        ensures turns { vec_len self.new.turns ≡ vec_len self.old.turns }
        ensures came { (call : Call) (progress : Progress) → Rests shards call progress self.old slip.old → CameTo result shards call progress self.new slip.new }
    {
        self.command = take_command(&mut slip.call, self.at as usize);
        self.turns[self.at as usize].begin(alloc, shards, &mut self.command)
    }

    /// Whether the command under way asks its shards. Else it is over, and what it says is added to the reply.
    fn is_asking(&mut self, slip: &mut Slip, next: Next) -> bool
        requires came { (shards : ℕ) × (call : Call) × (progress : Progress) × CameTo next shards call progress self.old slip.old }
        ensures turns { self.new.turns ≡ self.old.turns }
        ensures at { OnFalse result (self.new.at ≡ self.old.at + 1) }
        ensures comes { (shards : ℕ) (call : Call) (progress : Progress) → 0 < shards → CameTo next shards call progress self.old slip.old → ComesBy result shards call progress self.new slip.new }
    {
        match next {
            Next::Asks => true,
            Next::Over(reply) => {
                self.said = add_reply(self.said, slip, reply);
                self.at += 1;
                false
            }
            Next::Unsaid => {
                self.said = false;
                self.at += 1;
                false
            }
        }
    }
}

/// The turn of a command of an EXEC. Only where its keys stand on several shards are they looked for.
fn turn_of(
    alloc: Global,
    shards: u32,
    command: &Command,
    keys: &mut Vec<Option<Box<Keys>>>,
) -> Result<Turn, NoMemory>
    requires some { 0 < shards }
    requires room { length keys.old.items ≡ shards }
    ensures room { length keys.new.items ≡ shards }
    ensures ready { IfOk result (λ turn. Ready shards command.now turn) }
{
    find_spread(alloc, shards, command, keys)?;
    Turn::new(alloc, shards, command, keys.as_slice())
}

/// Where the command's keys stand on several shards, `keys` gets them.
fn find_spread(
    alloc: Global,
    shards: u32,
    command: &Command,
    keys: &mut Vec<Option<Box<Keys>>>,
) -> Result<(), NoMemory>
    requires some { 0 < shards }
    requires room { length keys.old.items ≡ shards }
    ensures room { length keys.new.items ≡ shards }
    ensures found { OnOk result (course_of shards command.now ≡ Spread → FootprintsStand shards (Single command.now) keys.new.items) }
{
    match course_of(command, shards) {
        Course::Spread => find_keys_of(alloc, command, shards, keys),
        Course::Nowhere
        | Course::Alone(_)
        | Course::Names
        | Course::Counts
        | Course::Cuts
        | Course::Clears => Ok(()),
    }
}

/// The command with this place in the call, moved out; any other stands there then.
fn take_command(call: &mut Call, at: usize) -> Command
    requires there { at < length (commands_of call.old) }
    ensures taken { slice_get (commands_of call.old) at ≡ Some result }
    ensures alike { AlikeCalls call.old call.new }
    ensures behind { drop (suc at) (commands_of call.new) ≡ drop (suc at) (commands_of call.old) }
{
    match call {
        Call::Single(command) => mem::replace(command, any_command()),
        Call::Exec(commands) => commands.replace(at, any_command()),
    }
}

fn any_command() -> Command {
    Command::Whole(WholeOp::Dbsize)
}
