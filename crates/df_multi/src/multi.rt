//! The state of one session: whether a transaction is open, and what it has queued. Source: Redis's pages of MULTI,
//! EXEC and DISCARD.

ghost use Rattle.std.specs.Prelude.{◌≡◌};
ghost use Rattle.df_model.specs.Reads.{saves};
ghost use Rattle.df_model.specs.Session as session;
ghost use Rattle.df_model.specs.Session.{State, machine, ready_step, queueing_step, append, execute, without_memory};
ghost use Rattle.df_model.specs.declared.command.Call.{Call as ModelCall};
ghost use Rattle.df_multi.specs.Machine.{control_of, heard_of, IsHeard, Says};
ghost use Rattle.df_multi.specs.Kept.{state_of};

use crate::heard::{Control, Heard, Said};
use df_model::{Call, Command, Commands, ErrorText, WholeOp};
use std::alloc::Global;
use std::marker::Model;
use std::mem;

/// Commands that a transaction may queue, so that one connection can't take all memory (`MAX_QUEUED` of the model).
const MAX_QUEUED: usize = 1048576;

/// Whether a transaction is open, and what it has queued.
#[derive(Debug, Drop)]
pub struct MultiState {
    kept: Kept,
}

#[derive(Debug, Drop)]
enum Kept {
    Ready,
    /// The commands, and whether the transaction is broken.
    Queueing(Commands, bool),
}

impl Model for MultiState {
    ghost use Rattle.df_model.specs.Session.{State};

    ghost Value = { State };

    ghost use Rattle.df_multi.specs.Kept.{state_of};

    ghost view = { λ m. state_of m.kept };
}

impl MultiState {
    /// No transaction is open. Takes no memory.
    pub fn new() -> MultiState
        ensures { result ≡ State.Ready }
    {
        MultiState { kept: Kept::Ready }
    }

    /// Takes a request; a command that it spells stands in the call, and is moved out where it is queued. At `Said::Run`
    /// the call is the one to run. At `Said::NoMemory` no step was taken, and an open transaction is broken.
    pub fn step(&mut self, alloc: Global, heard: Heard, call: &mut Call) -> Said
        requires { IsHeard heard call.old }
        ensures { Says result self.old (machine self.old (heard_of heard call.old)) call.new self.new }
    {
        if let Kept::Ready = &self.kept {
            return ready(alloc, &mut self.kept, heard, call);
        }
        match mem::replace(&mut self.kept, Kept::Ready) {
            Kept::Ready => unreachable!(),
            Kept::Queueing(commands, broken) => {
                let (said, next) = queueing(commands, broken, heard, call);
                self.kept = next;
                said
            }
        }
    }

    /// A request found no memory before it was taken, so an open transaction is broken: EXEC would run the others.
    pub fn spoil(&mut self)
        ensures { self.new ≡ without_memory self.old }
    {
        match &mut self.kept {
            Kept::Ready => {}
            Kept::Queueing(_, broken) => *broken = true,
        }
    }
}

/// A request outside a transaction.
fn ready(alloc: Global, kept: &mut Kept, heard: Heard, call: &Call) -> Said
    requires ready { state_of kept.old ≡ State.Ready }
    requires heard { IsHeard heard call.now }
    ensures { Says result State.Ready (ready_step (heard_of heard call.now)) call.now (state_of kept.new) }
{
    match heard {
        Heard::Command => say_command(call),
        Heard::Control(Control::Multi) => {
            *kept = Kept::Queueing(Commands::new(alloc), false);
            Said::Ok
        }
        Heard::Control(Control::Exec) => Said::Error(ErrorText::ExecAlone),
        Heard::Control(Control::Discard) => Said::Error(ErrorText::DiscardAlone),
        Heard::Control(Control::Quit) => Said::Bye,
        Heard::Control(Control::Shutdown) => Said::Stop,
        Heard::Refused(error) => Said::Error(error),
    }
}

/// A command outside a transaction.
fn say_command(call: &Call) -> Said
    requires { IsHeard Heard.Command call.now }
    ensures { Says result State.Ready (ready_step (heard_of Heard.Command call.now)) call.now State.Ready }
{
    match call {
        Call::Single(Command::Plain(_)) => Said::AtOnce,
        Call::Single(Command::Wrong(_)) => Said::AtOnce,
        Call::Single(Command::One(_, _)) => Said::Run,
        Call::Single(Command::Many(_)) => Said::Run,
        Call::Single(Command::Whole(_)) => Said::Run,
        Call::Exec(_) => unreachable!(),
    }
}

/// A request inside a transaction.
fn queueing(commands: Commands, broken: bool, heard: Heard, call: &mut Call) -> (Said, Kept)
    requires { IsHeard heard call.old }
    ensures { Says result.0 (State.Queueing commands.items broken) (queueing_step commands.items broken (heard_of heard call.old)) call.new (state_of result.1) }
{
    match heard {
        Heard::Command => queue(commands, broken, call),
        Heard::Control(control) => control_queue(commands, broken, control, call),
        Heard::Refused(error) => (Said::Error(error), Kept::Queueing(commands, true)),
    }
}

/// Queues a command. SAVE can't be part of a transaction.
fn queue(commands: Commands, broken: bool, call: &mut Call) -> (Said, Kept)
    requires { IsHeard Heard.Command call.old }
    ensures { Says result.0 (State.Queueing commands.items broken) (queueing_step commands.items broken (heard_of Heard.Command call.old)) call.new (state_of result.1) }
{
    match call {
        Call::Single(command) => {
            if is_save(command) {
                return (
                    Said::Error(ErrorText::NotInside),
                    Kept::Queueing(commands, true),
                );
            }
            add(commands, broken, command)
        }
        Call::Exec(_) => unreachable!(),
    }
}

fn is_save(command: &Command) -> bool
    ensures { result ≡ saves command.now }
{
    matches!(command, Command::Whole(WholeOp::Save))
}

/// Adds a command to the queue, where there is room for one more.
fn add(mut commands: Commands, broken: bool, command: &mut Command) -> (Said, Kept)
    ensures { (call : ModelCall) → Says result.0 (State.Queueing commands.items broken) (append commands.items broken command.old) call (state_of result.1) }
{
    if commands.len() >= MAX_QUEUED {
        return (
            Said::Error(ErrorText::TooQueued),
            Kept::Queueing(commands, true),
        );
    }
    if commands.reserve(1).is_err() {
        return (Said::NoMemory, Kept::Queueing(commands, true));
    }
    commands.push(mem::replace(command, Command::Whole(WholeOp::Dbsize)));
    (Said::Queued, Kept::Queueing(commands, broken))
}

/// A word that speaks to the session itself, inside a transaction.
fn control_queue(
    commands: Commands,
    broken: bool,
    control: Control,
    call: &mut Call,
) -> (Said, Kept)
    ensures { Says result.0 (State.Queueing commands.items broken) (queueing_step commands.items broken (session.Heard.Controls (control_of control))) call.new (state_of result.1) }
{
    match control {
        Control::Multi => (
            Said::Error(ErrorText::Nested),
            Kept::Queueing(commands, broken),
        ),
        Control::Exec => run(commands, broken, call),
        Control::Discard => (Said::Ok, Kept::Ready),
        Control::Quit => (Said::Bye, Kept::Queueing(commands, broken)),
        Control::Shutdown => (
            Said::Error(ErrorText::NotInside),
            Kept::Queueing(commands, true),
        ),
    }
}

/// EXEC. The call has no room left over, since its commands are all that it may run.
fn run(mut commands: Commands, broken: bool, call: &mut Call) -> (Said, Kept)
    ensures { Says result.0 (State.Queueing commands.items broken) (execute commands.items broken) call.new (state_of result.1) }
{
    if broken {
        return (Said::Error(ErrorText::Aborted), Kept::Ready);
    }
    commands.seal();
    *call = Call::Exec(commands);
    (Said::Run, Kept::Ready)
}
