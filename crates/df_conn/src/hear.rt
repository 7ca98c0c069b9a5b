//! The words of a request, as the session machine hears them.

ghost use Rattle.std.specs.Prelude.{◌≡◌, codes, IfOk};
ghost use Rattle.df_model.specs.Reads.{reads_linked};
ghost use Rattle.df_model.specs.Session as session;
ghost use Rattle.df_model.specs.declared.command.Call.{Call as ModelCall};
ghost use Rattle.df_model.specs.declared.command.Call.TheVariants.{Single};
ghost use Rattle.df_multi.specs.Machine.{control_of, heard_of, IsHeard};

use bytes::Bytes;
use df_model::{Bin, Call, Command, ErrorText, NoMemory, WholeOp};
use df_multi::{Control, Heard};
use df_parse::{Refusal, read_linked};
use df_text::is_name;
use std::alloc::Global;

/// What the words ask for; a command that they spell is read to the call. `Err` is for want of memory alone.
pub fn hear(alloc: Global, words: &[Bytes], call: &mut Call) -> Result<Heard, NoMemory>
    ensures is { IfOk result (λ heard. heard_of heard call.new ≡ session.heard words.now) }
    ensures heard { IfOk result (λ heard. IsHeard heard call.new) }
{
    match words {
        [] => hear_command(alloc, words, call),
        [name, behind @ ..] => hear_named(alloc, name.as_slice(), behind, words, call),
    }
}

/// The words are this name and those behind it.
fn hear_named(
    alloc: Global,
    name: &[u8],
    behind: &[Bytes],
    words: &[Bytes],
    call: &mut Call,
) -> Result<Heard, NoMemory>
    ensures is { IfOk result (λ heard. heard_of heard call.new ≡ session.heard_by session.controls name.now behind.now (session.heard_as (reads_linked words.now))) }
    ensures heard { IfOk result (λ heard. IsHeard heard call.new) }
{
    if is_name(name, "multi") {
        hear_alone(alloc, Control::Multi, "multi", behind)
    } else if is_name(name, "exec") {
        hear_alone(alloc, Control::Exec, "exec", behind)
    } else if is_name(name, "discard") {
        hear_alone(alloc, Control::Discard, "discard", behind)
    } else if is_name(name, "quit") {
        Ok(Heard::Control(Control::Quit))
    } else if is_name(name, "shutdown") {
        hear_shutdown(alloc, behind, call)
    } else {
        hear_command(alloc, words, call)
    }
}

/// A name that stands alone.
fn hear_alone(
    alloc: Global,
    control: Control,
    name: &str,
    behind: &[Bytes],
) -> Result<Heard, NoMemory>
    ensures is { IfOk result (λ heard. (call : ModelCall) → heard_of heard call ≡ session.heard_counted name.now (session.alone (control_of control) behind.now)) }
    ensures heard { IfOk result (λ heard. (call : ModelCall) → IsHeard heard call) }
{
    match behind {
        [] => Ok(Heard::Control(control)),
        _ => wrong_count(alloc, name),
    }
}

/// SHUTDOWN with the words behind it: NOSAVE or none.
fn hear_shutdown(alloc: Global, words: &[Bytes], call: &mut Call) -> Result<Heard, NoMemory>
    ensures is { IfOk result (λ heard. heard_of heard call.new ≡ session.heard_counted (codes "shutdown") (session.shutdown words.now)) }
    ensures heard { IfOk result (λ heard. IsHeard heard call.new) }
{
    match words {
        [] => Ok(Heard::Control(Control::Shutdown)),
        [word] if is_name(word.as_slice(), "nosave") => Ok(Heard::Control(Control::Shutdown)),
        [_] => {
            *call = Call::Single(Command::Wrong(ErrorText::Syntax));
            Ok(Heard::Command)
        }
        _ => wrong_count(alloc, "shutdown"),
    }
}

/// The error of a wrong count of words behind this name, which is in lower case.
fn wrong_count(alloc: Global, name: &str) -> Result<Heard, NoMemory>
    ensures is { IfOk result (λ heard. (call : ModelCall) → heard_of heard call ≡ session.Heard.Refused (ErrorText.Arity name.now)) }
    ensures heard { IfOk result (λ heard. (call : ModelCall) → IsHeard heard call) }
{
    let name = Bin::from_slice(alloc, name.as_bytes())?;
    Ok(Heard::Refused(ErrorText::Arity(name)))
}

/// A command, in the place of the one that was read there last.
#[inline(always)]
fn hear_command(alloc: Global, words: &[Bytes], call: &mut Call) -> Result<Heard, NoMemory>
    ensures is { IfOk result (λ heard. heard_of heard call.new ≡ session.heard_as (reads_linked words.now)) }
    ensures heard { IfOk result (λ heard. IsHeard heard call.new) }
{
    match call {
        Call::Single(command) => hear_into(alloc, words, command),
        Call::Exec(_) => {
            let mut command = Command::Whole(WholeOp::Dbsize);
            let heard = hear_into(alloc, words, &mut command)?;
            *call = Call::Single(command);
            Ok(heard)
        }
    }
}

#[inline(always)]
fn hear_into(alloc: Global, words: &[Bytes], command: &mut Command) -> Result<Heard, NoMemory>
    ensures is { IfOk result (λ heard. heard_of heard (Single command.new) ≡ session.heard_as (reads_linked words.now)) }
    ensures heard { IfOk result (λ heard. IsHeard heard (Single command.new)) }
{
    match read_linked(alloc, words, command) {
        Ok(()) => Ok(Heard::Command),
        Err(Refusal::Unknown) => Ok(Heard::Refused(ErrorText::Unknown)),
        Err(Refusal::Arity(error)) => Ok(Heard::Refused(error)),
        Err(Refusal::NoMemory) => Err(NoMemory),
    }
}
