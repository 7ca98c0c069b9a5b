//! One request: the machine's step, and the reply at once or the call.

ghost use Rattle.std.specs.Prelude.{◌≡◌, ◌++◌, true, OnOk, OnErr};
ghost use Rattle.df_model.specs.Meaning.{plain};
ghost use Rattle.df_model.specs.Replies.{encoding_of};
ghost use Rattle.df_model.specs.Session.{without_memory};
ghost use Rattle.df_model.specs.declared.reply.Reply.TheVariants.{Error as ErrorReply};
ghost use Rattle.df_multi.specs.Machine.{is_at_once, reply_at_once};
ghost use Rattle.df_conn.specs.Answers.{IsAnswer, IsMemory, replied_of};

use crate::hear::hear;
use bytes::Bytes;
use df_model::{Call, Command, ErrorText, NoMemory, PlainOp};
use df_multi::{MultiState, Said};
use df_resp::{encode_bulk, encode_error, encode_simple};
use std::alloc::Global;

/// Bytes that a reply of fixed text takes at the most: the longest is an error with the name of a command. Room for
/// them is made before a request is taken, since a reply that finds none ends its session.
pub const SHORT: usize = 256;

/// What a request came to.
pub enum Answer {
    /// Its reply was added.
    Replied,
    /// It is the call beside. Nothing was added.
    Calls,
    /// It was QUIT, whose reply was added.
    Quit,
    /// It was SHUTDOWN.
    Asked,
    /// Memory ran out, also for saying so.
    NoMemory,
}

/// Takes a request: the machine's step, or want of memory in its place, by which a transaction is broken. A command is
/// read to where the call stands.
pub fn take_words(
    alloc: Global,
    state: &mut MultiState,
    words: &[Bytes],
    call: &mut Call,
    output: &mut Vec<u8>,
) -> Answer
    ensures { IsAnswer result words.now state.old state.new call.new output.old.items output.new.items }
{
    let Ok(heard) = hear(alloc, words, call) else {
        state.spoil();
        return want_memory(output);
    };
    match state.step(alloc, heard, call) {
        Said::Ok => replied(encode_simple(b"OK", output)),
        Said::Queued => replied(encode_simple(b"QUEUED", output)),
        Said::Error(error) => replied(encode_error(&error, output)),
        Said::AtOnce => match add_reply(call, output) {
            Ok(()) => Answer::Replied,
            Err(_) => want_memory(output),
        },
        Said::Run => Answer::Calls,
        Said::Bye => match encode_simple(b"OK", output) {
            Ok(()) => Answer::Quit,
            Err(_) => Answer::NoMemory,
        },
        Said::Stop => Answer::Asked,
        Said::NoMemory => want_memory(output),
    }
}

/// Takes no request, since there was no memory for one: that is answered, and a transaction is broken by it.
pub fn refuse_words(state: &mut MultiState, output: &mut Vec<u8>) -> Result<(), NoMemory>
    ensures state { state.new ≡ without_memory state.old }
    ensures ok { OnOk result (output.new.items ≡ output.old.items ++ encoding_of (ErrorReply ErrorText.Memory)) }
    ensures err { OnErr result (output.new.items ≡ output.old.items) }
{
    state.spoil();
    encode_error(&ErrorText::Memory, output)
}

/// A reply that was added, or not.
fn replied(added: Result<(), NoMemory>) -> Answer
    ensures { result ≡ replied_of added }
{
    match added {
        Ok(()) => Answer::Replied,
        Err(_) => Answer::NoMemory,
    }
}

/// Answers want of memory, where there is room for that.
fn want_memory(output: &mut Vec<u8>) -> Answer
    ensures { IsMemory result output.old.items output.new.items }
{
    replied(encode_error(&ErrorText::Memory, output))
}

/// The reply of a command that needs no keys.
fn add_reply(call: &Call, output: &mut Vec<u8>) -> Result<(), NoMemory>
    requires { is_at_once call.now ≡ true }
    ensures ok { OnOk result (output.new.items ≡ output.old.items ++ encoding_of (reply_at_once call.now)) }
    ensures err { OnErr result (output.new.items ≡ output.old.items) }
{
    match call {
        Call::Single(Command::Plain(op)) => add_plain(op, output),
        Call::Single(Command::Wrong(error)) => encode_error(error, output),
        Call::Single(Command::One(_, _)) => unreachable!(),
        Call::Single(Command::Many(_)) => unreachable!(),
        Call::Single(Command::Whole(_)) => unreachable!(),
        Call::Exec(_) => unreachable!(),
    }
}

fn add_plain(op: &PlainOp, output: &mut Vec<u8>) -> Result<(), NoMemory>
    ensures ok { OnOk result (output.new.items ≡ output.old.items ++ encoding_of (plain op.now)) }
    ensures err { OnErr result (output.new.items ≡ output.old.items) }
{
    match op {
        PlainOp::Ping(None) => encode_simple(b"PONG", output),
        PlainOp::Ping(Some(message)) => encode_bulk(message.as_slice(), output),
        PlainOp::Echo(message) => encode_bulk(message.as_slice(), output),
        PlainOp::Select(_) => encode_simple(b"OK", output),
    }
}
