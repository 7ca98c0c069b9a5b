//! Examples of the Redis command pages: that a call with ample memory finds it is in no clause.

ghost use Rattle.std.specs.Prelude.{IfOk};
ghost use Rattle.df_model.specs.Reads.{IsLinked};

use df_model::{Bin, Bins, Command, Guard, ManyOp, NoMemory, OneOp, Pairs, PlainOp, WholeOp};
use df_table::Table;
use df_values::Pieces;
use std::alloc::Global;
use std::process::Abort;

fn bin(alloc: Global, text: &str) -> Result<Bin, NoMemory> {
    Bin::from_slice(alloc, text.as_bytes())
}

fn keys(alloc: Global, texts: &str) -> Result<Bins, NoMemory> {
    let mut keys = Bins::new(alloc);
    'texts: for text in texts.split(' ') {
        let key = bin(alloc, text)?;
        keys.reserve(1)?;
        keys.push(key);
    }
    Ok(keys)
}

/// Each text is a key, an equals sign and what the key is to hold.
fn pairs(alloc: Global, texts: &str) -> Result<Pairs, NoMemory> {
    let mut pairs = Pairs::new(alloc);
    'texts: for text in texts.split(' ') {
        if let Some((key, word)) = text.split_once('=') {
            let pair = (bin(alloc, key)?, bin(alloc, word)?);
            pairs.reserve(1)?;
            pairs.push(pair);
        }
    }
    Ok(pairs)
}

/// The command of this name. A word stands behind its key and an equals sign.
fn command(alloc: Global, name: &str, words: &str) -> Result<Command, NoMemory>
    ensures { IfOk result (λ command. IsLinked command) }
{
    let (key, word) = words.split_once('=').unwrap_or((words, ""));
    Ok(match name {
        "SET" => {
            let key = bin(alloc, key)?;
            Command::One(key, OneOp::Set(bin(alloc, word)?, Guard::Always))
        }
        "APPEND" => {
            let key = bin(alloc, key)?;
            Command::One(key, OneOp::Append(bin(alloc, word)?))
        }
        "GET" => Command::One(bin(alloc, key)?, OneOp::Get),
        "MSET" => Command::Many(ManyOp::Mset(pairs(alloc, words)?)),
        "MGET" => Command::Many(ManyOp::Mget(keys(alloc, words)?)),
        "KEYS" => Command::Whole(WholeOp::Keys(bin(alloc, key)?)),
        _ => Command::Plain(PlainOp::Ping(None)),
    })
}

/// Runs the command of this name. It stands in a list, since to let a list go is one way on and not one for each
/// kind of command.
fn run(
    alloc: Global,
    table: &mut Table,
    name: &str,
    words: &str,
    reply: &mut Pieces,
) -> Result<(), NoMemory> {
    let mut commands = Vec::new(alloc);
    commands.push(command(alloc, name, words)?)?;
    table.run_command(alloc, &mut commands[0], reply)
}

/// Each case is a command, its words and its reply. All run on one table, and write one reply after another into
/// the same room.
fn expect(rt: &impl Abort, alloc: Global, cases: &[(&str, &str, &str)]) -> Result<(), NoMemory> {
    let mut table = Table::new(alloc);
    let mut reply = Pieces::new(alloc);
    'cases: for case in cases {
        run(alloc, &mut table, case.0, case.1, &mut reply)?;
        assert_eq!(rt; reply.len(), case.2.len(), "{} {}", case.0, case.1);
        assert_eq!(rt; reply.run(0), case.2.as_bytes(), "{} {}", case.0, case.1);
    }
    Ok(())
}

#[test]
fn what_mset_puts_mget_gets(rt: HostRuntime) -> Result<(), NoMemory> {
    let cases = [
        ("MSET", "x=1 y=2", "+OK\r\n"),
        ("MGET", "x y z", "*3\r\n$1\r\n1\r\n$1\r\n2\r\n$-1\r\n"),
    ];
    expect(&rt, rt.alloc(), &cases)
}

#[test]
fn a_key_that_was_set_is_appended_to_and_listed(rt: HostRuntime) -> Result<(), NoMemory> {
    let cases = [
        ("SET", "mykey=Hello", "+OK\r\n"),
        ("APPEND", "mykey= World", ":11\r\n"),
        ("KEYS", "my*", "*1\r\n$5\r\nmykey\r\n"),
    ];
    expect(&rt, rt.alloc(), &cases)
}

#[test]
fn a_string_in_place_and_a_longer_one_are_got_whole(rt: HostRuntime) -> Result<(), NoMemory> {
    let cases = [
        ("SET", "a=abcdefghijklmnopqrstuvwxyz0123", "+OK\r\n"),
        ("SET", "b=abcdefghijklmnopqrstuvwxyz01234", "+OK\r\n"),
        ("GET", "a", "$30\r\nabcdefghijklmnopqrstuvwxyz0123\r\n"),
        ("GET", "b", "$31\r\nabcdefghijklmnopqrstuvwxyz01234\r\n"),
        // a reply that doesn't stand in place
        ("APPEND", "a=abcdefghijklmnopqrstuvwxyz", ":56\r\n"),
        (
            "GET",
            "a",
            "$56\r\nabcdefghijklmnopqrstuvwxyz0123abcdefghijklmnopqrstuvwxyz\r\n",
        ),
        ("PING", "", "+PONG\r\n"),
        ("GET", "c", "$-1\r\n"),
    ];
    expect(&rt, rt.alloc(), &cases)
}
