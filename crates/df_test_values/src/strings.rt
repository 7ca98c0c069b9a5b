//! That commands find their memory where there is enough, and a caller that does what was prepared.

ghost use Rattle.std.specs.Prelude.{IfOk};
ghost use Rattle.df_strings.specs.Strings.{Serves};
ghost use Rattle.df_model.specs.Families.{family_of};

use df_model::{Bin, Guard, NoMemory, OneOp};
use df_strings::prepare_into;
use df_values::{Change, Pieces, StrVal, Value};
use std::alloc::Global;
use std::process::Abort;

/// Does a command on a value. Answers what the key holds then.
fn done(
    alloc: Global,
    mut op: OneOp,
    mut value: Value,
    reply: &mut Pieces,
) -> Result<Option<Value>, NoMemory>
    requires { Serves (family_of op) }
{
    match prepare_into(alloc, &mut op, Some(&mut value), reply)? {
        Change::Keep => Ok(Some(value)),
        Change::Put(new) => Ok(Some(new)),
        Change::Delete => Ok(None),
        Change::Edit(edit) => {
            edit.apply(&mut value);
            Ok(Some(value))
        }
    }
}

/// The command of this name, with its number and its word.
fn command(alloc: Global, name: &str, n: i64, word: &str) -> Result<OneOp, NoMemory>
    ensures { IfOk result (λ op. Serves (family_of op)) }
{
    let word = Bin::from_slice(alloc, word.as_bytes())?;
    Ok(match name {
        "APPEND" => OneOp::Append(word),
        "SETRANGE" => OneOp::Setrange(n, word),
        "SET XX" => OneOp::Set(word, Guard::Xx),
        "GET" => OneOp::Get,
        "GETRANGE" => OneOp::Getrange(n, -2),
        "INCRBY" => OneOp::Incrby(n),
        "DECRBY" => OneOp::Decrby(n),
        "INCR" => OneOp::Incr,
        _ => OneOp::KindOf,
    })
}

/// Each case is a command, its number, its word, what is held, the reply, and what is held then.
fn expect(
    rt: &impl Abort,
    alloc: Global,
    cases: &[(&str, i64, &str, &str, &str, &str)],
) -> Result<(), NoMemory> {
    let mut reply = Pieces::new(alloc);
    'cases: for case in cases {
        let op = command(alloc, case.0, case.1, case.2)?;
        let value = StrVal::from_bin(Bin::from_slice(alloc, case.3.as_bytes())?);
        let value = done(alloc, op, Value::Str(value), &mut reply)?;
        assert_eq!(rt; reply.run(0), case.4.as_bytes(), "{} on {}", case.0, case.3);
        let Some(Value::Str(text)) = value else {
            panic!(rt; "the key holds no string");
        };
        assert_eq!(rt;
            text.as_slice(),
            case.5.as_bytes(),
            "{} on {}",
            case.0,
            case.3
        );
    }
    Ok(())
}

#[test]
fn strings_are_read_and_changed(rt: HostRuntime) -> Result<(), NoMemory> {
    let alloc = rt.alloc();
    let table = [
        ("APPEND", 0, "cd", "ab", ":4\r\n", "abcd"),
        ("SETRANGE", 3, "xyz", "a", ":6\r\n", "a\0\0xyz"),
        ("SET XX", 0, "b", "a", "+OK\r\n", "b"),
        ("GETRANGE", 1, "", "hello", "$3\r\nell\r\n", "hello"),
        ("DECRBY", 15, "", "5", ":-10\r\n", "-10"),
        (
            "INCR",
            0,
            "",
            "a",
            "-ERR value is not an integer or out of range\r\n",
            "a",
        ),
        ("TYPE", 0, "", "", "+string\r\n", ""),
    ];
    expect(&rt, alloc, &table)
}

#[test]
fn strings_stand_in_place_up_to_thirty_bytes(rt: HostRuntime) -> Result<(), NoMemory> {
    let alloc = rt.alloc();
    let table = [
        (
            "SET XX",
            0,
            "abcdefghijklmnopqrstuvwxyz0123",
            "a",
            "+OK\r\n",
            "abcdefghijklmnopqrstuvwxyz0123",
        ),
        (
            "GET",
            0,
            "",
            "abcdefghijklmnopqrstuvwxyz0123",
            "$30\r\nabcdefghijklmnopqrstuvwxyz0123\r\n",
            "abcdefghijklmnopqrstuvwxyz0123",
        ),
        (
            "SET XX",
            0,
            "abcdefghijklmnopqrstuvwxyz01234",
            "a",
            "+OK\r\n",
            "abcdefghijklmnopqrstuvwxyz01234",
        ),
        (
            "GET",
            0,
            "",
            "abcdefghijklmnopqrstuvwxyz01234",
            "$31\r\nabcdefghijklmnopqrstuvwxyz01234\r\n",
            "abcdefghijklmnopqrstuvwxyz01234",
        ),
        (
            "APPEND",
            0,
            "z0123",
            "abcdefghijklmnopqrstuvwxy",
            ":30\r\n",
            "abcdefghijklmnopqrstuvwxyz0123",
        ),
        (
            "APPEND",
            0,
            "z01234",
            "abcdefghijklmnopqrstuvwxy",
            ":31\r\n",
            "abcdefghijklmnopqrstuvwxyz01234",
        ),
        (
            "SETRANGE",
            28,
            "xyz",
            "abcdefghijklmnopqrstuvwxy",
            ":31\r\n",
            "abcdefghijklmnopqrstuvwxy\0\0\0xyz",
        ),
    ];
    expect(&rt, alloc, &table)
}

#[test]
fn a_missing_key_is_answered(rt: HostRuntime) -> Result<(), NoMemory> {
    let alloc = rt.alloc();
    let cases = [("SETRANGE", 1, "a", ":2\r\n"), ("INCRBY", 7, "", ":7\r\n")];
    let mut reply = Pieces::new(alloc);
    for (name, n, word, answer) in cases {
        let mut op = command(alloc, name, n, word)?;
        let _put = prepare_into(alloc, &mut op, None, &mut reply)?;
        assert_eq!(rt; reply.run(0), answer.as_bytes(), "{name}");
    }
    Ok(())
}
