//! The corner cases of Redis's pages on these commands, with ample memory: that a call then finds it is in no
//! clause. A list is written as a text, each byte an element, and a missing key as "-".

use df_list::ListVal;
use df_lists::prepare_into;
use df_model::{Beside, Bin, Bins, ErrorText, Family, NoMemory, OneOp, Side};
use df_values::{Change, Pieces, StrVal, Value};
use std::alloc::Global;
use std::process::Abort;

fn words(alloc: Global, text: &[u8]) -> Result<Bins, NoMemory> {
    let mut words = Bins::new(alloc);
    'bytes: for byte in text {
        words.reserve(1)?;
        words.push(Bin::from_slice(alloc, &[*byte])?);
    }
    Ok(words)
}

fn list_of(alloc: Global, text: &[u8]) -> Result<ListVal, NoMemory> {
    let mut list = ListVal::new(alloc);
    'bytes: for byte in text {
        list.reserve(1)?;
        list.push_back(Bin::from_slice(alloc, &[*byte])?);
    }
    Ok(list)
}

/// The command of this name. A pivot stands behind the element and an equals sign.
fn command(alloc: Global, name: &str, from: i64, to: i64, text: &str) -> Result<OneOp, NoMemory> {
    let (element, pivot) = text.split_once('=').unwrap_or((text, ""));
    Ok(match name {
        "LPUSH" => OneOp::Lpush(words(alloc, text.as_bytes())?),
        "RPUSH" => OneOp::Rpush(words(alloc, text.as_bytes())?),
        "LPUSHX" => OneOp::Lpushx(words(alloc, text.as_bytes())?),
        "RPUSHX" => OneOp::Rpushx(words(alloc, text.as_bytes())?),
        "LRANGE" => OneOp::Lrange(from, to),
        "LINDEX" => OneOp::Lindex(from),
        "LSET" => OneOp::Lset(from, Bin::from_slice(alloc, element.as_bytes())?),
        "LINSERT BEFORE" => linsert(alloc, Beside::Before, pivot, element)?,
        "LINSERT AFTER" => linsert(alloc, Beside::After, pivot, element)?,
        "LREM" => OneOp::Lrem(from, Bin::from_slice(alloc, element.as_bytes())?),
        "LTRIM" => OneOp::Ltrim(from, to),
        _ => OneOp::Llen,
    })
}

fn linsert(alloc: Global, beside: Beside, pivot: &str, element: &str) -> Result<OneOp, NoMemory> {
    let pivot = Bin::from_slice(alloc, pivot.as_bytes())?;
    let element = Bin::from_slice(alloc, element.as_bytes())?;
    Ok(OneOp::Linsert(beside, pivot, element))
}

fn prepared_on(
    alloc: Global,
    mut op: OneOp,
    held: &str,
    reply: &mut Pieces,
) -> Result<Change, NoMemory> {
    match op.family() {
        Family::Lists => {}
        _ => {
            reply.put_error(&ErrorText::Unknown)?;
            return Ok(Change::Keep);
        }
    }
    if held == "-" {
        return prepare_into(alloc, &mut op, None, reply);
    }
    let mut value = Value::List(list_of(alloc, held.as_bytes())?);
    prepare_into(alloc, &mut op, Some(&mut value), reply)
}

fn name_of(change: &Change) -> &[u8] {
    match change {
        Change::Keep => b"keep",
        Change::Put(_) => b"put",
        Change::Delete => b"delete",
        Change::Edit(_) => b"edit",
    }
}

/// The reply, and then what becomes of the key.
fn told_of(alloc: Global, op: OneOp, held: &str) -> Result<Vec<u8>, NoMemory> {
    let mut reply = Pieces::new(alloc);
    let change = prepared_on(alloc, op, held, &mut reply)?;
    let mut told = Vec::new(alloc);
    reply.append_to(&mut told)?;
    told.extend_from_slice(name_of(&change))?;
    Ok(told)
}

/// Each case is a command, its numbers, its text, what is held, and what is told.
fn expect(
    rt: &impl Abort,
    alloc: Global,
    cases: &[(&str, i64, i64, &str, &str, &str)],
) -> Result<(), NoMemory> {
    'cases: for case in cases {
        let op = command(alloc, case.0, case.1, case.2, case.3)?;
        let told = told_of(alloc, op, case.4)?;
        assert_eq!(rt;
            told.as_slice(),
            case.5.as_bytes(),
            "{} on {}",
            case.0,
            case.4
        );
    }
    Ok(())
}

#[test]
fn pushes(rt: HostRuntime) -> Result<(), NoMemory> {
    let cases = [
        ("LPUSH", 0, 0, "xy", "-", ":2\r\nput"),
        ("RPUSH", 0, 0, "xy", "a", ":3\r\nedit"),
        ("LPUSHX", 0, 0, "x", "-", ":0\r\nkeep"),
        ("RPUSHX", 0, 0, "x", "a", ":2\r\nedit"),
    ];
    expect(&rt, rt.alloc(), &cases)
}

#[test]
fn pops(rt: HostRuntime) -> Result<(), NoMemory> {
    let cases = [
        (Side::Left, None, "-", "$-1\r\nkeep"),
        (Side::Left, None, "a", "$1\r\na\r\ndelete"),
        (Side::Right, None, "abc", "$1\r\nc\r\nedit"),
        (Side::Right, Some(1), "-", "*-1\r\nkeep"),
        (Side::Left, Some(0), "ab", "*0\r\nkeep"),
        (
            Side::Left,
            Some(9),
            "ab",
            "*2\r\n$1\r\na\r\n$1\r\nb\r\ndelete",
        ),
        (
            Side::Right,
            Some(2),
            "abc",
            "*2\r\n$1\r\nc\r\n$1\r\nb\r\nedit",
        ),
    ];
    'cases: for (side, count, held, wanted) in cases {
        let op = match side {
            Side::Left => OneOp::Lpop(count),
            Side::Right => OneOp::Rpop(count),
        };
        let told = told_of(rt.alloc(), op, held)?;
        assert_eq!(rt; told.as_slice(), wanted.as_bytes(), "on {held}");
    }
    Ok(())
}

#[test]
fn looks(rt: HostRuntime) -> Result<(), NoMemory> {
    let cases = [
        ("LLEN", 0, 0, "", "abc", ":3\r\nkeep"),
        (
            "LRANGE",
            -2,
            9,
            "",
            "abc",
            "*2\r\n$1\r\nb\r\n$1\r\nc\r\nkeep",
        ),
        ("LRANGE", 5, 10, "", "abc", "*0\r\nkeep"),
        ("LRANGE", 0, -1, "", "-", "*0\r\nkeep"),
        ("LINDEX", -1, 0, "", "abc", "$1\r\nc\r\nkeep"),
        ("LINDEX", 3, 0, "", "abc", "$-1\r\nkeep"),
    ];
    expect(&rt, rt.alloc(), &cases)
}

#[test]
fn places(rt: HostRuntime) -> Result<(), NoMemory> {
    let cases = [
        ("LSET", -2, 0, "x", "abc", "+OK\r\nedit"),
        ("LSET", 0, 0, "a", "abc", "+OK\r\nkeep"),
        ("LSET", 3, 0, "x", "abc", "-ERR index out of range\r\nkeep"),
        ("LSET", 0, 0, "x", "-", "-ERR no such key\r\nkeep"),
        ("LINSERT BEFORE", 0, 0, "x=b", "abc", ":4\r\nedit"),
        ("LINSERT AFTER", 0, 0, "x=z", "abc", ":-1\r\nkeep"),
        ("LINSERT AFTER", 0, 0, "x=a", "-", ":0\r\nkeep"),
    ];
    expect(&rt, rt.alloc(), &cases)
}

#[test]
fn removals(rt: HostRuntime) -> Result<(), NoMemory> {
    let cases = [
        ("LREM", -2, 0, "h", "hhfh", ":2\r\nedit"),
        ("LREM", 0, 0, "h", "hh", ":2\r\ndelete"),
        ("LREM", 1, 0, "z", "ab", ":0\r\nkeep"),
        ("LTRIM", 1, -1, "", "abc", "+OK\r\nedit"),
        ("LTRIM", 0, -1, "", "abc", "+OK\r\nkeep"),
        ("LTRIM", 5, 9, "", "abc", "+OK\r\ndelete"),
    ];
    expect(&rt, rt.alloc(), &cases)
}

#[test]
fn a_string_is_no_list(rt: HostRuntime) -> Result<(), NoMemory> {
    let mut value = Value::Str(StrVal::new());
    let mut reply = Pieces::new(rt.alloc());
    let _keep = prepare_into(rt.alloc(), &mut OneOp::Llen, Some(&mut value), &mut reply)?;
    assert_eq!(rt;
        reply.run(0),
        b"-WRONGTYPE Operation against a key holding the wrong kind of value\r\n".as_slice()
    );
    Ok(())
}
