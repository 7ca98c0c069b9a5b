//! That commands give what the command pages show, and succeed where there is memory.

ghost use Rattle.std.specs.Prelude.{IfOk};
ghost use Rattle.df_model.specs.Families.{family_of};
ghost use Rattle.df_sets.specs.Serves.{Serves};

use df_colls::SetVal;
use df_model::{Bin, Bins, NoMemory, OneOp};
use df_sets::{Combine, combine, prepare_into};
use df_values::{Change, Pieces, StrVal, Value};
use std::alloc::Global;

#[derive(Clone, Copy)]
enum Name {
    Sadd,
    Srem,
    Scard,
    Sismember,
    Smismember,
    Smembers,
}

/// A command with words of one byte each.
fn named(alloc: Global, name: Name, text: &[u8]) -> Result<OneOp, NoMemory>
    ensures { IfOk result (λ op. Serves (family_of op)) }
{
    Ok(match name {
        Name::Sadd => OneOp::Sadd(words(alloc, text)?),
        Name::Srem => OneOp::Srem(words(alloc, text)?),
        Name::Scard => OneOp::Scard,
        Name::Sismember => OneOp::Sismember(Bin::from_slice(alloc, text)?),
        Name::Smismember => OneOp::Smismember(words(alloc, text)?),
        Name::Smembers => OneOp::Smembers,
    })
}

fn words(alloc: Global, text: &[u8]) -> Result<Bins, NoMemory> {
    let mut words = Bins::new(alloc);
    'bytes: for byte in text {
        words.reserve(1)?;
        words.push(Bin::from_slice(alloc, &[*byte])?);
    }
    Ok(words)
}

/// A set of members of one byte each.
fn set(alloc: Global, text: &[u8]) -> Result<SetVal, NoMemory> {
    let mut set = SetVal::new(alloc);
    'bytes: for byte in text {
        set.reserve(1)?;
        let _new = set.add(Bin::from_slice(alloc, &[*byte])?);
    }
    Ok(set)
}

/// A set; a string where the text begins with a quote; nothing where there is no text.
fn held(alloc: Global, text: &[u8]) -> Result<Option<Value>, NoMemory> {
    if text.is_empty() {
        return Ok(None);
    }
    if text[0] == b'"' {
        return Ok(Some(Value::Str(StrVal::new())));
    }
    Ok(Some(Value::Set(set(alloc, text)?)))
}

/// What becomes of the key, and the reply.
fn given(alloc: Global, mut op: OneOp, value: Option<&mut Value>) -> Result<Vec<u8>, NoMemory>
    requires { Serves (family_of op) }
{
    let mut reply = Pieces::new(alloc);
    let change = prepare_into(alloc, &mut op, value, &mut reply)?;
    let mut given = Vec::from_slice(alloc, name_of(&change))?;
    reply.append_to(&mut given)?;
    Ok(given)
}

fn name_of(change: &Change) -> &[u8] {
    match change {
        Change::Keep => b"keep ",
        Change::Put(_) => b"put ",
        Change::Delete => b"delete ",
        Change::Edit(_) => b"edit ",
    }
}

#[test]
fn commands_give_what_the_command_pages_show(rt: HostRuntime) -> Result<(), NoMemory> {
    let alloc = rt.alloc();
    let cases: [(Name, &[u8], &[u8], &[u8]); 13] = [
        (Name::Sadd, b"aba", b"", b"put :2\r\n"),
        (Name::Sadd, b"ccab", b"ab", b"edit :1\r\n"),
        (Name::Sadd, b"ba", b"ab", b"keep :0\r\n"),
        (
            Name::Sadd,
            b"a",
            b"\"",
            b"keep -WRONGTYPE Operation against a key holding the wrong kind of value\r\n",
        ),
        (Name::Srem, b"xbb", b"ab", b"edit :1\r\n"),
        (Name::Srem, b"x", b"ab", b"keep :0\r\n"),
        (Name::Srem, b"bxa", b"ab", b"delete :2\r\n"),
        (Name::Srem, b"a", b"", b"keep :0\r\n"),
        (Name::Scard, b"", b"ab", b"keep :2\r\n"),
        (Name::Sismember, b"x", b"ab", b"keep :0\r\n"),
        (Name::Smismember, b"ax", b"ab", b"keep *2\r\n:1\r\n:0\r\n"),
        (
            Name::Smembers,
            b"",
            b"ba",
            b"keep *2\r\n$1\r\na\r\n$1\r\nb\r\n",
        ),
        (Name::Smembers, b"", b"", b"keep *0\r\n"),
    ];
    'cases: for (name, text, members, want) in cases {
        let op = named(alloc, name, text)?;
        let mut value = held(alloc, members)?;
        let given = given(alloc, op, value.as_mut())?;
        assert_eq!(rt; given.as_slice(), want);
    }
    Ok(())
}

#[test]
fn sets_are_combined_as_the_command_pages_show(rt: HostRuntime) -> Result<(), NoMemory> {
    let alloc = rt.alloc();
    let one = set(alloc, b"abcd")?;
    let two = set(alloc, b"ace")?;
    'ops: for (op, size) in [(Combine::Inter, 2), (Combine::Union, 5), (Combine::Diff, 2)] {
        let made = combine(alloc, op, &[&one, &two])?;
        assert_eq!(rt; made.len(), size);
    }
    Ok(())
}
