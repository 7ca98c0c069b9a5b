//! That commands answer where there is memory, and what they answer in corner cases.

ghost use Rattle.std.specs.Prelude.{IfOk};
ghost use Rattle.df_model.specs.Families.{family_of};
ghost use Rattle.df_hashes.specs.Serves.{Serves};

use df_colls::HashVal;
use df_hashes::prepare_into;
use df_model::{Bin, Bins, NoMemory, OneOp, Pairs};
use df_text::parse_i64;
use df_values::{Change, Pieces, StrVal, Value};
use std::alloc::Global;

fn bin(alloc: Global, text: &str) -> Result<Bin, NoMemory> {
    Bin::from_slice(alloc, text.as_bytes())
}

fn bins(alloc: Global, words: &str) -> Result<Bins, NoMemory> {
    let mut bins = Bins::new(alloc);
    'words: for word in words.split(' ') {
        let word = bin(alloc, word)?;
        bins.reserve(1)?;
        bins.push(word);
    }
    Ok(bins)
}

/// Each word is a field, an equals sign and what the field is to hold.
fn pairs(alloc: Global, words: &str) -> Result<Pairs, NoMemory> {
    let mut pairs = Pairs::new(alloc);
    'words: for word in words.split(' ') {
        if let Some((field, word)) = word.split_once('=') {
            let pair = (bin(alloc, field)?, bin(alloc, word)?);
            pairs.reserve(1)?;
            pairs.push(pair);
        }
    }
    Ok(pairs)
}

/// The command of this name. For HSETNX and HINCRBY the word is a pair.
fn command(alloc: Global, name: &str, words: &str) -> Result<OneOp, NoMemory>
    ensures { IfOk result (λ op. Serves (family_of op)) }
{
    let (field, word) = words.split_once('=').unwrap_or((words, ""));
    Ok(match name {
        "HSET" => OneOp::Hset(pairs(alloc, words)?),
        "HMSET" => OneOp::Hmset(pairs(alloc, words)?),
        "HSETNX" => {
            let field = bin(alloc, field)?;
            OneOp::Hsetnx(field, bin(alloc, word)?)
        }
        "HGET" => OneOp::Hget(bin(alloc, field)?),
        "HMGET" => OneOp::Hmget(bins(alloc, words)?),
        "HDEL" => OneOp::Hdel(bins(alloc, words)?),
        "HEXISTS" => OneOp::Hexists(bin(alloc, field)?),
        "HSTRLEN" => OneOp::Hstrlen(bin(alloc, field)?),
        "HKEYS" => OneOp::Hkeys,
        "HVALS" => OneOp::Hvals,
        "HGETALL" => OneOp::Hgetall,
        "HINCRBY" => {
            let n = parse_i64(word.as_bytes()).unwrap_or(0);
            OneOp::Hincrby(bin(alloc, field)?, n)
        }
        _ => OneOp::Hlen,
    })
}

/// What becomes of the key, and behind it the reply.
fn answer(alloc: Global, mut op: OneOp, value: Option<&mut Value>) -> Result<Vec<u8>, NoMemory>
    requires { Serves (family_of op) }
{
    let mut reply = Pieces::new(alloc);
    let change = match prepare_into(alloc, &mut op, value, &mut reply)? {
        Change::Keep => "keep ",
        Change::Put(_) => "put ",
        Change::Delete => "delete ",
        Change::Edit(_) => "edit ",
    };
    let mut text = Vec::from_slice(alloc, change.as_bytes())?;
    reply.append_to(&mut text)?;
    Ok(text)
}

/// A hash with a number, an empty word and a word.
fn some_hash(alloc: Global) -> Result<Value, NoMemory> {
    let mut hash = HashVal::new(alloc);
    'entries: for (field, word) in [("a", "10"), ("b", ""), ("c", "word")] {
        let field = bin(alloc, field)?;
        let word = bin(alloc, word)?;
        hash.reserve(1)?;
        let _old = hash.put(field, word);
    }
    Ok(Value::Hash(hash))
}

#[test]
fn commands_answer_for_a_hash(rt: HostRuntime) -> Result<(), NoMemory> {
    let alloc = rt.alloc();
    let mut hash = some_hash(alloc)?;
    let cases = [
        ("HSET", "a=1 a=2 d=3 d=4", "edit :1\r\n"),
        ("HSET", "a=10", "keep :0\r\n"),
        ("HSET", "a=1 a=10", "keep :0\r\n"),
        ("HSET", "a=10 a=1", "edit :0\r\n"),
        ("HSET", "a=1 d=1 e=1 f=1 g=1 h=1 i=1 d=1 a=1", "edit :6\r\n"),
        ("HMSET", "a=1", "edit +OK\r\n"),
        ("HSETNX", "b=1", "keep :0\r\n"),
        ("HSETNX", "d=1", "edit :1\r\n"),
        ("HDEL", "a a d", "edit :1\r\n"),
        ("HDEL", "a b c", "delete :3\r\n"),
        ("HDEL", "d", "keep :0\r\n"),
        ("HDEL", "a d e f g h i d a", "edit :1\r\n"),
        ("HINCRBY", "a=-11", "edit :-1\r\n"),
        ("HINCRBY", "a=0", "keep :10\r\n"),
        ("HINCRBY", "d=3", "edit :3\r\n"),
        (
            "HINCRBY",
            "c=1",
            "keep -ERR hash value is not an integer\r\n",
        ),
        (
            "HINCRBY",
            "a=9223372036854775807",
            "keep -ERR increment or decrement would overflow\r\n",
        ),
        ("HGET", "c", "keep $4\r\nword\r\n"),
        ("HGET", "d", "keep $-1\r\n"),
        ("HMGET", "a d b", "keep *3\r\n$2\r\n10\r\n$-1\r\n$0\r\n\r\n"),
        ("HLEN", "", "keep :3\r\n"),
        ("HEXISTS", "b", "keep :1\r\n"),
        ("HEXISTS", "d", "keep :0\r\n"),
        ("HSTRLEN", "c", "keep :4\r\n"),
        ("HSTRLEN", "d", "keep :0\r\n"),
        ("HKEYS", "", "keep *3\r\n$1\r\na\r\n$1\r\nb\r\n$1\r\nc\r\n"),
        (
            "HVALS",
            "",
            "keep *3\r\n$2\r\n10\r\n$0\r\n\r\n$4\r\nword\r\n",
        ),
    ];
    'cases: for (name, words, text) in cases {
        let op = command(alloc, name, words)?;
        let answer = answer(alloc, op, Some(&mut hash))?;
        assert_eq!(rt; answer.as_slice(), text.as_bytes(), "{name} {words}");
    }
    Ok(())
}

#[test]
fn a_missing_key_is_an_empty_hash(rt: HostRuntime) -> Result<(), NoMemory> {
    let alloc = rt.alloc();
    let cases = [
        ("HSET", "a=1 b=2 a=3", "put :2\r\n"),
        ("HINCRBY", "a=-5", "put :-5\r\n"),
        ("HDEL", "a", "keep :0\r\n"),
        ("HGETALL", "", "keep *0\r\n"),
        ("HMGET", "a", "keep *1\r\n$-1\r\n"),
    ];
    'cases: for (name, words, text) in cases {
        let op = command(alloc, name, words)?;
        let answer = answer(alloc, op, None)?;
        assert_eq!(rt; answer.as_slice(), text.as_bytes(), "{name} {words}");
    }
    Ok(())
}

#[test]
fn another_kind_is_refused(rt: HostRuntime) -> Result<(), NoMemory> {
    let alloc = rt.alloc();
    let mut value = Value::Str(StrVal::from_bin(bin(alloc, "a")?));
    let text = b"keep -WRONGTYPE Operation against a key holding the wrong kind of value\r\n";
    'names: for name in ["HLEN", "HSET", "HDEL"] {
        let op = command(alloc, name, "a=1")?;
        let answer = answer(alloc, op, Some(&mut value))?;
        assert_eq!(rt; answer.as_slice(), text.as_slice(), "{name}");
    }
    Ok(())
}
