//! Requests and what they spell, from the command tables of the Redis pages: each command with a
//! count of words that it takes and with one that it refuses, names and options in any case.

use bytes::Bytes;
use df_model::{Command, ErrorText, NoMemory, WholeOp};
use df_parse::{Refusal, read_into, read_linked};
use std::alloc::Global;

#[test]
fn words_spell_commands(rt: HostRuntime) -> Result<(), NoMemory> {
    let tables = [
        (plain(), "plain"),
        (one(), "one key"),
        (many(), "several keys"),
        (whole(), "whole keyspace"),
        (wrong_count(), "wrong count"),
        (wrong_syntax(), "wrong syntax"),
        (no_number(), "no number"),
        (unpaired(), "unpaired"),
        (unknown(), "unknown"),
        ("SELECT 1", "other database"),
        ("SETRANGE k -1 v", "offset"),
    ];
    for (requests, wanted) in tables {
        let misread = first_misread(rt.alloc(), requests, wanted)?;
        assert_eq!(rt; misread, None, "{wanted}");
    }
    Ok(())
}

#[test]
fn all_commands_but_save_run_so_far(rt: HostRuntime) -> Result<(), NoMemory> {
    let table = [
        ("GET k", "one key"),
        ("Get", "wrong count"),
        ("SET k v NX", "one key"),
        ("SET k v NX XX", "wrong syntax"),
        ("ping", "plain"),
        ("PING a b", "wrong count"),
        ("INCR k", "one key"),
        ("DEL k", "several keys"),
        ("SAVE", "unknown"),
        ("save now", "unknown"),
    ];
    for (request, wanted) in table {
        let words = words_of(rt.alloc(), request)?;
        let mut command = Command::Whole(WholeOp::Dbsize);
        let answer = read_linked(rt.alloc(), words.as_slice(), &mut command);
        let spelled = kind_of(&answer, &command);
        assert_eq!(rt; spelled, wanted, "{request}");
    }
    Ok(())
}

/// The first line that doesn't spell what is wanted.
fn first_misread<'a>(
    alloc: Global,
    requests: &'a str,
    wanted: &str,
) -> Result<Option<&'a str>, NoMemory> {
    for request in requests.lines() {
        let words = words_of(alloc, request)?;
        let mut command = Command::Whole(WholeOp::Dbsize);
        let answer = read_into(alloc, words.as_slice(), &mut command);
        if kind_of(&answer, &command) != wanted {
            return Ok(Some(request));
        }
    }
    Ok(None)
}

fn words_of(alloc: Global, request: &str) -> Result<Vec<Bytes>, NoMemory> {
    let mut words = Vec::new(alloc);
    for word in request.split(' ') {
        words.push(Bytes::copy_from_slice(alloc, word.as_bytes())?)?;
    }
    Ok(words)
}

fn kind_of(answer: &Result<(), Refusal>, command: &Command) -> &'static str {
    match answer {
        Ok(()) => kind_of_command(command),
        Err(Refusal::Unknown) => "unknown",
        Err(Refusal::Arity(_)) => "wrong count",
        Err(Refusal::NoMemory) => "no memory",
    }
}

fn plain() -> &'static str {
    "ping
PING hello
ECHO hello
SELECT 0"
}

fn one() -> &'static str {
    "GET k
SET k v
set k v nx
SET k v XX xX
SETNX k v
GETSET k v
GETDEL k
APPEND k v
STRLEN k
GETRANGE k 0 -1
SETRANGE k 0 v
INCR k
DECR k
INCRBY k 9223372036854775807
DECRBY k -9223372036854775808
HSET k f v
hset k f v g w
HMSET k f v
HSETNX k f v
HGET k f
HMGET k f g
HDEL k f
HLEN k
HEXISTS k f
HSTRLEN k f
HKEYS k
HVALS k
HGETALL k
HINCRBY k f -1
LPUSH k a b
rPuSh k a
LPUSHX k a
RPUSHX k a
LPOP k
LPOP k 0
RPOP k
RPOP k 2
LLEN k
LRANGE k 0 -1
LINDEX k -1
LSET k 0 v
LINSERT k BEFORE p v
LINSERT k aFTer p v
LREM k -2 v
LTRIM k 1 2
SADD k a b
SREM k a
SCARD k
SISMEMBER k a
SMISMEMBER k a b
SMEMBERS k
TYPE k"
}

fn many() -> &'static str {
    "MGET k l
MSET k v
MSETNX k v l w
LMOVE s d LEFT right
RPOPLPUSH s d
SMOVE s d m
SINTER k l
SUNION k
SDIFF k l m
SINTERSTORE d k
SUNIONSTORE d k l
SDIFFSTORE d k
DEL k l
UNLINK k
EXISTS k k
RENAME s d
RENAMENX s d"
}

fn whole() -> &'static str {
    "SAVE
dbSize
KEYS *
FLUSHALL
FLUSHALL async
FLUSHDB
FLUSHDB SYNC"
}

fn wrong_count() -> &'static str {
    "PING a b
ECHO
SELECT
SAVE now
DBSIZE 0
KEYS
get
GET k l
SET k
SETNX k
GETSET k v w
GETDEL
APPEND k
STRLEN k l
GETRANGE k 0
SETRANGE k 0
INCR
DECR k 1
INCRBY k
DECRBY k 1 2
MGET
MSET k
MSETNX
HSET k f
HMSET k f
HSETNX k f
HGET k
HMGET k
HDEL k
HLEN
HEXISTS k
HSTRLEN k f g
HKEYS
HVALS k l
HGETALL
HINCRBY k f
LPUSH k
RPUSH k
LPUSHX k
RPUSHX k
LPOP
RPOP k 1 2
LLEN
LRANGE k 0
LINDEX k
LSET k 0
LINSERT k BEFORE p
LREM k 1
LTRIM k 0
LMOVE s d LEFT
RPOPLPUSH s
SADD k
SREM k
SCARD
SISMEMBER k
SMISMEMBER k
SMEMBERS
SMOVE s d
SINTER
SUNION
SDIFF
SINTERSTORE d
SUNIONSTORE d
SDIFFSTORE d
DEL
UNLINK
EXISTS
TYPE
RENAME s
RENAMENX s d e
SELECT x y
LRANGE k x
LMOVE s d UP DOWN x"
}

fn wrong_syntax() -> &'static str {
    "SET k v NX XX
SET k v EX
LINSERT k BESIDE p v
LMOVE s d LEFT UP
LMOVE s d UP LEFT
FLUSHALL now
FLUSHDB ASYNC SYNC"
}

fn no_number() -> &'static str {
    "SELECT x
GETRANGE k 0 x
GETRANGE k x 0
SETRANGE k x v
INCRBY k 9223372036854775808
DECRBY k 01
HINCRBY k f 1.5
LPOP k -1
RPOP k x
LRANGE k 0 +1
LINDEX k -0
LSET k x v
LREM k x v
LTRIM k 0 x"
}

// One word too few for pairs: a command, so that a transaction queues it.
fn unpaired() -> &'static str {
    "MSET k v l
MSETNX k v l
HSET k f v g
HMSET k f v g"
}

fn unknown() -> &'static str {
    "NOPE
GE k
GETS k
SETRANGES k 0 v
PINGS
FLUSHDBX
FLUSHALLNOWX
LPUSHY k a
HGETX k f
SINTERS k"
}

fn kind_of_command(command: &Command) -> &'static str {
    match command {
        Command::Plain(_) => "plain",
        Command::One(_, _) => "one key",
        Command::Many(_) => "several keys",
        Command::Whole(_) => "whole keyspace",
        Command::Wrong(ErrorText::Syntax) => "wrong syntax",
        Command::Wrong(ErrorText::NotInteger) => "no number",
        Command::Wrong(ErrorText::Arity(_)) => "unpaired",
        Command::Wrong(ErrorText::DbIndex) => "other database",
        Command::Wrong(ErrorText::OffsetRange) => "offset",
        Command::Wrong(_) => "wrong",
    }
}
