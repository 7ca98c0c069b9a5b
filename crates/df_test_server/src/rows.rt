//! Requests with their replies, from the Redis command pages: each line is a session of its own.
//!
//! Requests stand before the arrow, separated by semicolons; `''` is the empty word. Behind the arrow
//! stand the lines of the output, separated by bars.

use crate::pipe::pipe;
use std::alloc::{AllocError, Global};
use std::test::Fail;

const KEYLESS: &str = "\
PING; ping hello; ECHO ''; Echo x -> +PONG|$5|hello|$0||$1|x
SELECT 0; SELECT 1; SELECT x; SELECT -0 -> +OK|-ERR DB index is out of range|-ERR value is not an integer or out of range|-ERR value is not an integer or out of range
DBSIZE; SET a 1; SET b 2; SET a 3; DBSIZE; FLUSHALL; DBSIZE -> :0|+OK|+OK|+OK|:2|+OK|:0
SET a 1; FLUSHDB async; FLUSHALL SYNC; FLUSHALL now; FLUSHDB a b; EXISTS a -> +OK|+OK|+OK|-ERR syntax error|-ERR syntax error|:0
MSET b 1 aa 2 a 3 c 4; KEYS *; KEYS a?; KEYS [^a]; KEYS [a-b]; KEYS x* -> +OK|*4|$1|a|$2|aa|$1|b|$1|c|*1|$2|aa|*2|$1|b|$1|c|*2|$1|a|$1|b|*0
SAVE; save now; NOPE a -> -ERR unknown command|-ERR unknown command|-ERR unknown command
GET; GET a b; EXISTS; MSET a -> -ERR wrong number of arguments for 'get' command|-ERR wrong number of arguments for 'get' command|-ERR wrong number of arguments for 'exists' command|-ERR wrong number of arguments for 'mset' command
PING; QUIT; PING -> +PONG|+OK
PING; quit now; PING -> +PONG|+OK
SHUTDOWN SAVE; SHUTDOWN a b; SHUTDOWN nosave; PING -> -ERR syntax error|-ERR wrong number of arguments for 'shutdown' command";

const ANY: &str = "\
SET a 1; SET b 2; DEL a b a c; EXISTS a b; DEL a -> +OK|+OK|:2|:0|:0
SET a 1; EXISTS a a b a; UNLINK a a; EXISTS a -> +OK|:3|:1|:0
TYPE a; SET a 1; TYPE a; RPUSH l x; TYPE l; HSET h f v; TYPE h; SADD s m; TYPE s -> +none|+OK|+string|:1|+list|:1|+hash|:1|+set
SET a 1; RENAME a a; RENAME q b; RPUSH b p; RENAME a b; TYPE b; EXISTS a a -> +OK|+OK|-ERR no such key|:1|+OK|+string|:0
RENAMENX q b; SET a 1; RENAMENX a a; SET b 2; RENAMENX a b; RENAMENX a c; GET c; EXISTS a -> -ERR no such key|+OK|:0|+OK|:0|:1|$1|1|:0";

const STRINGS: &str = "\
GET m; SET e ''; GET e; STRLEN e; STRLEN m -> $-1|+OK|$0||:0|:0
SET n 9223372036854775807; INCR n; GET n; DECR n; INCRBY n 1; INCRBY n -2 -> +OK|-ERR increment or decrement would overflow|$19|9223372036854775807|:9223372036854775806|:9223372036854775807|:9223372036854775805
DECR n; DECRBY n 9223372036854775807; DECRBY n 1; GET n; DECRBY n -9223372036854775808 -> :-1|:-9223372036854775808|-ERR increment or decrement would overflow|$20|-9223372036854775808|-ERR increment or decrement would overflow
SET v x; INCR v; SET v 01; INCR v; SET v ''; DECR v; INCRBY v y; GET v -> +OK|-ERR value is not an integer or out of range|+OK|-ERR value is not an integer or out of range|+OK|-ERR value is not an integer or out of range|-ERR value is not an integer or out of range|$0|
SET s v; LPUSH s x; GET s; RPUSH l p; RPOP l; TYPE l -> +OK|-WRONGTYPE Operation against a key holding the wrong kind of value|$1|v|:1|$1|p|+none
RPUSH l p; GET l; APPEND l x; INCR l; STRLEN l; GETDEL l; GETSET l v; SETRANGE l 0 x; LLEN l -> :1|-WRONGTYPE Operation against a key holding the wrong kind of value|-WRONGTYPE Operation against a key holding the wrong kind of value|-WRONGTYPE Operation against a key holding the wrong kind of value|-WRONGTYPE Operation against a key holding the wrong kind of value|-WRONGTYPE Operation against a key holding the wrong kind of value|-WRONGTYPE Operation against a key holding the wrong kind of value|-WRONGTYPE Operation against a key holding the wrong kind of value|:1
RPUSH l p; SETNX l v; SET l v NX; SET l v XX; GET l -> :1|:0|$-1|+OK|$1|v
SET k v XX; SET k v NX; SET k w nx nx; SET k w xx; GET k; SET k v NX XX; SET k v EX -> $-1|+OK|$-1|+OK|$1|w|-ERR syntax error|-ERR syntax error
SETNX k v; SETNX k w; GETSET k x; GETSET q y; GETDEL k; GETDEL k; MGET k q -> :1|:0|$1|v|$-1|$1|x|$-1|*2|$-1|$1|y
APPEND a ''; EXISTS a; APPEND a xy; APPEND a z; GET a; STRLEN a -> :0|:1|:2|:3|$3|xyz|:3
SET g abcdef; GETRANGE g 0 2; GETRANGE g -3 -1; GETRANGE g 2 1; GETRANGE g 4 99; GETRANGE g -99 1; GETRANGE g 9 12; GETRANGE m 0 1 -> +OK|$3|abc|$3|def|$0||$2|ef|$2|ab|$0||$0|
SETRANGE k 3 x; STRLEN k; SETRANGE k 1 yz; GETRANGE k 1 2; SETRANGE k 9 ''; SETRANGE m 5 ''; EXISTS m; SETRANGE k -1 x; SETRANGE k 536870912 x; STRLEN k -> :4|:4|:4|$2|yz|:4|:0|:0|-ERR offset is out of range|-ERR string exceeds maximum allowed size|:4
MSET x 1 y 2 x 3; MGET x y x z -> +OK|*4|$1|3|$1|2|$1|3|$-1
MSET a 1 b; MSETNX a; MSETNX a 1 b 2; MSETNX c 3 b 4; MGET a b c; LPUSH l x; MGET l -> -ERR wrong number of arguments for 'mset' command|-ERR wrong number of arguments for 'msetnx' command|:1|:0|*3|$1|1|$1|2|$-1|:1|*1|$-1
MSETNX a 1 a 2; GET a -> :1|$1|2";

const LISTS: &str = "\
RPUSH l a b c; LRANGE l -2 9; LPOP l 5; LPOP l 1; KEYS [^x]* -> :3|*2|$1|b|$1|c|*3|$1|a|$1|b|$1|c|*-1|*0
LPUSH l a b; LRANGE l 0 -1; RPUSH l c; LPUSHX l d; RPUSHX l e; LPUSHX q x; RPUSHX q x; LLEN l; LLEN q -> :2|*2|$1|b|$1|a|:3|:4|:5|:0|:0|:5|:0
RPUSH l a b c; LPOP l; RPOP l; RPOP l; RPOP l; LPOP l 0; EXISTS l -> :3|$1|a|$1|c|$1|b|$-1|*-1|:0
RPUSH l a b c d; RPOP l 2; LPOP l 0; LPOP l -1; RPOP l 9; TYPE l -> :4|*2|$1|d|$1|c|*0|-ERR value is not an integer or out of range|*2|$1|b|$1|a|+none
RPUSH l a b c; LINDEX l 0; LINDEX l -1; LINDEX l 3; LINDEX l -4; LINDEX q 0 -> :3|$1|a|$1|c|$-1|$-1|$-1
RPUSH l a b; LSET l -1 z; LSET l 2 x; LSET q 0 x; LSET l 0 a; LRANGE l 0 -1 -> :2|+OK|-ERR index out of range|-ERR no such key|+OK|*2|$1|a|$1|z
RPUSH l a b a; LINSERT l BEFORE a x; LINSERT l after a y; LINSERT l before q z; LINSERT m before a z; LINSERT l at a z; LRANGE l 0 -1 -> :3|:4|:5|:-1|:0|-ERR syntax error|*5|$1|x|$1|a|$1|y|$1|b|$1|a
RPUSH l a b a c a; LREM l 1 a; LREM l -1 a; LRANGE l 0 -1; LREM l 0 a; LREM l 0 q; LREM m 0 a; LREM l 0 b; LREM l 5 c; EXISTS l -> :5|:1|:1|*3|$1|b|$1|a|$1|c|:1|:0|:0|:1|:1|:0
RPUSH l a b c d; LTRIM l 1 -2; LRANGE l 0 -1; LTRIM l -9 9; LLEN l; LTRIM l 5 9; EXISTS l; LTRIM l 0 0 -> :4|+OK|*2|$1|b|$1|c|+OK|:2|+OK|:0|+OK
LRANGE m 0 -1; RPUSH l a; LRANGE l 1 0; LRANGE l 0 9223372036854775807; LRANGE l -9223372036854775808 0; LTRIM l 9223372036854775807 -1; EXISTS l -> *0|:1|*0|*1|$1|a|*1|$1|a|+OK|:0
RPUSH s a b; LMOVE s s LEFT RIGHT; LRANGE s 0 -1; LMOVE s d RIGHT LEFT; LMOVE s d RIGHT RIGHT; LRANGE d 0 -1; EXISTS s; LMOVE s d LEFT LEFT -> :2|$1|a|*2|$1|b|$1|a|$1|a|$1|b|*2|$1|a|$1|b|:0|$-1
RPUSH s a; RPOPLPUSH s s; LRANGE s 0 -1; SET d v; RPOPLPUSH s d; RPOPLPUSH d s; RPOPLPUSH m d; LMOVE s d UP LEFT; LLEN s -> :1|$1|a|*1|$1|a|+OK|-WRONGTYPE Operation against a key holding the wrong kind of value|-WRONGTYPE Operation against a key holding the wrong kind of value|$-1|-ERR syntax error|:1
SADD s m; LPUSH s x; LLEN s; LPOP s; LRANGE s 0 1 -> :1|-WRONGTYPE Operation against a key holding the wrong kind of value|-WRONGTYPE Operation against a key holding the wrong kind of value|-WRONGTYPE Operation against a key holding the wrong kind of value|-WRONGTYPE Operation against a key holding the wrong kind of value";

const HASHES: &str = "\
HSET h f 1 g 2 f 3; HGETALL h; HINCRBY h f 4; HDEL h f g; TYPE h -> :2|*4|$1|f|$1|3|$1|g|$1|2|:7|:2|+none
HSET h b 1 a 2; HKEYS h; HVALS h; HLEN h; HSET h a 3 c 4; HMSET h d 5; HMGET h a x d; HGET h x; HGET q x; HMGET q a b -> :2|*2|$1|a|$1|b|*2|$1|2|$1|1|:2|:1|+OK|*3|$1|3|$-1|$1|5|$-1|$-1|*2|$-1|$-1
HSETNX h f 1; HSETNX h f 2; HGET h f; HEXISTS h f; HEXISTS h g; HEXISTS q f; HSTRLEN h f; HSTRLEN h g; HLEN q -> :1|:0|$1|1|:1|:0|:0|:1|:0|:0
HSET h f; HSET h f 1 g; HMSET h f 1 g -> -ERR wrong number of arguments for 'hset' command|-ERR wrong number of arguments for 'hset' command|-ERR wrong number of arguments for 'hmset' command
HINCRBY h f 5; HINCRBY h f -7; HSET h g x; HINCRBY h g 1; HINCRBY h f y; HSET h m 9223372036854775807; HINCRBY h m 1; HGET h m -> :5|:-2|:1|-ERR hash value is not an integer|-ERR value is not an integer or out of range|:1|-ERR increment or decrement would overflow|$19|9223372036854775807
HSET h f 1 g 2; HDEL h x; HDEL h f f x; HDEL q f; HLEN h; HGETALL q; HKEYS q -> :2|:0|:1|:0|:1|*0|*0
SET s v; HSET s f 1; HGET s f; HDEL s f; HGETALL s; HINCRBY s f 1 -> +OK|-WRONGTYPE Operation against a key holding the wrong kind of value|-WRONGTYPE Operation against a key holding the wrong kind of value|-WRONGTYPE Operation against a key holding the wrong kind of value|-WRONGTYPE Operation against a key holding the wrong kind of value|-WRONGTYPE Operation against a key holding the wrong kind of value";

const SETS: &str = "\
SADD s c a; SADD t b a; SUNIONSTORE u s t; SMEMBERS u; SINTERSTORE u s q; EXISTS u; SDIFF s t -> :2|:2|:3|*3|$1|a|$1|b|$1|c|:0|:0|*1|$1|c
SADD s a b a; SADD s a; SCARD s; SISMEMBER s a; SISMEMBER s x; SMISMEMBER s b x a; SREM s x; SREM s a a b; EXISTS s; SREM s a; SCARD s -> :2|:0|:2|:1|:0|*3|:1|:0|:1|:0|:2|:0|:0|:0
SMEMBERS q; SISMEMBER q a; SMISMEMBER q a b; SADD s '' b; SMEMBERS s -> *0|:0|*2|:0|:0|:2|*2|$0||$1|b
SADD s a b; SMOVE s d a; SMOVE s d a; SMEMBERS d; SMOVE s s b; SMOVE s s x; SMOVE s d b; EXISTS s; SMOVE q d a -> :2|:1|:0|*1|$1|a|:1|:0|:1|:0|:0
SET v x; SADD s a; SMOVE q v a; SMOVE s v a; SMOVE s v x; SMOVE v s a; SMEMBERS s -> +OK|:1|:0|-WRONGTYPE Operation against a key holding the wrong kind of value|-WRONGTYPE Operation against a key holding the wrong kind of value|-WRONGTYPE Operation against a key holding the wrong kind of value|*1|$1|a
SADD s a b c; SADD t b c d; SADD u c; SINTER s t u; SUNION s t; SDIFF s t u; SDIFF s; SINTER s q; SUNION q; SDIFF q s -> :3|:3|:1|*1|$1|c|*4|$1|a|$1|b|$1|c|$1|d|*1|$1|a|*3|$1|a|$1|b|$1|c|*0|*0|*0
SADD s a b; SET v x; SINTER s v; SUNION v s; SDIFF q v; SUNIONSTORE d s v; SDIFFSTORE v s q; SMEMBERS v; SINTERSTORE s s s; SDIFFSTORE s s s; EXISTS s -> :2|+OK|-WRONGTYPE Operation against a key holding the wrong kind of value|-WRONGTYPE Operation against a key holding the wrong kind of value|-WRONGTYPE Operation against a key holding the wrong kind of value|-WRONGTYPE Operation against a key holding the wrong kind of value|:2|*2|$1|a|$1|b|:2|:0|:0";

const TRANSACTIONS: &str = "\
MULTI; SET a 1; INCR a; GET b; EXEC; GET a -> +OK|+QUEUED|+QUEUED|+QUEUED|*3|+OK|:2|$-1|$1|2
SET a 1; MULTI; SET a 2; DISCARD; GET a -> +OK|+OK|+QUEUED|+OK|$1|1
MULTI; EXEC; EXEC; DISCARD -> +OK|*0|-ERR EXEC without MULTI|-ERR DISCARD without MULTI
MULTI; NOPE a; SET a 1; EXEC; EXISTS a -> +OK|-ERR unknown command|+QUEUED|-EXECABORT Transaction discarded because of previous errors.|:0
SET s v; MULTI; LPUSH s x; SET a 1; EXEC; GET a -> +OK|+OK|+QUEUED|+QUEUED|*2|-WRONGTYPE Operation against a key holding the wrong kind of value|+OK|$1|1";

#[test]
fn commands_without_a_key(rt: HostRuntime) -> Result<(), Fail> {
    assert_eq!(rt; first_wrong(rt.alloc(), KEYLESS)?, None);
    Ok(())
}

#[test]
fn commands_on_keys_of_any_kind(rt: HostRuntime) -> Result<(), Fail> {
    assert_eq!(rt; first_wrong(rt.alloc(), ANY)?, None);
    Ok(())
}

#[test]
fn commands_on_strings(rt: HostRuntime) -> Result<(), Fail> {
    assert_eq!(rt; first_wrong(rt.alloc(), STRINGS)?, None);
    Ok(())
}

#[test]
fn commands_on_lists(rt: HostRuntime) -> Result<(), Fail> {
    assert_eq!(rt; first_wrong(rt.alloc(), LISTS)?, None);
    Ok(())
}

#[test]
fn commands_on_hashes(rt: HostRuntime) -> Result<(), Fail> {
    assert_eq!(rt; first_wrong(rt.alloc(), HASHES)?, None);
    Ok(())
}

#[test]
fn commands_on_sets(rt: HostRuntime) -> Result<(), Fail> {
    assert_eq!(rt; first_wrong(rt.alloc(), SETS)?, None);
    Ok(())
}

#[test]
fn transactions(rt: HostRuntime) -> Result<(), Fail> {
    assert_eq!(rt; first_wrong(rt.alloc(), TRANSACTIONS)?, None);
    Ok(())
}

/// The first line whose session doesn't write what stands behind its arrow.
fn first_wrong(alloc: Global, rows: &'static str) -> Result<Option<&'static str>, Fail> {
    'rows: for row in rows.lines() {
        if !is_right(alloc, row)? {
            return Ok(Some(row));
        }
    }
    Ok(None)
}

fn is_right(alloc: Global, row: &str) -> Result<bool, Fail> {
    let Some((requests, replies)) = row.split_once(" -> ") else {
        return Ok(false);
    };
    let input = framed(alloc, requests)?;
    let wanted = replies.replace(alloc, "|", "\r\n")?;
    let (status, sink) = pipe(alloc, &[input.as_slice()])?;
    let written = sink.written();
    Ok(status == 0 && written.strip_suffix(b"\r\n".as_slice()) == Some(wanted.as_bytes()))
}

/// The requests as they are sent.
fn framed(alloc: Global, requests: &str) -> Result<Vec<u8>, AllocError> {
    let mut input = Vec::new(alloc);
    'requests: for request in requests.split("; ") {
        let head = format!(in alloc; "*{}\r\n", request.split(' ').count())?;
        input.extend_from_slice(head.as_bytes())?;
        push_words(alloc, request, &mut input)?;
    }
    Ok(input)
}

fn push_words(alloc: Global, request: &str, input: &mut Vec<u8>) -> Result<(), AllocError> {
    'words: for spelled in request.split(' ') {
        let word = if spelled == "''" { "" } else { spelled };
        let whole = format!(in alloc; "${}\r\n{}\r\n", word.len(), word)?;
        input.extend_from_slice(whole.as_bytes())?;
    }
    Ok(())
}
