//! The row of a name: a word is compared only with the names that are as long as it is and have its
//! first letter, or one of few.

ghost use Rattle.std.specs.Prelude.{◌≡◌, map, true};
ghost use Rattle.df_model.specs.Reads.{reads_by};
ghost use Rattle.df_model.specs.Reads as reads;
ghost use Rattle.df_model.specs.Reads.Shapes.{row};
ghost use Rattle.df_parse.specs.Parts.{in_part, only_begun};
ghost use Rattle.df_parse.specs.Parts as part;
ghost use Rattle.df_parse.specs.Reading.{AsRead};
ghost use Rattle.df_parse.specs.Readers.{shape_of};

use crate::Refusal;
use crate::ops::{
    Alone, Flush, Key, KeyKeys, KeyMany, KeyNumber, KeyNumberWord, KeyNumbers, KeyPairs, KeyWord,
    ManyKeys, ManyPairs, Pop, TwoKeys,
};
use crate::reader::Reader;
use bytes::Bytes;
use df_model::Command;
use df_text::is_name;
use std::alloc::Global;

const THREE_S: [(&str, Reader); 1] = [("set", Reader::Set)];

const THREE_ANOTHER: [(&str, Reader); 2] = [
    ("get", Reader::Key(Key::Get)),
    ("del", Reader::ManyKeys(ManyKeys::Del)),
];

const FOUR_H: [(&str, Reader); 4] = [
    ("hset", Reader::KeyPairs(KeyPairs::Hset)),
    ("hget", Reader::KeyWord(KeyWord::Hget)),
    ("hdel", Reader::KeyMany(KeyMany::Hdel)),
    ("hlen", Reader::Key(Key::Hlen)),
];

const FOUR_L_OR_R: [(&str, Reader); 5] = [
    ("lpop", Reader::Pop(Pop::Lpop)),
    ("rpop", Reader::Pop(Pop::Rpop)),
    ("llen", Reader::Key(Key::Llen)),
    ("lset", Reader::KeyNumberWord(KeyNumberWord::Lset)),
    ("lrem", Reader::KeyNumberWord(KeyNumberWord::Lrem)),
];

const FOUR_S: [(&str, Reader); 3] = [
    ("sadd", Reader::KeyMany(KeyMany::Sadd)),
    ("srem", Reader::KeyMany(KeyMany::Srem)),
    ("save", Reader::Alone(Alone::Save)),
];

const FOUR_ANOTHER: [(&str, Reader); 8] = [
    ("incr", Reader::Key(Key::Incr)),
    ("decr", Reader::Key(Key::Decr)),
    ("mget", Reader::ManyKeys(ManyKeys::Mget)),
    ("mset", Reader::ManyPairs(ManyPairs::Mset)),
    ("type", Reader::Key(Key::KindOf)),
    ("ping", Reader::Ping),
    ("echo", Reader::Echo),
    ("keys", Reader::KeysLike),
];

const FIVE_H: [(&str, Reader); 4] = [
    ("hmset", Reader::KeyPairs(KeyPairs::Hmset)),
    ("hmget", Reader::KeyMany(KeyMany::Hmget)),
    ("hkeys", Reader::Key(Key::Hkeys)),
    ("hvals", Reader::Key(Key::Hvals)),
];

const FIVE_L_OR_R: [(&str, Reader); 4] = [
    ("lpush", Reader::KeyMany(KeyMany::Lpush)),
    ("rpush", Reader::KeyMany(KeyMany::Rpush)),
    ("ltrim", Reader::KeyNumbers(KeyNumbers::Ltrim)),
    ("lmove", Reader::Lmove),
];

const FIVE_S: [(&str, Reader); 4] = [
    ("setnx", Reader::KeyWord(KeyWord::Setnx)),
    ("scard", Reader::Key(Key::Scard)),
    ("smove", Reader::Smove),
    ("sdiff", Reader::ManyKeys(ManyKeys::Sdiff)),
];

const SIX_H: [(&str, Reader); 1] = [("hsetnx", Reader::Hsetnx)];

const SIX_L_OR_R: [(&str, Reader); 5] = [
    ("lpushx", Reader::KeyMany(KeyMany::Lpushx)),
    ("rpushx", Reader::KeyMany(KeyMany::Rpushx)),
    ("lrange", Reader::KeyNumbers(KeyNumbers::Lrange)),
    ("lindex", Reader::KeyNumber(KeyNumber::Lindex)),
    ("rename", Reader::TwoKeys(TwoKeys::Rename)),
];

const SIX_S: [(&str, Reader); 4] = [
    ("strlen", Reader::Key(Key::Strlen)),
    ("sinter", Reader::ManyKeys(ManyKeys::Sinter)),
    ("sunion", Reader::ManyKeys(ManyKeys::Sunion)),
    ("select", Reader::Select),
];

const SIX_ANOTHER: [(&str, Reader); 9] = [
    ("getset", Reader::KeyWord(KeyWord::Getset)),
    ("getdel", Reader::Key(Key::Getdel)),
    ("append", Reader::KeyWord(KeyWord::Append)),
    ("incrby", Reader::KeyNumber(KeyNumber::Incrby)),
    ("decrby", Reader::KeyNumber(KeyNumber::Decrby)),
    ("msetnx", Reader::ManyPairs(ManyPairs::Msetnx)),
    ("unlink", Reader::ManyKeys(ManyKeys::Unlink)),
    ("exists", Reader::ManyKeys(ManyKeys::Exists)),
    ("dbsize", Reader::Alone(Alone::Dbsize)),
];

const SEVEN_H: [(&str, Reader); 4] = [
    ("hexists", Reader::KeyWord(KeyWord::Hexists)),
    ("hstrlen", Reader::KeyWord(KeyWord::Hstrlen)),
    ("hgetall", Reader::Key(Key::Hgetall)),
    ("hincrby", Reader::Hincrby),
];

const SEVEN_L_OR_R: [(&str, Reader); 1] = [("linsert", Reader::Linsert)];

const SEVEN_ANOTHER: [(&str, Reader); 1] = [("flushdb", Reader::Flush(Flush::Flushdb))];

const EIGHT_L_OR_R: [(&str, Reader); 1] = [("renamenx", Reader::TwoKeys(TwoKeys::Renamenx))];

const EIGHT_S: [(&str, Reader); 2] = [
    ("setrange", Reader::Setrange),
    ("smembers", Reader::Key(Key::Smembers)),
];

const EIGHT_ANOTHER: [(&str, Reader); 2] = [
    ("getrange", Reader::KeyNumbers(KeyNumbers::Getrange)),
    ("flushall", Reader::Flush(Flush::Flushall)),
];

const NINE_L_OR_R: [(&str, Reader); 1] = [("rpoplpush", Reader::TwoKeys(TwoKeys::Rpoplpush))];

const NINE_S: [(&str, Reader); 1] = [("sismember", Reader::KeyWord(KeyWord::Sismember))];

const TEN_S: [(&str, Reader); 2] = [
    ("smismember", Reader::KeyMany(KeyMany::Smismember)),
    ("sdiffstore", Reader::KeyKeys(KeyKeys::Sdiffstore)),
];

const ELEVEN_S: [(&str, Reader); 2] = [
    ("sinterstore", Reader::KeyKeys(KeyKeys::Sinterstore)),
    ("sunionstore", Reader::KeyKeys(KeyKeys::Sunionstore)),
];

/// What the first letter of a word is, in any case.
enum Initial {
    H,
    LOrR,
    S,
    Another,
}

/// The command of this name with these words behind it.
pub fn read_row(
    alloc: Global,
    name: &[u8],
    words: &[Bytes],
    command: &mut Command,
) -> Result<(), Refusal>
    ensures { AsRead (reads_by reads.rows name.now words.now) result command.new }
{
    read_in(
        alloc,
        rows_of(name.len(), initial_of(name)),
        name,
        words,
        command,
    )
}

#[tactic(auto, using(crate::proofs::PartLaws::another))]
fn initial_of(name: &[u8]) -> Initial
    ensures { in_part result (part.initial name.now) ≡ true }
{
    let [first, ..] = name else {
        return Initial::Another;
    };
    match first.to_ascii_lowercase() {
        b'h' => Initial::H,
        b'l' | b'r' => Initial::LOrR,
        b's' => Initial::S,
        _ => Initial::Another,
    }
}

/// The rows whose names have this length and initial.
fn rows_of(length: usize, initial: Initial) -> &'static [(&'static str, Reader)]
    ensures { map (λ r. row r.0.now (shape_of r.1 r.0.now)) result.now ≡ only_begun (in_part initial) length reads.rows }
{
    match initial {
        Initial::H => match length {
            4 => &FOUR_H,
            5 => &FIVE_H,
            6 => &SIX_H,
            7 => &SEVEN_H,
            _ => &[],
        },
        Initial::LOrR => match length {
            4 => &FOUR_L_OR_R,
            5 => &FIVE_L_OR_R,
            6 => &SIX_L_OR_R,
            7 => &SEVEN_L_OR_R,
            8 => &EIGHT_L_OR_R,
            9 => &NINE_L_OR_R,
            _ => &[],
        },
        Initial::S => match length {
            3 => &THREE_S,
            4 => &FOUR_S,
            5 => &FIVE_S,
            6 => &SIX_S,
            7 => &[],
            8 => &EIGHT_S,
            9 => &NINE_S,
            10 => &TEN_S,
            11 => &ELEVEN_S,
            _ => &[],
        },
        Initial::Another => match length {
            3 => &THREE_ANOTHER,
            4 => &FOUR_ANOTHER,
            5 => &[],
            6 => &SIX_ANOTHER,
            7 => &SEVEN_ANOTHER,
            8 => &EIGHT_ANOTHER,
            _ => &[],
        },
    }
}

/// The command by the first of the rows with this name.
fn read_in(
    alloc: Global,
    mut rows: &[(&str, Reader)],
    name: &[u8],
    words: &[Bytes],
    command: &mut Command,
) -> Result<(), Refusal>
    ensures { AsRead (reads_by (map (λ r. row r.0.now (shape_of r.1 r.0.now)) rows.entry.now) name.now words.now) result command.new }
{
    'rows: while let [row, rest @ ..] = rows {
        if is_name(name, row.0) {
            return row.1.read(alloc, row.0, words, command);
        }
        rows = rest;
    }
    Err(Refusal::Unknown)
}
