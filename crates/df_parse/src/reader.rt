//! How the words behind a name are read.

ghost use Rattle.df_parse.specs.Readers.{shape_of};
ghost use Rattle.df_parse.specs.Reading.{RowRead};

use crate::Refusal;
use crate::keyless::{alone, echo, flush, keys_like, ping, select};
use crate::many_keys::{key_keys, keys, lmove, pairs, smove, two_keys};
use crate::one_key::{
    hincrby, hsetnx, key, key_many, key_number, key_number_word, key_numbers, key_pairs, key_word,
    linsert, pop, set, setrange,
};
use crate::ops::{
    Alone, Flush, Key, KeyKeys, KeyMany, KeyNumber, KeyNumberWord, KeyNumbers, KeyPairs, KeyWord,
    ManyKeys, ManyPairs, Pop, TwoKeys,
};
use bytes::Bytes;
use df_model::Command;
use std::alloc::Global;

/// A shape of commands, and where several have it, which of them.
pub enum Reader {
    Alone(Alone),
    Ping,
    Echo,
    Select,
    KeysLike,
    Flush(Flush),
    Key(Key),
    KeyWord(KeyWord),
    KeyNumber(KeyNumber),
    KeyNumbers(KeyNumbers),
    KeyNumberWord(KeyNumberWord),
    KeyMany(KeyMany),
    Pop(Pop),
    KeyPairs(KeyPairs),
    Set,
    Setrange,
    Hsetnx,
    Hincrby,
    Linsert,
    ManyKeys(ManyKeys),
    KeyKeys(KeyKeys),
    TwoKeys(TwoKeys),
    ManyPairs(ManyPairs),
    Smove,
    Lmove,
}

impl Reader {
    /// The command of this name and shape.
    pub fn read(
        &self,
        alloc: Global,
        name: &str,
        words: &[Bytes],
        command: &mut Command,
    ) -> Result<(), Refusal>
        ensures { RowRead name.now (shape_of self.now name.now words.now) result command.new }
    {
        match self {
            Reader::Alone(op) => alone(alloc, name, op, words, command),
            Reader::Ping => ping(alloc, name, words, command),
            Reader::Echo => echo(alloc, name, words, command),
            Reader::Select => select(alloc, name, words, command),
            Reader::KeysLike => keys_like(alloc, name, words, command),
            Reader::Flush(op) => flush(op, words, command),
            Reader::Key(op) => key(alloc, name, op, words, command),
            Reader::KeyWord(op) => key_word(alloc, name, op, words, command),
            Reader::KeyNumber(op) => key_number(alloc, name, op, words, command),
            Reader::KeyNumbers(op) => key_numbers(alloc, name, op, words, command),
            Reader::KeyNumberWord(op) => key_number_word(alloc, name, op, words, command),
            Reader::KeyMany(op) => key_many(alloc, name, op, words, command),
            Reader::Pop(op) => pop(alloc, name, op, words, command),
            Reader::KeyPairs(op) => key_pairs(alloc, name, op, words, command),
            Reader::Set => set(alloc, name, words, command),
            Reader::Setrange => setrange(alloc, name, words, command),
            Reader::Hsetnx => hsetnx(alloc, name, words, command),
            Reader::Hincrby => hincrby(alloc, name, words, command),
            Reader::Linsert => linsert(alloc, name, words, command),
            Reader::ManyKeys(op) => keys(alloc, name, op, words, command),
            Reader::KeyKeys(op) => key_keys(alloc, name, op, words, command),
            Reader::TwoKeys(op) => two_keys(alloc, name, op, words, command),
            Reader::ManyPairs(op) => pairs(alloc, name, op, words, command),
            Reader::Smove => smove(alloc, name, words, command),
            Reader::Lmove => lmove(alloc, name, words, command),
        }
    }
}
