//! Which command of a shape the words make, where several commands have the same shape.

ghost use Rattle.std.specs.Prelude.{◌≡◌};
ghost use Rattle.df_parse.specs.Ops as op_of;

use df_model::{Bin, Bins, ManyOp, OneOp, Pairs, WholeOp};

/// Commands of nothing.
pub enum Alone {
    Save,
    Dbsize,
}

impl Alone {
    /// The command of this name.
    pub fn op(&self) -> WholeOp
        ensures { result ≡ op_of.alone self.now }
    {
        match self {
            Alone::Save => WholeOp::Save,
            Alone::Dbsize => WholeOp::Dbsize,
        }
    }
}

/// FLUSHALL and FLUSHDB.
pub enum Flush {
    Flushall,
    Flushdb,
}

impl Flush {
    /// The command of this name.
    pub fn op(&self) -> WholeOp
        ensures { result ≡ op_of.flush self.now }
    {
        match self {
            Flush::Flushall => WholeOp::Flushall,
            Flush::Flushdb => WholeOp::Flushdb,
        }
    }
}

/// Commands of a key.
pub enum Key {
    Get,
    Getdel,
    Strlen,
    Incr,
    Decr,
    KindOf,
    Llen,
    Hlen,
    Hkeys,
    Hvals,
    Hgetall,
    Scard,
    Smembers,
}

impl Key {
    /// The command of this name.
    pub fn op(&self) -> OneOp
        ensures { result ≡ op_of.key self.now }
    {
        match self {
            Key::Get => OneOp::Get,
            Key::Getdel => OneOp::Getdel,
            Key::Strlen => OneOp::Strlen,
            Key::Incr => OneOp::Incr,
            Key::Decr => OneOp::Decr,
            Key::KindOf => OneOp::KindOf,
            Key::Llen => OneOp::Llen,
            Key::Hlen => OneOp::Hlen,
            Key::Hkeys => OneOp::Hkeys,
            Key::Hvals => OneOp::Hvals,
            Key::Hgetall => OneOp::Hgetall,
            Key::Scard => OneOp::Scard,
            Key::Smembers => OneOp::Smembers,
        }
    }
}

/// Commands of a key and a word.
pub enum KeyWord {
    Setnx,
    Getset,
    Append,
    Hget,
    Hexists,
    Hstrlen,
    Sismember,
}

impl KeyWord {
    /// The command of this name, with its fields.
    pub fn op(&self, word: Bin) -> OneOp
        ensures { result ≡ op_of.key_word self.now word }
    {
        match self {
            KeyWord::Setnx => OneOp::Setnx(word),
            KeyWord::Getset => OneOp::Getset(word),
            KeyWord::Append => OneOp::Append(word),
            KeyWord::Hget => OneOp::Hget(word),
            KeyWord::Hexists => OneOp::Hexists(word),
            KeyWord::Hstrlen => OneOp::Hstrlen(word),
            KeyWord::Sismember => OneOp::Sismember(word),
        }
    }
}

/// Commands of a key and a number.
pub enum KeyNumber {
    Incrby,
    Decrby,
    Lindex,
}

impl KeyNumber {
    /// The command of this name, with its fields.
    pub fn op(&self, number: i64) -> OneOp
        ensures { result ≡ op_of.key_number self.now number }
    {
        match self {
            KeyNumber::Incrby => OneOp::Incrby(number),
            KeyNumber::Decrby => OneOp::Decrby(number),
            KeyNumber::Lindex => OneOp::Lindex(number),
        }
    }
}

/// Commands of a key and two numbers.
pub enum KeyNumbers {
    Getrange,
    Lrange,
    Ltrim,
}

impl KeyNumbers {
    /// The command of this name, with its fields.
    pub fn op(&self, from: i64, to: i64) -> OneOp
        ensures { result ≡ op_of.key_numbers self.now from to }
    {
        match self {
            KeyNumbers::Getrange => OneOp::Getrange(from, to),
            KeyNumbers::Lrange => OneOp::Lrange(from, to),
            KeyNumbers::Ltrim => OneOp::Ltrim(from, to),
        }
    }
}

/// Commands of a key, a number and a word.
pub enum KeyNumberWord {
    Lset,
    Lrem,
}

impl KeyNumberWord {
    /// The command of this name, with its fields.
    pub fn op(&self, number: i64, word: Bin) -> OneOp
        ensures { result ≡ op_of.key_number_word self.now number word }
    {
        match self {
            KeyNumberWord::Lset => OneOp::Lset(number, word),
            KeyNumberWord::Lrem => OneOp::Lrem(number, word),
        }
    }
}

/// Commands of a key and one or more words.
pub enum KeyMany {
    Lpush,
    Rpush,
    Lpushx,
    Rpushx,
    Hmget,
    Hdel,
    Sadd,
    Srem,
    Smismember,
}

impl KeyMany {
    /// The command of this name, with its fields.
    pub fn op(&self, words: Bins) -> OneOp
        ensures { result ≡ op_of.key_many self.now words }
    {
        match self {
            KeyMany::Lpush => OneOp::Lpush(words),
            KeyMany::Rpush => OneOp::Rpush(words),
            KeyMany::Lpushx => OneOp::Lpushx(words),
            KeyMany::Rpushx => OneOp::Rpushx(words),
            KeyMany::Hmget => OneOp::Hmget(words),
            KeyMany::Hdel => OneOp::Hdel(words),
            KeyMany::Sadd => OneOp::Sadd(words),
            KeyMany::Srem => OneOp::Srem(words),
            KeyMany::Smismember => OneOp::Smismember(words),
        }
    }
}

/// Commands of a key that may have a count.
pub enum Pop {
    Lpop,
    Rpop,
}

impl Pop {
    /// The command of this name, with its fields.
    pub fn op(&self, count: Option<i64>) -> OneOp
        ensures { result ≡ op_of.pop self.now count }
    {
        match self {
            Pop::Lpop => OneOp::Lpop(count),
            Pop::Rpop => OneOp::Rpop(count),
        }
    }
}

/// Commands of a key and pairs of words.
pub enum KeyPairs {
    Hset,
    Hmset,
}

impl KeyPairs {
    /// The command of this name, with its fields.
    pub fn op(&self, pairs: Pairs) -> OneOp
        ensures { result ≡ op_of.key_pairs self.now pairs }
    {
        match self {
            KeyPairs::Hset => OneOp::Hset(pairs),
            KeyPairs::Hmset => OneOp::Hmset(pairs),
        }
    }
}

/// Commands of one or more keys.
pub enum ManyKeys {
    Del,
    Unlink,
    Exists,
    Mget,
    Sinter,
    Sunion,
    Sdiff,
}

impl ManyKeys {
    /// The command of this name, with its fields.
    pub fn op(&self, keys: Bins) -> ManyOp
        ensures { result ≡ op_of.keys self.now keys }
    {
        match self {
            ManyKeys::Del => ManyOp::Del(keys),
            ManyKeys::Unlink => ManyOp::Unlink(keys),
            ManyKeys::Exists => ManyOp::Exists(keys),
            ManyKeys::Mget => ManyOp::Mget(keys),
            ManyKeys::Sinter => ManyOp::Sinter(keys),
            ManyKeys::Sunion => ManyOp::Sunion(keys),
            ManyKeys::Sdiff => ManyOp::Sdiff(keys),
        }
    }
}

/// Commands of a key and one or more further keys.
pub enum KeyKeys {
    Sinterstore,
    Sunionstore,
    Sdiffstore,
}

impl KeyKeys {
    /// The command of this name, with its fields.
    pub fn op(&self, target: Bin, keys: Bins) -> ManyOp
        ensures { result ≡ op_of.key_keys self.now target keys }
    {
        match self {
            KeyKeys::Sinterstore => ManyOp::Sinterstore(target, keys),
            KeyKeys::Sunionstore => ManyOp::Sunionstore(target, keys),
            KeyKeys::Sdiffstore => ManyOp::Sdiffstore(target, keys),
        }
    }
}

/// Commands of two keys.
pub enum TwoKeys {
    Rename,
    Renamenx,
    Rpoplpush,
}

impl TwoKeys {
    /// The command of this name, with its fields.
    pub fn op(&self, source: Bin, target: Bin) -> ManyOp
        ensures { result ≡ op_of.two_keys self.now source target }
    {
        match self {
            TwoKeys::Rename => ManyOp::Rename(source, target),
            TwoKeys::Renamenx => ManyOp::Renamenx(source, target),
            TwoKeys::Rpoplpush => ManyOp::Rpoplpush(source, target),
        }
    }
}

/// Commands of pairs of a key and a word.
pub enum ManyPairs {
    Mset,
    Msetnx,
}

impl ManyPairs {
    /// The command of this name, with its fields.
    pub fn op(&self, pairs: Pairs) -> ManyOp
        ensures { result ≡ op_of.pairs self.now pairs }
    {
        match self {
            ManyPairs::Mset => ManyOp::Mset(pairs),
            ManyPairs::Msetnx => ManyOp::Msetnx(pairs),
        }
    }
}
