//! What a key holds.

ghost use Rattle.std.specs.Prelude.{◌≡◌, IfOk};
ghost use Rattle.df_values.specs.Seen.{seen, kind_of};

use crate::StrVal;
use df_colls::{HashVal, SetVal};
use df_list::ListVal;
use df_model::{Kind, NoMemory};
use std::alloc::Global;

/// A value of one of the four kinds, each with room of its own.
#[derive(Debug, Drop)]
pub enum Value {
    Str(StrVal),
    List(ListVal),
    Hash(HashVal),
    Set(SetVal),
}

impl Value {
    /// Which of the kinds it is of.
    pub fn kind(&self) -> Kind
        ensures { result ≡ kind_of (seen self.now) }
    {
        match self {
            Value::Str(_) => Kind::Str,
            Value::List(_) => Kind::List,
            Value::Hash(_) => Kind::Hash,
            Value::Set(_) => Kind::Set,
        }
    }

    /// The same value in memory of its own.
    pub fn copy(&self, alloc: Global) -> Result<Value, NoMemory>
        ensures { IfOk result (λ copy. seen copy ≡ seen self.now) }
    {
        match self {
            Value::Str(text) => Ok(Value::Str(text.copy(alloc)?)),
            Value::List(list) => Ok(Value::List(list.copy(alloc)?)),
            Value::Hash(hash) => Ok(Value::Hash(hash.copy(alloc)?)),
            Value::Set(set) => Ok(Value::Set(set.copy(alloc)?)),
        }
    }
}
