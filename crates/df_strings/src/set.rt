//! Strings that are read and put whole.

ghost use Rattle.std.specs.Prelude.{◌≡◌, IfOk, OnOk, Some, None};
ghost use Rattle.df_model.specs.Outcomes.{count};
ghost use Rattle.df_model.specs.Replies.{encoding_of};
ghost use Rattle.df_model.specs.Meaning.Strings as strings;
ghost use Rattle.df_values.specs.Prepares.{Makes};
ghost use Rattle.df_strings.specs.Strings.{Puts, Sets};

use df_model::{Bin, Guard, NoMemory};
use df_values::{Change, Pieces, StrVal, Value};

/// A string for the key, whatever it holds. The bytes are moved.
pub fn put(bytes: Bin) -> Change
    ensures { Puts bytes result }
{
    Change::Put(Value::Str(StrVal::from_bin(bytes)))
}

/// SET where the key is missing.
pub fn set_missing(bytes: Bin, guard: Guard, reply: &mut Pieces) -> Result<Change, NoMemory>
    ensures { IfOk result (λ change. Makes (strings.set bytes guard None) None reply.new change) }
{
    match guard {
        Guard::Always | Guard::Nx => {
            reply.put_ok()?;
            Ok(put(bytes))
        }
        Guard::Xx => {
            reply.put_null()?;
            Ok(Change::Keep)
        }
    }
}

/// SET where the key holds a value, of whatever kind.
pub fn set(bytes: Bin, guard: Guard, reply: &mut Pieces) -> Result<Change, NoMemory>
    ensures { IfOk result (λ change. Sets bytes guard reply.new change) }
{
    match guard {
        Guard::Always | Guard::Xx => {
            reply.put_ok()?;
            Ok(put(bytes))
        }
        Guard::Nx => {
            reply.put_null()?;
            Ok(Change::Keep)
        }
    }
}

/// SETNX where the key holds a value, of whatever kind: it stays.
pub fn setnx(reply: &mut Pieces) -> Result<Change, NoMemory>
    ensures reply { OnOk result (reply.new ≡ encoding_of (count 0)) }
    ensures change { IfOk result (λ change. change ≡ Change.Keep) }
{
    reply.put_count(0)?;
    Ok(Change::Keep)
}

/// GET.
pub fn get(text: &StrVal, reply: &mut Pieces) -> Result<(), NoMemory>
    ensures { OnOk result (reply.new ≡ encoding_of (strings.get (Some text.now.items))) }
{
    reply.put_bulk(text.as_slice())
}

/// GETSET.
pub fn getset(bytes: Bin, text: &StrVal, reply: &mut Pieces) -> Result<Change, NoMemory>
    ensures { IfOk result (λ change. Makes (strings.getset bytes (Some text.now.items)) (Some (Value.Str text.now)) reply.new change) }
{
    reply.put_bulk(text.as_slice())?;
    Ok(put(bytes))
}

/// GETDEL.
pub fn getdel(text: &StrVal, reply: &mut Pieces) -> Result<Change, NoMemory>
    ensures { IfOk result (λ change. Makes (strings.getdel (Some text.now.items)) (Some (Value.Str text.now)) reply.new change) }
{
    get(text, reply)?;
    Ok(Change::Delete)
}
