//! One key and what it holds.

ghost use Rattle.std.specs.Prelude.{◌≡◌, ◌++◌, OnOk, OnErr};
ghost use Rattle.df_rdbcore.specs.Written.{IsCounted, kind_byte, written_entry};
ghost use Rattle.df_resp.specs.Appended.{GrowsBy};
ghost use Rattle.df_values.specs.Seen.{seen};

use crate::value::push_value;
use df_model::NoMemory;
use df_rdbcore::push_string;
use df_values::Value;

/// Appends a key and what it holds, or nothing. Its bytes belong to a file once a writer's `add_sum` has taken them
/// in their place.
#[tactic(auto, using(crate::proofs::RunLaws::take_front))]
pub fn plain_entry(key: &[u8], value: &Value, to: &mut Vec<u8>) -> Result<(), NoMemory>
    ensures counted { IsCounted (seen value.now) }
    ensures ok { OnOk result (to.new.items ≡ to.old.items ++ written_entry key.now (seen value.now)) }
    ensures err { OnErr result (to.new.items ≡ to.old.items) }
{
    let before = to.len();
    if let Err(refused) = push_entry(key, value, to) {
        to.truncate(before);
        return Err(refused);
    }
    Ok(())
}

fn push_entry(key: &[u8], value: &Value, to: &mut Vec<u8>) -> Result<(), NoMemory>
    ensures counted { IsCounted (seen value.now) }
    ensures ok { OnOk result (to.new.items ≡ to.old.items ++ written_entry key.now (seen value.now)) }
    ensures err { OnErr result (GrowsBy to.old.items to.new.items) }
{
    see_count(value);
    to.extend_from_slice(&[kind_byte(value)])?;
    push_string(to, key)?;
    push_value(value, to)?;
    Ok(())
}

/// The byte that says how the value is written.
fn kind_byte(value: &Value) -> u8
    ensures { result ≡ kind_byte (seen value.now) }
{
    match value {
        Value::Str(_) => 0,
        Value::List(_) => 1,
        Value::Set(_) => 2,
        Value::Hash(_) => 4,
    }
}

/// What lies in memory has a count that a file can have.
fn see_count(value: &Value)
    ensures { IsCounted (seen value.now) }
{
    match value {
        Value::Str(_) => {}
        Value::List(list) => {
            let _count = list.len();
        }
        Value::Set(set) => {
            let _count = set.len();
        }
        Value::Hash(hash) => {
            let _count = hash.len();
        }
    }
}
