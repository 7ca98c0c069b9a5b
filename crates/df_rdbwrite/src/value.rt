//! A value, run by run, with no copy of it.

ghost use Rattle.std.specs.Prelude.{◌≡◌, ◌++◌, OnOk, OnErr};
ghost use Rattle.std.specs.List.{flat_map};
ghost use Rattle.df_model.specs.Values as plain;
ghost use Rattle.df_rdbcore.specs.Written.{IsCounted, written_text, written_pair, written_value};
ghost use Rattle.df_resp.specs.Appended.{GrowsBy};
ghost use Rattle.df_values.specs.Seen.{seen};

use df_colls::{HashVal, SetVal};
use df_list::ListVal;
use df_model::{Bin, NoMemory};
use df_rdbcore::{push_len, push_string};
use df_values::Value;

/// Appends what stands behind a key. At want of memory a part of it may stand there.
pub fn push_value(value: &Value, to: &mut Vec<u8>) -> Result<(), NoMemory>
    ensures counted { IsCounted (seen value.now) }
    ensures ok { OnOk result (to.new.items ≡ to.old.items ++ written_value (seen value.now)) }
    ensures err { OnErr result (GrowsBy to.old.items to.new.items) }
{
    match value {
        Value::Str(text) => push_bytes(text.as_slice(), to),
        Value::List(list) => push_list(list, to),
        Value::Set(set) => push_set(set, to),
        Value::Hash(hash) => push_hash(hash, to),
    }
}

fn push_list(list: &ListVal, to: &mut Vec<u8>) -> Result<(), NoMemory>
    ensures counted { IsCounted (plain.Value.Elements list.now.items) }
    ensures ok { OnOk result (to.new.items ≡ to.old.items ++ written_value (plain.Value.Elements list.now.items)) }
    ensures err { OnErr result (GrowsBy to.old.items to.new.items) }
{
    push_len(to, list.len() as u64)?;
    'elements: for at in 0..list.len() {
        let Some(element) = list.get(at) else {
            unreachable!()
        };
        push_text(element, to)?;
    }
    Ok(())
}

fn push_set(set: &SetVal, to: &mut Vec<u8>) -> Result<(), NoMemory>
    ensures counted { IsCounted (plain.Value.Set set.now.members) }
    ensures ok { OnOk result (to.new.items ≡ to.old.items ++ written_value (plain.Value.Set set.now.members)) }
    ensures err { OnErr result (GrowsBy to.old.items to.new.items) }
{
    push_len(to, set.len() as u64)?;
    let mut at = 0;
    'runs: while at < set.len() {
        let run = set.run(at);
        push_members(run, to)?;
        at += run.len();
    }
    Ok(())
}

fn push_members(run: &[(Bin, ())], to: &mut Vec<u8>) -> Result<(), NoMemory>
    ensures ok { OnOk result (to.new.items ≡ to.old.items ++ flat_map (λ member. written_text member.0) run.now) }
    ensures err { OnErr result (GrowsBy to.old.items to.new.items) }
{
    'members: for member in run {
        push_text(&member.0, to)?;
    }
    Ok(())
}

fn push_hash(hash: &HashVal, to: &mut Vec<u8>) -> Result<(), NoMemory>
    ensures counted { IsCounted (plain.Value.Hash hash.now.fields) }
    ensures ok { OnOk result (to.new.items ≡ to.old.items ++ written_value (plain.Value.Hash hash.now.fields)) }
    ensures err { OnErr result (GrowsBy to.old.items to.new.items) }
{
    push_len(to, hash.len() as u64)?;
    let mut at = 0;
    'runs: while at < hash.len() {
        let run = hash.run(at);
        push_fields(run, to)?;
        at += run.len();
    }
    Ok(())
}

fn push_fields(run: &[(Bin, Bin)], to: &mut Vec<u8>) -> Result<(), NoMemory>
    ensures ok { OnOk result (to.new.items ≡ to.old.items ++ flat_map written_pair run.now) }
    ensures err { OnErr result (GrowsBy to.old.items to.new.items) }
{
    'fields: for field in run {
        push_field(&field.0, &field.1, to)?;
    }
    Ok(())
}

fn push_field(field: &Bin, bytes: &Bin, to: &mut Vec<u8>) -> Result<(), NoMemory>
    ensures ok { OnOk result (to.new.items ≡ to.old.items ++ written_pair (field.now, bytes.now)) }
    ensures err { OnErr result (GrowsBy to.old.items to.new.items) }
{
    push_text(field, to)?;
    push_text(bytes, to)?;
    Ok(())
}

fn push_text(text: &Bin, to: &mut Vec<u8>) -> Result<(), NoMemory>
    ensures ok { OnOk result (to.new.items ≡ to.old.items ++ written_text text.now) }
    ensures err { OnErr result (GrowsBy to.old.items to.new.items) }
{
    push_bytes(text.as_slice(), to)
}

fn push_bytes(text: &[u8], to: &mut Vec<u8>) -> Result<(), NoMemory>
    ensures ok { OnOk result (to.new.items ≡ to.old.items ++ written_text text.now) }
    ensures err { OnErr result (GrowsBy to.old.items to.new.items) }
{
    push_string(to, text)?;
    Ok(())
}
