//! Whether two values are the same.
//!
//! Lengths are compared first; then elements, fields or members are gone through in their order, up to the first that
//! differs.

ghost use Rattle.std.specs.Prelude.{◌≡◌};
ghost use Rattle.std.specs.Option.{option_copied, option_map};
ghost use Rattle.std.specs.Cmp.Lexicographic.{pointwise};
ghost use Rattle.std.specs.FinMap as fin;
ghost use Rattle.df_model.specs.Words as words;
ghost use Rattle.df_model.specs.Members as members;
ghost use Rattle.df_colls.specs.Runs.{pair_copied};
ghost use Rattle.df_values.specs.Seen.{seen};
ghost use Rattle.df_core.specs.Altered as altered;
ghost use Rattle.df_spread.specs.Pairs.{both, same_field};

use df_colls::{HashVal, SetVal};
use df_list::ListVal;
use df_model::Bin;
use df_values::Value;

/// Whether a key that held the one holds the same with the other. What isn't there is the same as what isn't there.
pub(crate) fn same_held(before: Option<&Value>, now: Option<&Value>) -> bool
    ensures { result ≡ altered.same_held (option_map seen (option_copied before.entry)) (option_map seen (option_copied now.entry)) }
{
    match before {
        Some(before) => is_held(before, now),
        None => now.is_none(),
    }
}

fn is_held(before: &Value, now: Option<&Value>) -> bool
    ensures { result ≡ both altered.same_value (Some (seen before.now)) (option_map seen (option_copied now.entry)) }
{
    match now {
        Some(now) => same_value(before, now),
        None => false,
    }
}

fn same_value(a: &Value, b: &Value) -> bool
    ensures { result ≡ altered.same_value (seen a.now) (seen b.now) }
{
    match (a, b) {
        (Value::Str(a), Value::Str(b)) => a.as_slice() == b.as_slice(),
        (Value::List(a), Value::List(b)) => same_lists(a, b),
        (Value::Hash(a), Value::Hash(b)) => same_hashes(a, b),
        (Value::Set(a), Value::Set(b)) => same_sets(a, b),
        _ => false,
    }
}

fn same_lists(a: &ListVal, b: &ListVal) -> bool
    ensures { result ≡ pointwise words.same a.now.items b.now.items }
{
    let count = a.len();
    if count != b.len() {
        return false;
    }
    'elements: for at in 0..count {
        if !same_word(a.get(at), b.get(at)) {
            return false;
        }
    }
    true
}

fn same_hashes(a: &HashVal, b: &HashVal) -> bool
    ensures { result ≡ pointwise same_field (fin.entries a.now.fields) (fin.entries b.now.fields) }
{
    let count = a.len();
    if count != b.len() {
        return false;
    }
    'fields: for at in 0..count {
        if !same_pair(a.at(at), b.at(at)) {
            return false;
        }
    }
    true
}

fn same_sets(a: &SetVal, b: &SetVal) -> bool
    ensures { result ≡ pointwise words.same (members.items a.now.members) (members.items b.now.members) }
{
    let count = a.len();
    if count != b.len() {
        return false;
    }
    'members: for at in 0..count {
        if !same_word(a.at(at), b.at(at)) {
            return false;
        }
    }
    true
}

/// Whether both are there and the same.
fn same_word(a: Option<&Bin>, b: Option<&Bin>) -> bool
    ensures { result ≡ both words.same (option_copied a.entry) (option_copied b.entry) }
{
    match (a, b) {
        (Some(a), Some(b)) => a == b,
        _ => false,
    }
}

fn same_pair(a: Option<(&Bin, &Bin)>, b: Option<(&Bin, &Bin)>) -> bool
    ensures { result ≡ both same_field (pair_copied a.entry) (pair_copied b.entry) }
{
    match (a, b) {
        (Some(a), Some(b)) => a.0 == b.0 && a.1 == b.1,
        _ => false,
    }
}
