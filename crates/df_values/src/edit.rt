//! Changes of a value in place, for which all memory is there.

ghost use Rattle.std.specs.Prelude.{◌≡◌, ◌-◌, ◌≤◌, ◌++◌, length, reverse, take, drop};
ghost use Rattle.df_model.specs.Meaning.Hashes.{with_fields, without_fields};
ghost use Rattle.df_model.specs.Meaning.Sets.{with_members, without_members};
ghost use Rattle.df_values.specs.Seen.{seen};
ghost use Rattle.df_values.specs.Edits.{IsPreparedOn, edited};

use crate::{StrVal, Value};
use df_colls::{HashVal, SetVal};
use df_list::ListVal;
use df_model::{Bin, Bins, Pairs};

/// A change of a value in place. Places count from 0, and are in range.
#[derive(Debug, Drop)]
pub enum Edit {
    Append(Bin),
    /// Zero bytes fill up to the place.
    WriteAt(u64, Bin),
    /// One after another, so that the last one stands first.
    PushFront(Bins),
    PushBack(Bins),
    PopFront(u64),
    PopBack(u64),
    SetAt(u64, Bin),
    InsertAt(u64, Bin),
    /// The first that equal it, the last ones where the count is negative, all where it is 0.
    RemoveEqual(Bin, i64),
    /// What is kept, both ends in; a negative end counts from the end.
    Trim(i64, i64),
    PutFields(Pairs),
    DropFields(Bins),
    AddMembers(Bins),
    DropMembers(Bins),
}

impl Edit {
    /// Makes the change. Takes no memory, and moves the byte strings.
    pub fn apply(self, value: &mut Value)
        requires { IsPreparedOn self value.old }
        ensures { seen value.new ≡ edited self (seen value.old) }
    {
        match value {
            Value::Str(text) => edit_string(self, text),
            Value::List(list) => edit_list(self, list),
            Value::Hash(hash) => edit_hash(self, hash),
            Value::Set(set) => edit_set(self, set),
        }
    }
}

fn edit_string(edit: Edit, text: &mut StrVal)
    requires { IsPreparedOn edit (Value.Str text.old) }
    ensures { seen (Value.Str text.new) ≡ edited edit (seen (Value.Str text.old)) }
{
    match edit {
        Edit::Append(more) => text.append(more.as_slice()),
        Edit::WriteAt(at, new) => text.write_at(at as usize, new.as_slice()),
        _ => {}
    }
}

fn edit_list(edit: Edit, list: &mut ListVal)
    requires { IsPreparedOn edit (Value.List list.old) }
    ensures { seen (Value.List list.new) ≡ edited edit (seen (Value.List list.old)) }
{
    match edit {
        Edit::PushFront(words) => push_front(words, list),
        Edit::PushBack(words) => push_back(words, list),
        Edit::PopFront(n) => pop_front(n, list),
        Edit::PopBack(n) => pop_back(n, list),
        Edit::SetAt(at, element) => {
            let _old = list.set(at as usize, element);
        }
        Edit::InsertAt(at, element) => list.insert(at as usize, element),
        Edit::RemoveEqual(element, n) => {
            let _count = list.remove_equal(element.as_slice(), n);
        }
        Edit::Trim(from, to) => list.trim(from, to),
        _ => {}
    }
}

fn push_front(words: Bins, list: &mut ListVal)
    requires { length words.items ≤ list.old.spare }
    ensures { list.new.items ≡ reverse words.items ++ list.old.items }
{
    let words = words.into_vec();
    'words: for word in words {
        list.push_front(word);
    }
}

fn push_back(words: Bins, list: &mut ListVal)
    requires { length words.items ≤ list.old.spare }
    ensures { list.new.items ≡ list.old.items ++ words.items }
{
    let words = words.into_vec();
    'words: for word in words {
        list.push_back(word);
    }
}

fn pop_front(n: u64, list: &mut ListVal)
    ensures { list.new.items ≡ drop n list.old.items }
{
    let mut left = n;
    'pops: while left > 0 {
        left -= 1;
        if list.pop_front().is_none() {
            return;
        }
    }
}

fn pop_back(n: u64, list: &mut ListVal)
    ensures { list.new.items ≡ take (length list.old.items - n) list.old.items }
{
    let mut left = n;
    'pops: while left > 0 {
        left -= 1;
        if list.pop_back().is_none() {
            return;
        }
    }
}

fn edit_hash(edit: Edit, hash: &mut HashVal)
    requires { IsPreparedOn edit (Value.Hash hash.old) }
    ensures { seen (Value.Hash hash.new) ≡ edited edit (seen (Value.Hash hash.old)) }
{
    match edit {
        Edit::PutFields(pairs) => put_fields(pairs, hash),
        Edit::DropFields(words) => drop_fields(words, hash),
        _ => {}
    }
}

fn put_fields(pairs: Pairs, hash: &mut HashVal)
    requires { length pairs.items ≤ hash.old.spare }
    ensures { hash.new.fields ≡ with_fields pairs.items hash.old.fields }
{
    let pairs = pairs.into_vec();
    'pairs: for (field, word) in pairs {
        let _old = hash.put(field, word);
    }
}

fn drop_fields(words: Bins, hash: &mut HashVal)
    ensures { hash.new.fields ≡ without_fields words.items hash.old.fields }
{
    let words = words.into_vec();
    'words: for word in words {
        let _old = hash.remove(word.as_slice());
    }
}

fn edit_set(edit: Edit, set: &mut SetVal)
    requires { IsPreparedOn edit (Value.Set set.old) }
    ensures { seen (Value.Set set.new) ≡ edited edit (seen (Value.Set set.old)) }
{
    match edit {
        Edit::AddMembers(words) => add_members(words, set),
        Edit::DropMembers(words) => drop_members(words, set),
        _ => {}
    }
}

fn add_members(words: Bins, set: &mut SetVal)
    requires { length words.items ≤ set.old.spare }
    ensures { set.new.members ≡ with_members words.items set.old.members }
{
    let words = words.into_vec();
    'words: for word in words {
        let _new = set.add(word);
    }
}

fn drop_members(words: Bins, set: &mut SetVal)
    ensures { set.new.members ≡ without_members words.items set.old.members }
{
    let words = words.into_vec();
    'words: for word in words {
        let _old = set.remove(word.as_slice());
    }
}
