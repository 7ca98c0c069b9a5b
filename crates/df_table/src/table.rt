//! The one map of all keys.
//!
//! A map that hashes, so that a look-up costs the same however many keys there are. Room is taken apart from
//! the puts that use it: a command of several keys takes all its room first, and then no put can fail. Room that is kept
//! for keys to come stands behind that, and no command uses it.

ghost use Rattle.std.specs.Prelude.{◌≡◌, ◌+◌, ◌<◌, ◌≤◌, Some, None, OnOk, is_some, IsTrue, IfOk, OnErr, map};
ghost use Rattle.std.specs.List.{filter};
ghost use Rattle.df_model.specs.Patterns.{is_match};
ghost use Rattle.std.specs.Option.{option_copied, option_map};
ghost use Rattle.std.specs.FinMap as fin;
ghost use Rattle.df_model.specs.Keyspace.{held, with_held, no_keys};
ghost use Rattle.df_model.specs.Meaning.{one};
ghost use Rattle.df_values.specs.Seen.{seen};
ghost use Rattle.df_table.specs.Fates.{RanWhere};

use crate::one::{Fate, run_on};
use df_model::{Bin, NoMemory, OneOp};
use df_text::glob;
use df_values::{Pieces, Value};
use std::alloc::Global;
use std::collections::HashMap;
use std::marker::Model;

/// Keys with their values, and room for more keys.
#[derive(Drop)]
pub struct Table {
    map: HashMap<Bin, Value>,
    /// How many places are kept for keys to come.
    kept: usize,
}

impl Model for Table {
    ghost use Rattle.df_table.specs.Tables.{Roomy, roomy_code, keyspace_of};
    ghost use Rattle.df_values.specs.Seen.{seen};
    ghost use Rattle.std.specs.HashMap.{spare};
    ghost use Rattle.std.specs.Prelude.{◌-◌, ◌≤◌};

    ghost Value = { Roomy };

    ghost coded = { roomy_code };

    ghost view = { λ t. record { keys = keyspace_of seen t.map.entries; spare = spare t.map - t.kept; kept = t.kept } };

    ghost invariant = { λ t. t.kept ≤ spare t.map };
}

impl Table {
    /// No keys. Takes no memory.
    pub fn new(alloc: Global) -> Table
        ensures { result.keys ≡ no_keys }
    {
        Table {
            map: HashMap::new(alloc),
            kept: 0,
        }
    }

    /// How many keys there are.
    pub fn len(&self) -> usize
        ensures { result ≡ fin.len self.now.keys }
    {
        self.map.len()
    }

    /// What the key holds, lent.
    pub fn get(&self, key: &Bin) -> Option<&Value>
        ensures { option_map seen (option_copied result) ≡ held self.now.keys key.now }
    {
        self.map.get(key)
    }

    /// Whether the key is there.
    pub fn has(&self, key: &Bin) -> bool
        ensures { result ≡ is_some (held self.now.keys key.now) }
    {
        self.get(key).is_some()
    }

    /// Makes room for `count` new keys, those that there is room for among them.
    pub fn reserve(&mut self, count: usize) -> Result<(), NoMemory>
        ensures keys { self.new.keys ≡ self.old.keys }
        ensures spare { self.old.spare ≤ self.new.spare }
        ensures kept { self.new.kept ≡ self.old.kept }
        ensures ok { OnOk result (count ≤ self.new.spare) }
    {
        self.reserve_behind(count)?;
        Ok(())
    }

    /// Makes room for `count` new keys behind the places that are kept, and answers how many places these are together.
    fn reserve_behind(&mut self, count: usize) -> Result<usize, NoMemory>
        ensures keys { self.new.keys ≡ self.old.keys }
        ensures spare { self.old.spare ≤ self.new.spare }
        ensures kept { self.new.kept ≡ self.old.kept }
        ensures ok { IfOk result (λ places. (count ≤ self.new.spare) × (places ≡ self.old.kept + count)) }
    {
        let Some(places) = self.kept.checked_add(count) else {
            return Err(NoMemory);
        };
        self.map.reserve(places)?;
        Ok(places)
    }

    /// Keeps room for `count` further keys apart; no other call uses it.
    pub fn keep(&mut self, count: usize) -> Result<(), NoMemory>
        ensures keys { self.new.keys ≡ self.old.keys }
        ensures ok { OnOk result (self.new.kept ≡ self.old.kept + count) }
        ensures err { OnErr result (self.new.kept ≡ self.old.kept) }
    {
        self.kept = self.reserve_behind(count)?;
        Ok(())
    }

    /// Gives room that was kept back.
    pub fn give_back(&mut self, count: usize)
        requires { count ≤ self.old.kept }
        ensures keys { self.new.keys ≡ self.old.keys }
        ensures spare { self.new.spare ≡ self.old.spare + count }
        ensures kept { self.new.kept + count ≡ self.old.kept }
    {
        self.kept -= count;
    }

    /// Lets the key hold the value, and uses a place that was kept. Takes no memory.
    pub fn put_kept(&mut self, key: Bin, value: Value)
        requires { 0 < self.old.kept }
        ensures keys { self.new.keys ≡ with_held self.old.keys key (Some (seen value)) }
        ensures spare { self.old.spare ≤ self.new.spare }
        ensures kept { self.new.kept + 1 ≡ self.old.kept }
    {
        self.give_back(1);
        self.put(key, value);
    }

    /// Lets the key hold the value, in place of what it held. Takes no memory.
    pub fn put(&mut self, key: Bin, value: Value)
        requires { 0 < self.old.spare }
        ensures keys { self.new.keys ≡ with_held self.old.keys key (Some (seen value)) }
        ensures spare { self.old.spare ≤ self.new.spare + 1 }
        ensures kept { self.new.kept ≡ self.old.kept }
    {
        match self.map.insert(key, value) {
            Ok(_) => {}
            Err(_) => unreachable!(),
        }
    }

    /// Removes the key, and answers what it held. Its room stays.
    pub fn remove(&mut self, key: &Bin) -> Option<Value>
        ensures keys { self.new.keys ≡ with_held self.old.keys key.now None }
        ensures old { option_map seen result ≡ held self.old.keys key.now }
        ensures spare { self.old.spare ≤ self.new.spare }
        ensures kept { self.new.kept ≡ self.old.kept }
    {
        self.map.remove(key)
    }

    /// Removes the key and what it holds. Its room stays.
    pub fn forget(&mut self, key: &Bin)
        ensures keys { self.new.keys ≡ with_held self.old.keys key.now None }
        ensures spare { self.old.spare ≤ self.new.spare }
        ensures kept { self.new.kept ≡ self.old.kept }
    {
        let _value = self.remove(key);
    }

    /// Removes all keys. The room that is kept stays.
    pub fn clear(&mut self)
        ensures keys { self.new.keys ≡ no_keys }
        ensures kept { self.new.kept ≡ self.old.kept }
    {
        self.map.clear();
    }

    /// Runs a command on what the key holds, but for the removal of the key. Where the key isn't there, nothing is done
    /// and nothing of the command is used.
    pub fn run_on_held(
        &mut self,
        alloc: Global,
        key: &Bin,
        op: &mut OneOp,
        reply: &mut Pieces,
    ) -> Result<Fate, NoMemory>
        ensures ok { IfOk result (λ fate. RanWhere fate (one op.old) (one op.new) key.now self.old.keys self.new.keys reply.new) }
        ensures keys { OnErr result (self.new.keys ≡ self.old.keys) }
        ensures kept { self.new.kept ≡ self.old.kept }
    {
        let Some(value) = self.map.get_mut(key) else {
            return Ok(Fate::Missing);
        };
        run_on(alloc, op, value, reply)
    }

    /// The keys that match the pattern, in byte order, lent.
    pub fn names(&self, alloc: Global, pattern: &[u8]) -> Result<Vec<&Bin>, NoMemory>
        ensures { IfOk result (λ names. map (λ name. name.now) names.items ≡ filter (is_match pattern.now) (fin.keys self.now.keys)) }
    {
        let mut names = Vec::new(alloc);
        'keys: for key in self.map.keys() {
            if glob(pattern, key.as_slice()) {
                names.push(key)?;
            }
        }
        names.sort_unstable();
        Ok(names)
    }

    /// All keys, in byte order, lent.
    pub(crate) fn lent_names(&self, alloc: Global) -> Result<Vec<&Bin>, NoMemory>
        ensures { IfOk result (λ lent. map (λ name. name.now) lent.items ≡ fin.keys self.now.keys) }
    {
        let mut lent = Vec::new(alloc);
        'keys: for key in self.map.keys() {
            lent.push(key)?;
        }
        lent.sort_unstable();
        Ok(lent)
    }
}
