//! The value of a set: its members.

ghost use Rattle.std.specs.Prelude.{◌≡◌, ◌+◌, ◌<◌, ◌≤◌, ◌==◌, IfOk, OnOk, not, length, drop, slice_get};
ghost use Rattle.std.specs.Option.{option_copied};
ghost use Rattle.std.specs.FinMap as map;
ghost use Rattle.df_model.specs.Members as members;
ghost use Rattle.df_colls.specs.Runs.{IsFront};
ghost use Rattle.df_colls.specs.Kept.{is_kept};

use crate::combine::{keep, united};
use crate::entries::Entries;
use df_model::{Bin, NoMemory};
use std::alloc::Global;
use std::marker::Model;
use std::mem;

/// A finite set, and room for `spare` members more.
#[derive(Debug, Drop)]
pub struct SetVal {
    entries: Entries<()>,
}

/// No wider than a vector and a word.
const _: () = prove!(mem::size_of::<SetVal>() <= 32);

impl Model for SetVal {
    ghost use Rattle.df_colls.specs.Roomy.{RoomyMembers, roomy_members_code};

    ghost Value = { RoomyMembers };

    ghost coded = { roomy_members_code };

    ghost view = { λ s. record { members = s.entries.contents; spare = s.entries.spare } };
}

impl SetVal {
    /// The empty set. Takes no memory.
    pub fn new(alloc: Global) -> SetVal
        ensures { result.members ≡ members.empty }
    {
        SetVal {
            entries: Entries::new(alloc),
        }
    }

    /// How many members there are.
    pub fn len(&self) -> usize
        ensures { result ≡ members.len self.now.members }
    {
        self.entries.len()
    }

    /// Whether there are none.
    pub fn is_empty(&self) -> bool
        ensures { result ≡ (members.len self.now.members == 0) }
    {
        self.entries.len() == 0
    }

    /// Makes room for `count` members, those that there is room for among them.
    pub fn reserve(&mut self, count: usize) -> Result<(), NoMemory>
        ensures members { self.new.members ≡ self.old.members }
        ensures spare { self.old.spare ≤ self.new.spare }
        ensures ok { OnOk result (count ≤ self.new.spare) }
    {
        self.entries.reserve(count)
    }

    /// Whether it is a member.
    pub fn has(&self, member: &[u8]) -> bool
        ensures { result ≡ members.contains self.now.members member.now }
    {
        self.entries.get(member).is_some()
    }

    /// Adds the member, and answers whether it is new. Takes no memory.
    pub fn add(&mut self, member: Bin) -> bool
        requires { 0 < self.old.spare }
        ensures members { self.new.members ≡ members.insert self.old.members member }
        ensures new { result ≡ not (members.contains self.old.members member) }
        ensures room { self.old.spare ≤ self.new.spare + 1 }
    {
        self.entries.put(member, ()).is_none()
    }

    /// Removes the member, and answers whether it was one. Takes no memory.
    pub fn remove(&mut self, member: &[u8]) -> bool
        ensures members { self.new.members ≡ members.remove self.old.members member.now }
        ensures old { result ≡ members.contains self.old.members member.now }
        ensures spare { self.old.spare ≤ self.new.spare }
    {
        self.entries.remove(member).is_some()
    }

    /// The member at this place in byte order, from 0.
    pub fn at(&self, i: usize) -> Option<&Bin>
        ensures { option_copied result ≡ slice_get (members.items self.now.members) i }
    {
        match self.entries.at(i) {
            Some((member, _)) => Some(member),
            None => None,
        }
    }

    /// Members from this place on in byte order: at least one, where there is one. A loop over all of them goes
    /// from run to run.
    pub fn run(&self, from: usize) -> &[(Bin, ())]
        ensures front { IsFront (drop from (map.entries self.now.members)) result.now }
        ensures goes_on { from < members.len self.now.members → 0 < length result.now }
    {
        self.entries.run(from)
    }

    /// The same members in memory of their own.
    pub fn copy(&self, alloc: Global) -> Result<SetVal, NoMemory>
        ensures { IfOk result (λ copy. copy.members ≡ self.now.members) }
    {
        let entries = self.entries.copy(alloc)?;
        Ok(SetVal { entries })
    }

    /// The members that both have.
    pub fn inter(&self, alloc: Global, other: &SetVal) -> Result<SetVal, NoMemory>
        ensures { IfOk result
            (λ both. both.members ≡ members.intersection self.now.members other.now.members) }
    {
        // The smaller set is gone through, and the larger is looked up in.
        if self.len() <= other.len() {
            self.kept(alloc, other, true)
        } else {
            other.kept(alloc, self, true)
        }
    }

    /// The members that either has.
    pub fn union(&self, alloc: Global, other: &SetVal) -> Result<SetVal, NoMemory>
        ensures { IfOk result
            (λ either. either.members ≡ members.union self.now.members other.now.members) }
    {
        let items = united(alloc, &self.entries, &other.entries)?;
        let entries = Entries::from_items(alloc, items)?;
        Ok(SetVal { entries })
    }

    /// The members that the other hasn't.
    pub fn diff(&self, alloc: Global, other: &SetVal) -> Result<SetVal, NoMemory>
        ensures { IfOk result
            (λ rest. rest.members ≡ members.difference self.now.members other.now.members) }
    {
        self.kept(alloc, other, false)
    }

    /// The members that the other has, or those that it hasn't.
    fn kept(&self, alloc: Global, other: &SetVal, inside: bool) -> Result<SetVal, NoMemory>
        ensures { IfOk result
            (λ kept. kept.members ≡ map.retain_keys self.now.members (is_kept inside other.now.members)) }
    {
        let mut items = Vec::new(alloc);
        let mut at = 0;
        'runs: while at < self.entries.len() {
            let run = self.entries.run(at);
            keep(alloc, &mut items, run, &other.entries, inside)?;
            at += run.len();
        }
        let entries = Entries::from_items(alloc, items)?;
        Ok(SetVal { entries })
    }
}
