//! A disk in memory, which fails where it is told to.

ghost use Rattle.std.specs.Prelude.{◌≡◌, ◌<◌, Some, length};
ghost use Rattle.std.specs.Option.{option_copied};
ghost use Rattle.df_outside.specs.Disks.{Chooses, HasRead, Begins, HasAppended, Syncs, Replaces, IsSynced};
ghost use Rattle.df_outside.specs.FaultPlans.{IsQuiet};
ghost use Rattle.df_outside.specs.MemDisks.{disk_of, begun, appended, made_sure, put_in_place, HasDone, HasAppendedTo, HasReadAt, Finds};

use crate::buffers::copy_front;
use crate::fault_plan::FaultPlan;
use crate::puts::Puts;
use crate::{Disk, Done, Had};
use df_model::Bin;
use std::alloc::Global;
use std::marker::Model;
use std::mem;

/// Tells the file, what was appended, and all contents that were put in place. A call that fails
/// leaves all of them.
#[derive(Debug, Drop)]
pub struct MemDisk {
    file: Option<Bin>,
    fresh: Vec<u8>,
    synced: bool,
    puts: Puts,
    plan: FaultPlan,
}

impl Model for MemDisk {
    ghost use Rattle.df_outside.specs.MemDisks.{DiskState};

    ghost Value = { DiskState };

    ghost view = { λ d. record { stored = record { file = d.file; fresh = d.fresh.items; synced = d.synced; puts = d.puts }; plan = d.plan } };
}

impl MemDisk {
    /// `fails` names the calls that are to fail, counted from 0 over all methods.
    pub fn new(alloc: Global, file: Option<Bin>, fails: Vec<u64>) -> MemDisk
        ensures { result ≡ disk_of file fails.items }
    {
        MemDisk {
            file,
            fresh: Vec::new(alloc),
            synced: false,
            puts: Puts::new(),
            plan: FaultPlan::new(fails),
        }
    }

    /// The file as it is now.
    pub fn file(&self) -> Option<&Bin>
        ensures { option_copied result ≡ self.now.stored.file }
    {
        self.file.as_ref()
    }
}

impl Disk for MemDisk {
    ghost stored = { λ d. Some d.stored };

    ghost faults = { λ d. d.plan.faults };

    fn choose(&mut self, name: &str) -> Done
        ensures chooses { Chooses result (Some self.old.stored) (Some self.new.stored) self.old.plan.faults self.new.plan.faults }
        ensures state { HasDone result self.old.stored self.old self.new }
        ensures quiet { IsQuiet self.old.plan self.new.plan }
    {
        let _ = name;
        if self.plan.fails_now() {
            return Done::Failed;
        }
        Done::Ok
    }

    fn read(&mut self, at: u64, buf: &mut [u8]) -> Had
        requires { 0 < length buf.old }
        ensures reads { HasRead result at buf.new (Some self.old.stored) (Some self.new.stored) self.old.plan.faults self.new.plan.faults }
        ensures state { HasReadAt result at self.old self.new buf.old buf.new }
        ensures quiet { IsQuiet self.old.plan self.new.plan }
    {
        if self.plan.fails_now() {
            return Had::Failed;
        }
        match &self.file {
            Some(content) => read_at(content, at, buf),
            None => Had::Missing,
        }
    }

    fn begin(&mut self) -> Done
        ensures begins { Begins result (Some self.old.stored) (Some self.new.stored) self.old.plan.faults self.new.plan.faults }
        ensures state { HasDone result (begun self.old.stored) self.old self.new }
        ensures quiet { IsQuiet self.old.plan self.new.plan }
    {
        if self.plan.fails_now() {
            return Done::Failed;
        }
        self.fresh.clear();
        self.synced = false;
        Done::Ok
    }

    fn append(&mut self, piece: &[u8]) -> Done
        ensures appends { HasAppended result piece.now (Some self.old.stored) (Some self.new.stored) self.old.plan.faults self.new.plan.faults }
        ensures state { HasAppendedTo result piece.now self.old self.new }
        ensures quiet { IsQuiet self.old.plan self.new.plan }
    {
        if self.plan.fails_now() {
            return Done::Failed;
        }
        if self.fresh.extend_from_slice(piece).is_err() {
            return Done::NoMemory;
        }
        self.synced = false;
        Done::Ok
    }

    fn sync(&mut self) -> Done
        ensures syncs { Syncs result (Some self.old.stored) (Some self.new.stored) self.old.plan.faults self.new.plan.faults }
        ensures state { HasDone result (made_sure self.old.stored) self.old self.new }
        ensures quiet { IsQuiet self.old.plan self.new.plan }
    {
        if self.plan.fails_now() {
            return Done::Failed;
        }
        self.synced = true;
        Done::Ok
    }

    fn replace(&mut self) -> Done
        requires { IsSynced (Some self.old.stored) }
        ensures replaces { Replaces result (Some self.old.stored) (Some self.new.stored) self.old.plan.faults self.new.plan.faults }
        ensures state { HasDone result (put_in_place self.old.stored) self.old self.new }
        ensures quiet { IsQuiet self.old.plan self.new.plan }
    {
        if self.plan.fails_now() {
            return Done::Failed;
        }
        let empty = Vec::new(*self.fresh.allocator());
        let content = Bin::from_vec(mem::replace(&mut self.fresh, empty));
        self.puts.push(&content);
        self.file = Some(content);
        self.synced = false;
        Done::Ok
    }
}

/// A read of a file that is there.
fn read_at(content: &Bin, at: u64, buf: &mut [u8]) -> Had
    requires { 0 < length buf.old }
    ensures { Finds result at (Some content.now) buf.old buf.new }
{
    let content = content.as_slice();
    if content.len() as u64 <= at {
        return Had::End;
    }
    Had::Took(copy_front(&content[at as usize..], buf))
}
