//! The desk: a place for one call, which its connection begins and steps, and another serves.

ghost use Rattle.std.specs.Prelude.{◌≡◌, None, true};

use crate::answered::Answered;
use crate::place::{Place, is_due, served};
use df_caller::{Caller, Slip, Went};
use df_table::Table;
use std::alloc::Global;
use std::marker::Model;
use std::mem;

/// A place for one slip.
#[derive(Drop)]
pub struct Desk {
    place: Place,
    stalls: u64,
    answered: Answered,
}

impl Model for Desk {
    ghost use Rattle.df_model.specs.contracts.reply.Reply as reply_type;
    ghost use Rattle.std.specs.Coded.{codes};
    ghost use Rattle.df_desk.specs.States.{DeskState};

    ghost Value = { DeskState };

    ghost coded = { Prim.hlevel (codes, reply_type.the_row.coded) };

    ghost use Rattle.df_desk.specs.Desks.{desk_of, said_at};

    ghost view = { desk_of };

    ghost invariant = { λ d. said_at d.place };
}

impl Desk {
    ghost use Rattle.std.specs.Prelude.{[]};
    ghost use Rattle.df_desk.specs.States.{Served};

    /// No call. Takes no memory.
    pub fn new() -> Desk
        ensures calling { result.calling ≡ record { told = []; under = None; stalls = 0; due = true } }
        ensures ran { result.ran ≡ [] }
    {
        Desk {
            place: Place::Empty,
            stalls: 0,
            answered: Answered::new(),
        }
    }

    /// Where no call is under way, all that ran was told. Its calls are left, and no bytes.
    pub fn finish(self) -> Answered
        requires idle { self.calling.under ≡ None }
        ensures told { result ≡ self.calling.told }
        ensures ran { result ≡ self.ran }
    {
        let Desk {
            place: _,
            stalls: _,
            answered,
        } = self;
        answered
    }

    /// Runs the call that waits here, where one does.
    pub fn serve(&mut self, alloc: Global, table: &mut Table)
        ensures { Served self.old self.new table.old.keys table.new.keys }
    {
        if is_due(&self.place) {
            return;
        }
        let place = mem::replace(&mut self.place, Place::Empty);
        self.place = served(place, alloc, table);
    }
}

impl Caller for Desk {
    ghost calling = { λ d. d.calling };

    ghost ran = { λ d. d.ran };

    fn begin(&mut self, slip: Box<Slip>) {
        self.place = Place::Waits(slip);
    }

    fn step(&mut self) -> Went {
        if let Place::Waits(_) = &self.place {
            self.stalls = self.stalls.saturating_add(1);
            return Went::Pending;
        }
        match mem::replace(&mut self.place, Place::Empty) {
            Place::Waits(_) | Place::Empty => unreachable!(),
            Place::Ran(slip, ran) => {
                self.answered.push(ran);
                Went::Finished(slip)
            }
            Place::Unsaid(slip, ran) => {
                self.answered.push(ran);
                Went::Unsaid(slip)
            }
            Place::NoMemory(slip, _) => Went::NoMemory(slip),
        }
    }
}
