//! A door in memory, which hands out its links in their order and fails where it is told to.

ghost use Rattle.std.specs.Prelude.{◌≡◌, All};
ghost use Rattle.df_outside.specs.Doors.{Accepts, Binds, ComesFresh, StaysOpen};
ghost use Rattle.df_outside.specs.FaultPlans.{IsQuiet};
ghost use Rattle.df_outside.specs.MemDoors.{door_of, hall_of, HasAccepted, HasBound};

use crate::fault_plan::FaultPlan;
use crate::{Came, Done, Door, Link, Poller};
use std::marker::Model;

/// Hands out its links in order; where the list has None, one accept answers NotYet. After the last it
/// says Closed, for ever.
#[derive(Drop)]
pub struct MemDoor<L: Link> {
    /// A link that was handed out has left None.
    links: Vec<Option<L>>,
    /// The number of the place that comes next, from 0.
    number: usize,
    /// How many links were handed out.
    given: usize,
    shut: bool,
    plan: FaultPlan,
}

impl<L: Link> Model for MemDoor<L> {
    ghost use Rattle.std.specs.Prelude.{All, ◌≤◌, length, drop};
    ghost use Rattle.df_outside.specs.Doors.{ComesFresh};
    ghost use Rattle.df_outside.specs.MemDoors.{DoorState};

    ghost Value = { DoorState L };

    ghost view = { λ d. record { left = drop d.number d.links.items; given = d.given; shut = d.shut; plan = d.plan } };

    ghost invariant = { λ d. (d.number ≤ length d.links.items) × (d.given ≤ d.number) × All (ComesFresh L.flow) d.links.items };
}

impl<L: Link> MemDoor<L> {
    /// `fails` names the calls of `bind` and of `accept` that are to fail, counted together from 0; the
    /// accepts after Closed aren't counted.
    pub fn new(links: Vec<Option<L>>, fails: Vec<u64>) -> MemDoor<L>
        requires { All (ComesFresh L.flow) links.items }
        ensures { result ≡ door_of links.items fails.items }
    {
        MemDoor {
            links,
            number: 0,
            given: 0,
            shut: false,
            plan: FaultPlan::new(fails),
        }
    }
}

impl<L: Link> Poller for MemDoor<L> {
    ghost hall = { hall_of };

    /// Returns at once. It isn't counted.
    fn rest(&mut self, _millis: u32)
        ensures { self.new ≡ self.old }
    {}
}

impl<L: Link> Door for MemDoor<L> {
    type Link = L;

    fn bind(&mut self, _port: u16) -> Done
        ensures binds { Binds result (hall_of self.old) (hall_of self.new) }
        ensures state { HasBound result self.old self.new }
        ensures quiet { IsQuiet self.old.plan self.new.plan }
    {
        if self.plan.fails_now() {
            return Done::Failed;
        }
        Done::Ok
    }

    fn accept(&mut self) -> Came<L>
        ensures accepts { Accepts L.flow result (hall_of self.old) (hall_of self.new) }
        ensures state { HasAccepted result self.old self.new }
        ensures quiet { IsQuiet self.old.plan self.new.plan }
    {
        if self.shut {
            return Came::Closed;
        }
        if self.plan.fails_now() {
            return Came::Failed;
        }
        if self.number == self.links.len() {
            self.shut = true;
            return Came::Closed;
        }
        let place = self.links[self.number].take();
        self.number += 1;
        match place {
            Some(link) => {
                self.given += 1;
                Came::Link(link)
            }
            None => Came::NotYet,
        }
    }
}
