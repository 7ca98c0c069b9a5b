//! A shard, by the rules of docs/TRANSACTIONS.md.

use crate::store::{Replies, SHARDS, Store, run};
use df_footprints::footprint;
use df_intents::{Grant, Intents, room_of};
use df_model::{Call, NoMemory};
use df_txqueue::{Place, TxQueue};
use std::alloc::Global;
use std::collections::BTreeMap;

/// What a shard answers.
#[derive(Clone, Copy, Debug, PartialEq, Eq)]
pub(crate) enum Answer {
    Granted,
    Waits,
    /// A greater number has run.
    TooLate,
    /// A holder conflicts, and a greater number waits.
    BeforeTail,
    Ran(Replies),
    NotYet,
    Gone,
    Drawn,
    /// Such an event doesn't happen here.
    Nothing,
}

#[derive(Drop)]
pub(crate) struct Shard {
    alloc: Global,
    at: u32,
    intents: Intents,
    queue: TxQueue,
    /// The greatest number that has run anything here.
    ran: u64,
    store: Store,
}

impl Shard {
    pub(crate) fn new(alloc: Global, at: u32) -> Shard {
        Shard {
            alloc,
            at,
            intents: Intents::new(alloc),
            queue: TxQueue::new(alloc),
            ran: 0,
            store: BTreeMap::new(alloc),
        }
    }

    /// Asks for what the call needs here.
    pub(crate) fn schedule(&mut self, call: &Call, number: u64) -> Result<Answer, NoMemory> {
        let Some(keys) = footprint(self.alloc, call, self.at, SHARDS)? else {
            return Ok(Answer::Nothing);
        };
        if number <= self.ran {
            return Ok(Answer::TooLate);
        }
        self.intents.reserve(room_of(&keys))?;
        self.queue.reserve(1)?;
        if self.intents.holds(number) || self.queue.is_queued(number) {
            return Ok(Answer::Nothing);
        }
        let granted = self.intents.take(number, keys) == Grant::Free;
        if !granted && self.queue.tail().is_some_and(|tail| number < tail) {
            self.release(number);
            return Ok(Answer::BeforeTail);
        }
        self.queue.insert(Place {
            number,
            granted,
            slot: 0,
        });
        Ok(if granted {
            Answer::Granted
        } else {
            Answer::Waits
        })
    }

    fn release(&mut self, number: u64) {
        if self.intents.holds(number) {
            let _keys = self.intents.release(number);
        }
    }

    /// Whether the call was granted here, or is the head.
    fn may_run(&self, number: u64) -> bool {
        'places: for at in 0..self.queue.len() {
            if let Some(place) = self.queue.get(at)
                && place.number == number
            {
                return place.granted || at == 0;
            }
        }
        false
    }

    /// Runs what the call does here, if it may run.
    pub(crate) fn hop(&mut self, call: &Call, number: u64) -> Result<Answer, NoMemory> {
        if !self.may_run(number) {
            return Ok(Answer::NotYet);
        }
        self.ran = self.ran.max(number);
        let alloc = self.alloc;
        let replies = run(alloc, &mut self.store, call, Some(self.at))?;
        Ok(Answer::Ran(replies))
    }

    /// Lets the call leave.
    pub(crate) fn leave(&mut self, number: u64) -> Answer {
        self.release(number);
        match self.queue.remove(number) {
            Some(_) => Answer::Gone,
            None => Answer::Nothing,
        }
    }

    /// A call of one hop on this shard alone: scheduled, and run and concluded at once where it is granted.
    pub(crate) fn quick(&mut self, call: &Call, number: u64) -> Result<Answer, NoMemory> {
        let answer = self.schedule(call, number)?;
        if answer != Answer::Granted {
            return Ok(answer);
        }
        let answer = self.hop(call, number)?;
        self.leave(number);
        Ok(answer)
    }
}
