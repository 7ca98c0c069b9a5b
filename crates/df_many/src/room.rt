//! Room for what a call asks of all shards at one time, and for its commands, used again by the next one.

ghost use Rattle.std.specs.Prelude.{◌≡◌, length, IfOk};
ghost use Rattle.df_many.specs.Rooms.{AllIdle, IsRoom};
ghost use Rattle.df_turn.specs.Turns.{IsClear};

use df_book::Book;
use df_hops::Outcome;
use df_model::{Keys, NoMemory};
use df_plan::Plan;
use df_post::Round;
use std::alloc::Global;

/// A place for each shard, in each of the lists.
#[derive(Drop)]
pub struct Room {
    pub(crate) round: Round,
    pub(crate) outcomes: Vec<Option<Outcome>>,
    /// Where the call under way has its place.
    pub(crate) taken: Vec<bool>,
    /// What the call under way asks for.
    pub(crate) keys: Vec<Option<Box<Keys>>>,
    /// Its commands.
    pub(crate) plan: Plan,
}

impl Room {
    /// With nothing in it. Its memory is taken here.
    pub fn new(alloc: Global, book: &Book, shards: u32) -> Result<Room, NoMemory>
        ensures room { IfOk result (λ room. IsRoom book.now shards room) }
        ensures idle { IfOk result (λ room. AllIdle room.round) }
    {
        Ok(Room {
            round: Round::new(alloc, book, shards)?,
            outcomes: no_outcomes(alloc, shards)?,
            taken: none_taken(alloc, shards)?,
            keys: no_keys(alloc, shards)?,
            plan: Plan::new(alloc),
        })
    }
}

fn no_outcomes(alloc: Global, shards: u32) -> Result<Vec<Option<Outcome>>, NoMemory>
    ensures { IfOk result (λ outcomes. IsClear shards outcomes.items) }
{
    let mut outcomes = Vec::new(alloc);
    'shards: for _shard in 0..shards {
        outcomes.push(None)?;
    }
    Ok(outcomes)
}

fn none_taken(alloc: Global, shards: u32) -> Result<Vec<bool>, NoMemory>
    ensures { IfOk result (λ taken. length taken.items ≡ shards) }
{
    let mut taken = Vec::new(alloc);
    'shards: for _shard in 0..shards {
        taken.push(false)?;
    }
    Ok(taken)
}

fn no_keys(alloc: Global, shards: u32) -> Result<Vec<Option<Box<Keys>>>, NoMemory>
    ensures { IfOk result (λ keys. length keys.items ≡ shards) }
{
    let mut keys = Vec::new(alloc);
    'shards: for _shard in 0..shards {
        keys.push(None)?;
    }
    Ok(keys)
}
