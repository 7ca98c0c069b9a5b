//! A new book.
ghost use Rattle.std.specs.Prelude.{◌≡◌, ◌+◌, ◌^◌, ◌<◌, ◌≤◌, [], ℕ, suc, length, IfOk, slice_index};
ghost use Rattle.df_book.specs.Passes.{first_pass, shard_passes};
ghost use Rattle.df_book.specs.Deals.{dealing};

use crate::book::{Book, BookOf};
use crate::passes::{CallerPass, CallerPassOf, ShardPass, ShardPassOf};
use crate::rule::{CutShard, Ruling, Sizes};
use crate::view::{Said, View};
use atomic_table::{Seat, Table};
use df_model::NoMemory;
use std::alloc::Global;

// The next number, which is 1, and a length of 0 for each log.
fn first_words(alloc: Global, logs: usize) -> Result<Vec<u64>, NoMemory>
    requires { logs < 100 }
    ensures { IfOk result (λ v. (length v.items ≡ suc logs) × (slice_index v.items 0 ≡ 1) × ((i : ℕ) → i < logs → slice_index v.items (suc i) ≡ 0)) }
{
    let mut words = Vec::from_elem(alloc, 0u64, logs + 1)?;
    words[0] = 1;
    Ok(words)
}

impl BookOf<Said, Ruling> {
    // Splits off a pass for each log.
    fn deal(
        &self,
        alloc: Global,
        first: &mut Seat<Said, View>,
        logs: u32,
        draws: u64,
    ) -> Result<Vec<ShardPass>, NoMemory>
        requires { (first.old.table_id ≡ self.now) × (first.old.me ≡ (dealing draws 0 logs, [])) × (logs + 1 ≡ self.now.words) }
        ensures { IfOk result (λ v. (v.items ≡ shard_passes self.now 0 logs) × (first.new.table_id ≡ self.now) × (first.new.me ≡ (dealing draws logs 0, []))) }
    {
        let mut passes = Vec::with_capacity(alloc, logs as usize)?;
        for shard in 0..logs {
            let seat = self.table.shared.split_seat::<CutShard>(first);
            passes.push_reserved(ShardPassOf { shard, seat });
        }
        Ok(passes)
    }

    /// A book of so many shards, from 1 to 64, of which that many numbers may be drawn. It comes with a pass for each
    /// shard, in order, one more, the last, for the log of the place of saves, and the first pass.
    pub fn new(
        alloc: Global,
        shards: u32,
        draws: u64,
    ) -> Result<(Book, Vec<ShardPass>, CallerPass), NoMemory>
        requires { (1 ≤ shards) × (shards ≤ 64) × (draws < 2 ^ 63) }
        ensures words { IfOk result (λ r. r.0.words ≡ shards + 2) }
        ensures shards { IfOk result (λ r. r.1.items ≡ shard_passes r.0 0 (suc shards)) }
        ensures first { IfOk result (λ r. r.2 ≡ first_pass r.0 draws) }
    {
        let words = first_words(alloc, shards as usize + 1)?;
        let about = Sizes {
            shards: u64::from(shards),
            draws,
        };
        let (table, mut seat) = Table::of_words(alloc, words.as_slice(), &about)?;
        let book = BookOf { table };
        let passes = book.deal(alloc, &mut seat, shards + 1, draws)?;
        let first = CallerPassOf {
            budget: draws,
            seat,
        };
        Ok((book, passes, first))
    }
}
