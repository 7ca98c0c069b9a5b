//! Commands with keys on several shards: these read them, stage what changes, and show it.

ghost use Rattle.std.specs.Prelude.{◌≡◌, ◌<◌, ◌⊎◌, ℕ, cond, false, length, IfOk};
ghost use Rattle.std.specs.Option.{option_map};
ghost use Rattle.df_model.specs.Meaning.{meaning};
ghost use Rattle.df_model.specs.Reads.{IsLinked};
ghost use Rattle.df_model.specs.Replies.{encoding_of};
ghost use Rattle.df_model.specs.declared.reply.Reply.{Reply};
ghost use Rattle.df_log.specs.Acts.{Apply};
ghost use Rattle.df_core.specs.Courses.{changes_on};
ghost use Rattle.df_core.specs.Due.{is_nil, some};
ghost use Rattle.df_core.specs.Done.{want_of_memory};
ghost use Rattle.df_rounds.specs.Standing.{stage_of, values_told};
ghost use Rattle.df_hops.specs.Parts.{act_of};
ghost use Rattle.df_exchange.specs.Asks.{heard_of};
ghost use Rattle.df_spread.specs.Spread.{KeysStand, changes_at, changes_seen, modes_at};
ghost use Rattle.df_keys.specs.Asked.{footprint_there};
ghost use Rattle.df_turn.specs.Asked.{IsNaming};
ghost use Rattle.df_turn.specs.Heard.{some_want, told_heard, values_heard};
ghost use Rattle.df_turn.specs.Steps.{BeginsReading, Ends, RanTo, Says, changes_any};
ghost use Rattle.df_turn.specs.Turns.{part_for};
ghost use Rattle.df_turn.specs.declared.turn.Rest.TheVariants as rests;
ghost use Rattle.df_turn.specs.declared.turn.Next.TheVariants as nexts;

use crate::ends::{Show, ask_to_end, end_hop};
use crate::heard::{all_values, some_want};
use crate::named::reads;
use crate::turn::{Next, Rest, Turn};
use crate::whole::say_memory;
use df_hops::{Changes, Outcome, Part};
use df_model::{Command, KeyModes, Keys, NoMemory};
use df_spread::run_over;
use df_values::Pieces;
use std::alloc::Global;
use std::mem;

/// A command before its first round, in which each shard reads the keys that are named there.
pub(crate) fn read_turn(alloc: Global, keys: &[Option<Box<Keys>>]) -> Result<Turn, NoMemory>
    requires { (s : ℕ) → s < length keys.now → IsNaming (footprint_there s keys.now) }
    ensures { IfOk result (λ turn. BeginsReading keys.now turn) }
{
    let (parts, kept) = reads(alloc, keys)?;
    Ok(Turn {
        parts,
        hop: 0,
        rest: Rest::Reading(kept),
    })
}

/// The end of a command: its reply, or that a shard found no memory to stage.
pub(crate) fn ended(wanted: bool, reply: Pieces) -> Next
    ensures { (said : Reply) → reply ≡ encoding_of said → Says result (cond wanted want_of_memory said) }
{
    if wanted {
        return say_memory(reply);
    }
    Next::Over(reply)
}

/// Asks each shard to stage what changes there, and answers whether anything does. Takes memory for each message.
fn ask_to_stage(
    alloc: Global,
    parts: &mut [Option<Part>],
    changes: &mut [Changes],
) -> Result<bool, NoMemory>
    requires { length changes.old ≡ length parts.old }
    ensures any { IfOk result (λ any. any ≡ changes_any (length changes.old) (λ s. changes_seen (changes_at changes.old s))) }
    ensures parts { IfOk result (λ any. (s : ℕ) → s < length changes.old → option_map act_of (part_for s parts.new) ≡ stage_of (changes_seen (changes_at changes.old s))) }
{
    let mut any = false;
    'shards: for s in 0..changes.len() {
        let part = stage_part(alloc, changes[s].take())?;
        if part.is_some() {
            any = true;
        }
        let _old = mem::replace(&mut parts[s], part);
    }
    Ok(any)
}

/// Nothing is asked where nothing changes.
fn stage_part(alloc: Global, changed: Changes) -> Result<Option<Part>, NoMemory>
    ensures { IfOk result (λ part. option_map act_of part ≡ stage_of (changes_seen changed.items)) }
{
    if changed.len() == 0 {
        return Ok(None);
    }
    Ok(Some(Part::Stage(Box::new(alloc, changed)?)))
}

impl Turn {
    /// Once the keys were read: runs the command over what they hold. It is over where nothing changes; else each shard
    /// with changes is asked to stage them. Where a shard found no memory, or there is none here, it is over, and says so.
    pub(crate) fn run(
        &mut self,
        alloc: Global,
        shards: u32,
        command: &mut Command,
        keys: Vec<KeyModes>,
        outcomes: &mut [Option<Outcome>],
    ) -> Next
        requires some { 0 < shards }
        requires linked { IsLinked command.old }
        requires keys { KeysStand shards command.old keys.items }
        requires count { (length outcomes.old ≡ shards) × (length self.old.parts.items ≡ shards) }
        requires values { some_want shards outcomes.old ≡ false → (s : ℕ) → s < shards → length (values_heard (heard_of s outcomes.old)) ≡ length (modes_at keys.items s) }
        ensures { Says result want_of_memory ⊎ ((some_want shards outcomes.old ≡ false) × RanTo result shards (λ s. changes_on shards s command.old (values_told shards command.old (told_heard outcomes.old))) (encoding_of (meaning command.old (values_told shards command.old (told_heard outcomes.old))).0) self.new) }
    {
        let mut reply = Pieces::new(alloc);
        if some_want(outcomes) {
            return say_memory(reply);
        }
        let Ok(values) = all_values(alloc, outcomes) else {
            return say_memory(reply);
        };
        match run_over(alloc, shards, command, keys, values, &mut reply) {
            Ok(changes) => self.stage(alloc, changes, reply),
            Err(_) => say_memory(reply),
        }
    }

    /// Once it was run: it is over, or what changes is staged.
    fn stage(&mut self, alloc: Global, changes: Vec<Changes>, reply: Pieces) -> Next
        requires { length changes.items ≡ length self.old.parts.items }
        ensures { Says result want_of_memory ⊎ RanTo result (length self.old.parts.items) (λ s. changes_seen (changes_at changes.items s)) reply self.new }
    {
        let mut changes = changes;
        match ask_to_stage(alloc, self.parts.as_mut_slice(), changes.as_mut_slice()) {
            Err(_) => say_memory(reply),
            Ok(false) => Next::Over(reply),
            Ok(true) => {
                self.hop = 1;
                self.rest = Rest::Staging(reply);
                Next::Asks
            }
        }
    }

    /// Once every shard staged, or found no memory for it.
    pub(crate) fn show(&mut self, reply: Pieces, outcomes: &[Option<Outcome>]) -> Next
        requires { length self.old.parts.items ≡ length outcomes.now }
        ensures asks { result ≡ nexts.Asks }
        ensures ends { Ends (some_want (length outcomes.now) outcomes.now) Apply outcomes.now self.new }
        ensures rest { self.new.rest ≡ rests.Ending (some_want (length outcomes.now) outcomes.now) reply }
    {
        let wanted = some_want(outcomes);
        ask_to_end(self.parts.as_mut_slice(), outcomes, wanted, Show::Apply);
        self.hop = end_hop(wanted);
        self.rest = Rest::Ending(wanted, reply);
        Next::Asks
    }
}
