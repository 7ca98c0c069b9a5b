//! Commands of the whole keyspace: DBSIZE, KEYS, FLUSHALL, and SAVE, which writes no file yet and says so.

ghost use Rattle.std.specs.Prelude.{◌≡◌, ◌<◌, ◌⊎◌, ◌++◌, ℕ, false, cond, length, map, slice_get, IfOk, OnOk, Some};
ghost use Rattle.std.specs.List.{filter, flat_map};
ghost use Rattle.std.specs.Option.{option_map};
ghost use Rattle.df_model.specs.Values.{Bytes};
ghost use Rattle.df_model.specs.Members as members;
ghost use Rattle.df_model.specs.Patterns.{is_match};
ghost use Rattle.df_model.specs.Outcomes.{bulks, count, ok};
ghost use Rattle.df_model.specs.Replies.{encoding_of};
ghost use Rattle.df_model.specs.declared.reply.ErrorText.TheVariants as errors;
ghost use Rattle.df_model.specs.declared.reply.Reply.TheVariants.{Bulk, Error};
ghost use Rattle.df_model.specs.declared.command.Command.{Command as TheCommand};
ghost use Rattle.df_model.specs.declared.command.Command.TheVariants.{Whole};
ghost use Rattle.df_model.specs.declared.command.WholeOp.TheVariants as wholes;
ghost use Rattle.df_log.specs.Acts.{Clear};
ghost use Rattle.df_core.specs.Done.{want_of_memory};
ghost use Rattle.df_rounds.specs.Standing.{first_asked, first_hop};
ghost use Rattle.df_hops.specs.Parts.{act_of};
ghost use Rattle.df_turn.specs.Courses.{IsOfEach, course_in};
ghost use Rattle.df_turn.specs.Heard.{all_names, some_want, sum_heard};
ghost use Rattle.df_turn.specs.Steps.{BeginsWhole, Ends, Says};
ghost use Rattle.df_turn.specs.Turns.{part_for};
ghost use Rattle.df_turn.specs.declared.turn.Rest.TheVariants as rests;
ghost use Rattle.df_turn.specs.declared.turn.Next.TheVariants as nexts;

use crate::course::Course;
use crate::ends::{Show, ask_to_end, end_hop};
use crate::heard::{all_names, some_want, sum_of};
use crate::turn::{Next, Rest, Turn};
use df_colls::SetVal;
use df_hops::{Changes, Outcome, Part};
use df_model::{Bin, Command, ErrorText, NoMemory, WholeOp};
use df_text::glob;
use df_values::Pieces;
use std::alloc::Global;

/// A command of the whole keyspace before its first round, which asks the same of each shard.
pub(crate) fn whole_turn(
    alloc: Global,
    shards: u32,
    course: Course,
    rest: Rest,
) -> Result<Turn, NoMemory>
    requires { IsOfEach course }
    ensures { IfOk result (λ turn. BeginsWhole shards course rest turn) }
{
    let parts = first_parts(alloc, shards, course)?;
    Ok(Turn {
        parts,
        hop: first_hop(course),
        rest,
    })
}

fn first_parts(alloc: Global, shards: u32, course: Course) -> Result<Vec<Option<Part>>, NoMemory>
    requires { IsOfEach course }
    ensures count { IfOk result (λ parts. length parts.items ≡ shards) }
    ensures parts { IfOk result (λ parts. (command : TheCommand) (s : ℕ) → s < shards → option_map act_of (part_for s parts.items) ≡ first_asked shards command (course_in course) s) }
{
    let mut parts = Vec::new(alloc);
    'shards: for _shard in 0..shards {
        parts.push(Some(first_part(alloc, course)?))?;
    }
    Ok(parts)
}

fn first_part(alloc: Global, course: Course) -> Result<Part, NoMemory>
    requires { IsOfEach course }
    ensures { IfOk result (λ part. (shards : ℕ) (command : TheCommand) (s : ℕ) → Some (act_of part) ≡ first_asked shards command (course_in course) s) }
{
    match course {
        Course::Names => Ok(Part::Walk),
        Course::Counts => Ok(Part::Count),
        Course::Cuts => Ok(Part::Begin),
        Course::Clears => Ok(Part::Stage(Box::new(alloc, Changes::new(alloc))?)),
        Course::Nowhere => unreachable!(),
        Course::Alone(_) => unreachable!(),
        Course::Spread => unreachable!(),
    }
}

/// The hop of the first round.
fn first_hop(course: Course) -> u32
    ensures { result ≡ first_hop (course_in course) }
{
    match course {
        Course::Nowhere => 0,
        Course::Alone(_) => 0,
        Course::Spread => 0,
        Course::Names => 0,
        Course::Counts => 0,
        Course::Cuts => 0,
        Course::Clears => 1,
    }
}

/// Says that there was no memory, in place of the reply.
pub(crate) fn say_memory(reply: Pieces) -> Next
    ensures { Says result want_of_memory }
{
    let mut reply = reply;
    match reply.put_error(&ErrorText::Memory) {
        Ok(()) => Next::Over(reply),
        Err(_) => Next::Unsaid,
    }
}

/// DBSIZE: the sum of what the shards counted. One that is past what a count can be isn't said; no memory holds so many keys.
pub(crate) fn counted(alloc: Global, outcomes: &[Option<Outcome>]) -> Next
    ensures { Says result (cond (some_want (length outcomes.now) outcomes.now) want_of_memory (count (sum_heard (length outcomes.now) outcomes.now))) }
{
    let mut reply = Pieces::new(alloc);
    if some_want(outcomes) {
        return say_memory(reply);
    }
    let Some(sum) = sum_of(outcomes) else {
        return Next::Unsaid;
    };
    reply.put_count_in_place(sum as usize);
    Next::Over(reply)
}

/// KEYS: the names that match, of those that the shards told.
pub(crate) fn walked(alloc: Global, command: &Command, outcomes: &mut [Option<Outcome>]) -> Next
    requires { (pattern : Bytes) × (command.now ≡ Whole (wholes.Keys pattern)) }
    ensures { (pattern : Bytes) → command.now ≡ Whole (wholes.Keys pattern) → Says result want_of_memory ⊎ ((some_want (length outcomes.old) outcomes.old ≡ false) × Says result (bulks (filter (is_match pattern) (members.items (all_names (length outcomes.old) outcomes.old))))) }
{
    let mut reply = Pieces::new(alloc);
    if some_want(outcomes) {
        return say_memory(reply);
    }
    match put_matching(alloc, pattern_of(command), outcomes, &mut reply) {
        Ok(()) => Next::Over(reply),
        Err(_) => say_memory(reply),
    }
}

/// The pattern of a KEYS.
fn pattern_of(command: &Command) -> &[u8]
    requires { (pattern : Bytes) × (command.now ≡ Whole (wholes.Keys pattern)) }
    ensures { command.now ≡ Whole (wholes.Keys result.now) }
{
    match command {
        Command::Whole(WholeOp::Keys(pattern)) => pattern.as_slice(),
        _ => unreachable!(),
    }
}

/// Puts the names together and writes those that match.
fn put_matching(
    alloc: Global,
    pattern: &[u8],
    outcomes: &mut [Option<Outcome>],
    reply: &mut Pieces,
) -> Result<(), NoMemory>
    ensures { OnOk result (reply.new ≡ encoding_of (bulks (filter (is_match pattern.now) (members.items (all_names (length outcomes.old) outcomes.old))))) }
{
    let names = all_names(alloc, outcomes)?;
    reply.put_array_head(matching(pattern, &names))?;
    add_matching(pattern, &names, reply)
}

/// How many names match.
fn matching(pattern: &[u8], names: &SetVal) -> usize
    ensures { result ≡ length (filter (is_match pattern.now) (members.items names.now.members)) }
{
    let mut count = 0;
    'names: for i in 0..names.len() {
        if glob(pattern, name_at(names, i).as_slice()) {
            count += 1;
        }
    }
    count
}

/// Writes those that match behind what stands.
fn add_matching(pattern: &[u8], names: &SetVal, reply: &mut Pieces) -> Result<(), NoMemory>
    ensures { OnOk result (reply.new ≡ reply.old ++ flat_map encoding_of (map Bulk (filter (is_match pattern.now) (members.items names.now.members)))) }
{
    'names: for i in 0..names.len() {
        let name = name_at(names, i);
        if glob(pattern, name.as_slice()) {
            reply.add_bulk(name.as_slice())?;
        }
    }
    Ok(())
}

fn name_at(names: &SetVal, i: usize) -> &Bin
    requires { i < members.len names.now.members }
    ensures { slice_get (members.items names.now.members) i ≡ Some result.now }
{
    match names.at(i) {
        Some(name) => name,
        None => unreachable!(),
    }
}

/// SAVE once every shard began its cut: nobody writes these to a file.
pub(crate) fn not_saved(alloc: Global) -> Next
    ensures { Says result (Error errors.SaveFailed) }
{
    let mut reply = Pieces::new(alloc);
    match reply.put_error(&ErrorText::SaveFailed) {
        Ok(()) => Next::Over(reply),
        Err(_) => Next::Unsaid,
    }
}

/// FLUSHALL once every shard cleared, or took back that it was to.
pub(crate) fn cleared(alloc: Global, wanted: bool) -> Next
    ensures { Says result (cond wanted want_of_memory ok) }
{
    let mut reply = Pieces::new(alloc);
    if wanted {
        return say_memory(reply);
    }
    match reply.put_ok() {
        Ok(()) => Next::Over(reply),
        Err(_) => Next::Unsaid,
    }
}

impl Turn {
    /// FLUSHALL once every shard took the memory that it needs, or found none.
    pub(crate) fn clear(&mut self, outcomes: &[Option<Outcome>]) -> Next
        requires { length self.old.parts.items ≡ length outcomes.now }
        ensures asks { result ≡ nexts.Asks }
        ensures ends { Ends (some_want (length outcomes.now) outcomes.now) Clear outcomes.now self.new }
        ensures rest { self.new.rest ≡ rests.Cleared (some_want (length outcomes.now) outcomes.now) }
    {
        let wanted = some_want(outcomes);
        ask_to_end(self.parts.as_mut_slice(), outcomes, wanted, Show::Clear);
        self.hop = end_hop(wanted);
        self.rest = Rest::Cleared(wanted);
        Next::Asks
    }
}
