//! What a part of a hop does on the shard's keys. Its memory is taken before its first change.

ghost use Rattle.std.specs.Prelude.{◌≡◌, ◌+◌, ◌≤◌, [], is_some, if◌then◌else◌, map, IfOk, OnErr, OnOk};
ghost use Rattle.std.specs.Option.{option_map};
ghost use Rattle.std.specs.FinMap as fin;
ghost use Rattle.df_model.specs.Keyspace.{held, with_held};
ghost use Rattle.df_model.specs.Meaning.{meaning};
ghost use Rattle.df_model.specs.Reads.{IsLinked};
ghost use Rattle.df_values.specs.Seen.{seen};
ghost use Rattle.df_table.specs.Responses.{Gives};
ghost use Rattle.df_log.specs.Changes.{with_changes};
ghost use Rattle.df_log.specs.Parts.{own_keys};
ghost use Rattle.df_hops.specs.Parts.{act_of};
ghost use Rattle.df_shard.specs.Did.{DidPart};
ghost use Rattle.df_shard.specs.Holds.{changes_seen, puts_in};
ghost use Rattle.df_shard.specs.Served.{IsLinkedAct};

use df_hops::{Changes, Outcome, Part, Values};
use df_model::{Bin, Bins, Command, NoMemory};
use df_table::Table;
use df_values::{Pieces, Value};
use std::alloc::Global;

/// Does the part on the keys of shard `index`. What the call has staged stands in `staged`, and for each of its puts the
/// table keeps a place.
pub(crate) fn do_part(
    alloc: Global,
    shards: u32,
    index: u32,
    table: &mut Table,
    part: Part,
    staged: &mut Changes,
) -> Outcome
    requires linked { IsLinkedAct (act_of part) }
    requires own { own_keys shards index table.old.keys ≡ table.old.keys }
    requires kept { puts_in (changes_seen staged.old.items) ≤ table.old.kept }
    ensures { DidPart shards index (act_of part) table.old.keys (changes_seen staged.old.items) table.old.kept table.new.keys (changes_seen staged.new.items) table.new.kept result }
{
    match part {
        Part::Run(command) => match run(alloc, table, Box::into_inner(command)) {
            Ok(reply) => Outcome::Ran(reply),
            Err(_) => Outcome::NoMemory,
        },
        Part::Read(keys) => match read(alloc, table, &keys) {
            Ok(values) => Outcome::Values(values),
            Err(_) => Outcome::NoMemory,
        },
        Part::Stage(changes) => match stage(table, Box::into_inner(changes), staged) {
            Ok(()) => Outcome::Staged,
            Err(_) => Outcome::NoMemory,
        },
        Part::Apply => {
            apply(table, staged);
            Outcome::Applied
        }
        Part::Unstage => {
            unstage(table, staged);
            Outcome::Applied
        }
        Part::Begin => Outcome::Applied,
        Part::Walk => match walk(alloc, table) {
            Ok(names) => Outcome::Names(names),
            Err(_) => Outcome::NoMemory,
        },
        Part::Count => Outcome::Number(table.len() as u64),
        Part::Clear => {
            unstage(table, staged);
            table.clear();
            Outcome::Applied
        }
    }
}

/// Runs the command, and answers its reply.
fn run(alloc: Global, table: &mut Table, command: Command) -> Result<Box<Pieces>, NoMemory>
    requires { IsLinked command }
    ensures ok { IfOk result (λ reply. Gives (meaning command table.old.keys) table.new.keys reply.value) }
    ensures err { OnErr result (table.new.keys ≡ table.old.keys) }
    ensures kept { table.new.kept ≡ table.old.kept }
{
    let mut command = command;
    let mut reply = Box::new(alloc, Pieces::new(alloc))?;
    table.run_command(alloc, &mut command, &mut reply)?;
    Ok(reply)
}

/// Copies of what the keys hold, in their order.
fn read(alloc: Global, table: &Table, keys: &Bins) -> Result<Box<Values>, NoMemory>
    ensures { IfOk result (λ values. map (option_map seen) values.value.items ≡ map (held table.now.keys) keys.now.items) }
{
    let values = table.copies(alloc, keys)?;
    Ok(Box::new(alloc, values)?)
}

/// All keys, in byte order.
fn walk(alloc: Global, table: &Table) -> Result<Box<Bins>, NoMemory>
    ensures { IfOk result (λ names. names.value.items ≡ fin.keys table.now.keys) }
{
    let names = table.all_names(alloc)?;
    Ok(Box::new(alloc, names)?)
}

/// Takes room for what the changes put, and stages them in place of what was staged, whose room is given back.
fn stage(table: &mut Table, changes: Changes, staged: &mut Changes) -> Result<(), NoMemory>
    requires { puts_in (changes_seen staged.old.items) ≤ table.old.kept }
    ensures keys { table.new.keys ≡ table.old.keys }
    ensures ok { OnOk result ((staged.new.items ≡ changes.items) × (table.new.kept + puts_in (changes_seen staged.old.items) ≡ table.old.kept + puts_in (changes_seen changes.items))) }
    ensures err { OnErr result ((staged.new ≡ staged.old) × (table.new.kept ≡ table.old.kept)) }
{
    table.keep(count_puts(changes.as_slice()))?;
    table.give_back(count_puts(staged.as_slice()));
    *staged = changes;
    Ok(())
}

/// Shows what was staged, the last change first. Each put uses the place that was kept for it.
fn apply(table: &mut Table, staged: &mut Changes)
    requires { puts_in (changes_seen staged.old.items) ≤ table.old.kept }
    ensures keys { table.new.keys ≡ with_changes (changes_seen staged.old.items) table.old.keys }
    ensures staged { staged.new.items ≡ [] }
    ensures kept { table.new.kept + puts_in (changes_seen staged.old.items) ≡ table.old.kept }
{
    'changes: while let Some((key, value)) = staged.pop() {
        show(table, key, value);
    }
}

/// Lets the key hold the value, in a place that was kept for it, or nothing.
fn show(table: &mut Table, key: Bin, value: Option<Value>)
    requires { (if is_some value then 1 else 0) ≤ table.old.kept }
    ensures keys { table.new.keys ≡ with_held table.old.keys key (option_map seen value) }
    ensures kept { table.new.kept + (if is_some value then 1 else 0) ≡ table.old.kept }
{
    match value {
        Some(value) => table.put_kept(key, value),
        None => table.forget(&key),
    }
}

/// Drops what was staged, and gives its room back.
fn unstage(table: &mut Table, staged: &mut Changes)
    requires { puts_in (changes_seen staged.old.items) ≤ table.old.kept }
    ensures keys { table.new.keys ≡ table.old.keys }
    ensures staged { staged.new.items ≡ [] }
    ensures kept { table.new.kept + puts_in (changes_seen staged.old.items) ≡ table.old.kept }
{
    table.give_back(count_puts(staged.as_slice()));
    staged.clear();
}

/// How many of the changes are puts.
fn count_puts(changes: &[(Bin, Option<Value>)]) -> usize
    ensures { result ≡ puts_in (changes_seen changes.now) }
{
    let mut puts = 0;
    'changes: for (_, value) in changes {
        if value.is_some() {
            puts += 1;
        }
    }
    puts
}
