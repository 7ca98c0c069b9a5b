//! What the answers of a round say, of all shards together.

ghost use Rattle.std.specs.Prelude.{◌≡◌, ◌≤◌, ℕ, length, IfOk, IfSome, OnOk, None};
ghost use Rattle.df_model.specs.Members.{with_all};
ghost use Rattle.df_exchange.specs.Asks.{heard_of};
ghost use Rattle.df_spread.specs.Spread.{values_at};
ghost use Rattle.df_turn.specs.Heard.{all_names, is_want, names_heard, number_heard, seen_values, some_want, sum_heard, values_heard};

use df_colls::SetVal;
use df_hops::{Outcome, Values};
use df_model::{Bins, NoMemory};
use std::alloc::Global;
use std::mem;

/// Whether one of the shards found no memory.
pub(crate) fn some_want(outcomes: &[Option<Outcome>]) -> bool
    ensures { result ≡ some_want (length outcomes.now) outcomes.now }
{
    let mut wanted = false;
    'shards: for outcome in outcomes {
        if is_want(outcome) {
            wanted = true;
        }
    }
    wanted
}

fn is_want(outcome: &Option<Outcome>) -> bool
    ensures { result ≡ is_want outcome.now }
{
    let Some(outcome) = outcome else {
        return false;
    };
    match outcome {
        Outcome::Ran(_) => false,
        Outcome::Values(_) => false,
        Outcome::Staged => false,
        Outcome::Applied => false,
        Outcome::Names(_) => false,
        Outcome::Number(_) => false,
        Outcome::NoMemory => true,
    }
}

/// The sum of the counts, or nothing where it is past what a count can be.
pub(crate) fn sum_of(outcomes: &[Option<Outcome>]) -> Option<u64>
    ensures { IfSome result (λ sum. sum ≡ sum_heard (length outcomes.now) outcomes.now) }
{
    let mut sum = 0u64;
    'shards: for outcome in outcomes {
        sum = sum.checked_add(number_of(outcome))?;
    }
    Some(sum)
}

fn number_of(outcome: &Option<Outcome>) -> u64
    ensures { result ≡ number_heard outcome.now }
{
    let Some(outcome) = outcome else {
        return 0;
    };
    match outcome {
        Outcome::Ran(_) => 0,
        Outcome::Values(_) => 0,
        Outcome::Staged => 0,
        Outcome::Applied => 0,
        Outcome::Names(_) => 0,
        Outcome::Number(n) => *n,
        Outcome::NoMemory => 0,
    }
}

/// The names that all shards told, moved out.
pub(crate) fn all_names(alloc: Global, outcomes: &mut [Option<Outcome>]) -> Result<SetVal, NoMemory>
    ensures { IfOk result (λ names. names.members ≡ all_names (length outcomes.old) outcomes.old) }
{
    let mut names = SetVal::new(alloc);
    'shards: for outcome in outcomes.iter_mut() {
        add_names(&mut names, take_names(alloc, outcome))?;
    }
    Ok(names)
}

fn take_names(alloc: Global, outcome: &mut Option<Outcome>) -> Bins
    ensures { result.items ≡ names_heard outcome.old }
{
    let Some(outcome) = mem::replace(outcome, None) else {
        return Bins::new(alloc);
    };
    match outcome {
        Outcome::Ran(_) => Bins::new(alloc),
        Outcome::Values(_) => Bins::new(alloc),
        Outcome::Staged => Bins::new(alloc),
        Outcome::Applied => Bins::new(alloc),
        Outcome::Names(names) => Box::into_inner(names),
        Outcome::Number(_) => Bins::new(alloc),
        Outcome::NoMemory => Bins::new(alloc),
    }
}

fn add_names(set: &mut SetVal, names: Bins) -> Result<(), NoMemory>
    ensures { OnOk result (set.new.members ≡ with_all names.items set.old.members) }
{
    set.reserve(names.len())?;
    add_each(set, names);
    Ok(())
}

fn add_each(set: &mut SetVal, names: Bins)
    requires { length names.items ≤ set.old.spare }
    ensures { set.new.members ≡ with_all names.items set.old.members }
{
    let names = names.into_vec();
    'names: for name in names {
        let _new = set.add(name);
    }
}

/// What the keys of each shard hold, moved out: nothing of a shard that wasn't asked.
pub(crate) fn all_values(
    alloc: Global,
    outcomes: &mut [Option<Outcome>],
) -> Result<Vec<Values>, NoMemory>
    ensures count { IfOk result (λ values. length values.items ≡ length outcomes.old) }
    ensures values { IfOk result (λ values. (s : ℕ) → values_at values.items s ≡ values_heard (heard_of s outcomes.old)) }
{
    let mut values = Vec::new(alloc);
    'shards: for outcome in outcomes.iter_mut() {
        values.push(take_values(alloc, outcome))?;
    }
    Ok(values)
}

fn take_values(alloc: Global, outcome: &mut Option<Outcome>) -> Values
    ensures { seen_values result.items ≡ values_heard outcome.old }
{
    let Some(outcome) = mem::replace(outcome, None) else {
        return Values::new(alloc);
    };
    match outcome {
        Outcome::Ran(_) => Values::new(alloc),
        Outcome::Values(values) => Box::into_inner(values),
        Outcome::Staged => Values::new(alloc),
        Outcome::Applied => Values::new(alloc),
        Outcome::Names(_) => Values::new(alloc),
        Outcome::Number(_) => Values::new(alloc),
        Outcome::NoMemory => Values::new(alloc),
    }
}

/// Drops what was heard.
pub(crate) fn forget(outcomes: &mut [Option<Outcome>])
    ensures { (s : ℕ) → heard_of s outcomes.new ≡ None }
{
    'shards: for outcome in outcomes.iter_mut() {
        let _old = mem::replace(outcome, None);
    }
}
