//! Sets combined.

ghost use Rattle.std.specs.Prelude.{◌≡◌, ◌<◌, length, IfOk};
ghost use Rattle.df_sets.specs.Combined.{combined, stepped, folded, lent_members};

use crate::combination::Combine;
use df_colls::SetVal;
use df_model::NoMemory;
use std::alloc::Global;

/// The sets combined, in memory of its own.
pub fn combine(alloc: Global, op: Combine, sets: &[&SetVal]) -> Result<SetVal, NoMemory>
    requires { 0 < length sets.now }
    ensures { IfOk result (λ made. made.members ≡ combined op (lent_members sets.now)) }
{
    let so_far = first(alloc, sets[0])?;
    next_each(alloc, op, so_far, &sets[1..])
}

fn next_each(
    alloc: Global,
    op: Combine,
    so_far: SetVal,
    sets: &[&SetVal],
) -> Result<SetVal, NoMemory>
    ensures { IfOk result (λ made. made.members ≡ folded op so_far.members (lent_members sets.now)) }
{
    let mut so_far = so_far;
    'sets: for set in sets {
        so_far = next(alloc, op, so_far, set)?;
    }
    Ok(so_far)
}

/// The first of several sets, copied: what `next` goes on from.
pub fn first(alloc: Global, set: &SetVal) -> Result<SetVal, NoMemory>
    ensures { IfOk result (λ so_far. so_far.members ≡ set.now.members) }
{
    set.copy(alloc)
}

/// What is combined so far, and one more set.
pub fn next(alloc: Global, op: Combine, so_far: SetVal, set: &SetVal) -> Result<SetVal, NoMemory>
    ensures { IfOk result (λ made. made.members ≡ stepped op so_far.members set.now.members) }
{
    match op {
        Combine::Inter => so_far.inter(alloc, set),
        Combine::Union => so_far.union(alloc, set),
        Combine::Diff => so_far.diff(alloc, set),
    }
}
