//! Entries of two sets, in one pass over both or over the first, from run to run.

ghost use Rattle.std.specs.Prelude.{◌≡◌, ◌+◌, ◌<◌, ◌≤◌, ◌++◌, [], ◌∷◌, IfOk, OnOk, length};
ghost use Rattle.std.specs.List.{filter};
ghost use Rattle.std.specs.FinMap as map;
ghost use Rattle.df_colls.specs.Kept.{is_kept};
ghost use Rattle.df_colls.specs.Merged.{with_put, IsMerged};

use crate::entries::Entries;
use df_model::{Bin, NoMemory};
use std::alloc::Global;
use std::cmp::Ordering;

/// Adds copies of the items that the other entries have, or of those that they haven't, at the end.
pub(crate) fn keep(
    alloc: Global,
    to: &mut Vec<(Bin, ())>,
    items: &[(Bin, ())],
    other: &Entries<()>,
    inside: bool,
) -> Result<(), NoMemory>
    ensures { OnOk result (to.new.items
        ≡ to.old.items ++ filter (λ e. is_kept inside other.now.contents e.0) items.now) }
{
    'items: for item in items {
        if is_kept(&item.0, other, inside) {
            push_copy(alloc, to, &item.0)?;
        }
    }
    Ok(())
}

/// Whether the others have it, or haven't.
fn is_kept(member: &Bin, other: &Entries<()>, inside: bool) -> bool
    ensures { result ≡ is_kept inside other.now.contents member.now }
{
    let has = other.get(member.as_slice()).is_some();
    if inside { has } else { !has }
}

/// Copies of both sets' members in their order, one where both have it.
pub(crate) fn united(
    alloc: Global,
    left: &Entries<()>,
    right: &Entries<()>,
) -> Result<Vec<(Bin, ())>, NoMemory>
    ensures { IfOk result
        (λ all. all.items ≡ with_put (map.entries right.now.contents) (map.entries left.now.contents)) }
{
    let mut merged = Vec::new(alloc);
    let mut i = 0;
    let mut j = 0;
    'runs: while i < left.len() && j < right.len() {
        let taken = merge(alloc, &mut merged, left.run(i), right.run(j))?;
        i += taken.0;
        j += taken.1;
    }
    left.append_from(alloc, &mut merged, i)?;
    right.append_from(alloc, &mut merged, j)?;
    Ok(merged)
}

/// Merges copies of two runs' items until one run ends, and answers how many of each were taken. One at least is.
fn merge(
    alloc: Global,
    to: &mut Vec<(Bin, ())>,
    ours: &[(Bin, ())],
    theirs: &[(Bin, ())],
) -> Result<(usize, usize), NoMemory>
    requires { (0 < length ours.now) × (0 < length theirs.now) }
    ensures taken { IfOk result (λ n. (n.0 ≤ length ours.now) × (n.1 ≤ length theirs.now) × (0 < n.0 + n.1)) }
    ensures merged { IfOk result (λ n. IsMerged to.old.items to.new.items ours.now theirs.now n.0 n.1) }
{
    let mut i = 0;
    let mut j = 0;
    'pairs: while i < ours.len() && j < theirs.len() {
        let our = &ours[i];
        let their = &theirs[j];
        match our.0.cmp(&their.0) {
            Ordering::Less => {
                push_copy(alloc, to, &our.0)?;
                i += 1;
            }
            Ordering::Equal => {
                push_copy(alloc, to, &our.0)?;
                i += 1;
                j += 1;
            }
            Ordering::Greater => {
                push_copy(alloc, to, &their.0)?;
                j += 1;
            }
        }
    }
    Ok((i, j))
}

/// Adds a copy of the member at the end.
fn push_copy(alloc: Global, to: &mut Vec<(Bin, ())>, member: &Bin) -> Result<(), NoMemory>
    ensures { OnOk result (to.new.items ≡ to.old.items ++ (member.now, tt) ∷ []) }
{
    let member = member.copy(alloc)?;
    to.push((member, ()))?;
    Ok(())
}
