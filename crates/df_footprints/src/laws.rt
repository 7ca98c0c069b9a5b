//! Laws of the definitions, each the contract of a function that does nothing.

ghost use Rattle.df_footprints.specs.Laws.{ConflictsBothWays, LeftAlone};

/// Who conflicts with whom does not hang on which of the two asked first.
pub fn conflicts_both_ways()
    ensures { ConflictsBothWays }
{}

/// Calls that do not conflict on a shard may run there in either order: no key that the one may write is looked at
/// by the other.
pub fn what_does_not_conflict_is_left_alone()
    ensures { LeftAlone }
{}
