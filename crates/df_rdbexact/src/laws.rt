//! Laws of where reading a file stops, each the contract of a function that does nothing.

ghost use Rattle.df_rdbexact.specs.Laws.{LargerMayStop, StopsAtWideSum, StopsNowhere, StopsOnce};

/// Reading a file of bytes that spells a keyspace stops nowhere. Of larger numbers it may stop at a sum that
/// needs more than 64 bits, and nowhere else.
pub fn files_stop_nowhere()
    ensures nowhere { StopsNowhere }
    ensures wide { StopsAtWideSum }
    ensures larger { LargerMayStop }
{}

/// Reading stops with one fault at one place, or not at all.
pub fn reading_stops_with_one_fault()
    ensures { StopsOnce }
{}
