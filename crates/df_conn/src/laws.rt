//! Laws of the definitions, each the contract of a function that does nothing.

ghost use Rattle.df_conn.specs.Turns.{Falls, NeverStalls};

/// Where the link has a limit and tells it, turns that move come to an end.
pub fn falls()
    ensures { Falls }
{}

/// Where the link has a limit and tells it, no turn has to wait behind a call whose outcome is due.
pub fn never_stalls()
    ensures { NeverStalls }
{}
