//! How a command ends that staged something: what was staged is shown, or all of it is taken back.

ghost use Rattle.std.specs.Prelude.{◌≡◌, ℕ, cond, length};
ghost use Rattle.std.specs.Option.{option_map};
ghost use Rattle.df_hops.specs.Parts.{act_of};
ghost use Rattle.df_exchange.specs.Asks.{heard_of};
ghost use Rattle.df_turn.specs.Heard.{act_in, ends_as};
ghost use Rattle.df_turn.specs.Turns.{part_for};

use df_hops::{Outcome, Part};
use std::mem;

/// What shows a change.
#[derive(Clone, Copy)]
pub(crate) enum Show {
    /// Of what was staged.
    Apply,
    /// All keys go.
    Clear,
}

/// Asks each shard that answered to show what it staged, or each to take it back.
pub(crate) fn ask_to_end(
    parts: &mut [Option<Part>],
    outcomes: &[Option<Outcome>],
    wanted: bool,
    show: Show,
)
    requires { length parts.old ≡ length outcomes.now }
    ensures { (s : ℕ) → option_map act_of (part_for s parts.new) ≡ ends_as wanted (act_in show) (heard_of s outcomes.now) }
{
    'shards: for s in 0..outcomes.len() {
        let _old = mem::replace(&mut parts[s], end_part(&outcomes[s], wanted, show));
    }
}

fn end_part(outcome: &Option<Outcome>, wanted: bool, show: Show) -> Option<Part>
    ensures { option_map act_of result ≡ ends_as wanted (act_in show) outcome.now }
{
    if outcome.is_none() {
        return None;
    }
    if wanted {
        return Some(Part::Unstage);
    }
    match show {
        Show::Apply => Some(Part::Apply),
        Show::Clear => Some(Part::Clear),
    }
}

/// The hop by which it ends.
pub(crate) fn end_hop(wanted: bool) -> u32
    ensures { result ≡ cond wanted 3 2 }
{
    if wanted { 3 } else { 2 }
}
