//! The loop.

ghost use Rattle.std.specs.Prelude.{◌≡◌, ◌<◌, [], true, length};
ghost use Rattle.df_outside.specs.Doors.{Hall};
ghost use Rattle.std.specs.List.{AllByRecursion};
ghost use Rattle.df_sessions.specs.AllSessions.{EndsFor, IsLate, Promises};
ghost use Rattle.df_sessions.specs.Entries.{IsDone, Since};

use crate::gone::Gone;
use crate::quiet::Quiet;
use crate::table_sessions::{Met, TableSessions};
use df_outside::{Door, Link};
use df_table::Table;
use std::alloc::Global;
use std::sync::Wait;

/// Links that one round takes in at the most.
const WELCOMES: u32 = 64;

/// Whether links are taken in, and why not.
#[derive(Clone, Copy, Debug, PartialEq, Eq)]
pub enum Entry {
    Open,
    /// The door said that nobody comes any more.
    Closed,
    /// The door failed.
    Failed,
}

/// What is left of a run: the sessions in the order of their ends, and why it ended.
#[derive(Drop)]
pub struct Served<L: Link> {
    pub sessions: Vec<Gone<L>>,
    /// Links that were taken in.
    pub count: u64,
    /// A session asked for the end.
    pub asked: bool,
    pub entry: Entry,
}

/// Serves all links that come, until a session asks for the end or no more come, and all sessions have ended. The
/// buffer is where reads put their bytes, whosever they are.
pub fn serve<R: Wait, D: Door>(
    rt: &R,
    alloc: Global,
    door: &mut D,
    table: Table,
    buffer: &mut [u8],
) -> Served<D::Link>
    requires { 0 < length buffer.old }
    ensures since { Since (D.hall door.old) (D.hall door.new) result.count result.entry }
    ensures done { IsDone result.asked result.entry }
    ensures promises { Promises table.keys result.count result.sessions.items }
    ensures ends { EndsFor result.asked result.sessions.items }
    ensures late { AllByRecursion (IsLate result.sessions.items) result.sessions.items }
{
    let mut sessions = TableSessions::new(alloc, table);
    let mut entry = Entry::Open;
    let mut quiet = Quiet::new(alloc);
    'rounds: for _ in rt.forever() {
        let before = sessions.count();
        if takes_in(sessions.is_asked(), entry) {
            entry = welcome(door, &mut sessions);
        }
        let came = sessions.count() != before;
        quiet.begin(sessions.len());
        let busy = sessions.round(buffer, &mut quiet);
        let asked = sessions.is_asked();
        if sessions.len() == 0 && is_done(asked, entry) {
            let count = sessions.count();
            return Served {
                sessions: sessions.finish(),
                count,
                asked,
                entry,
            };
        }
        door.rest(quiet.pause(busy || came));
    }
    unreachable!()
}

/// Whether further links are looked for.
fn takes_in(asked: bool, entry: Entry) -> bool
    ensures { result ≡ true → entry ≡ Entry.Open }
{
    match entry {
        Entry::Open => !asked,
        Entry::Closed => false,
        Entry::Failed => false,
    }
}

/// Whether the run ends with its last session.
fn is_done(asked: bool, entry: Entry) -> bool
    ensures { result ≡ true → IsDone asked entry }
{
    match entry {
        Entry::Open => asked,
        Entry::Closed => true,
        Entry::Failed => true,
    }
}

/// Takes in the links that are there.
fn welcome<D: Door>(door: &mut D, sessions: &mut TableSessions<D::Link>) -> Entry
    ensures start { sessions.new.start ≡ sessions.old.start }
    ensures since { (first : Hall) → Since first (D.hall door.old) sessions.old.count Entry.Open → Since first (D.hall door.new) sessions.new.count result }
{
    'links: for _ in 0..WELCOMES {
        match sessions.admit(door) {
            Met::Entered => {}
            Met::Nobody => return Entry::Open,
            Met::Closed => return Entry::Closed,
            Met::Failed => return Entry::Failed,
        }
    }
    Entry::Open
}
