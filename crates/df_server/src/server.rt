//! The server: many connections through a door, one worker, one table.

ghost use Rattle.std.specs.Prelude.{◌≡◌, ◌<◌, [], length, map, string_bytes, true};
ghost use Rattle.df_outside.specs.Doors.{Hall, StaysOpen};
ghost use Rattle.df_print.specs.Writes.{LineStatus};
ghost use Rattle.df_server.specs.Serve.{Opened, ServePromise, door_fault, status_for};

use crate::program::refuse;
use crate::serve_words::read_port;
use df_outside::{Disk, Done, Door, Link, Sink};
use df_print::{Written, write_all};
use df_sessions::{Entry, Gone, Served};
use df_table::Table;
use std::alloc::Global;
use std::sync::Wait;

/// What is printed once the port listens.
const READY: &[u8] = b"ready\n";

/// What is printed where the port can't be had.
const DOOR_FAULT: &[u8] = b"door fault\n";

/// Bytes of the buffer that reads fill, whosever they are (64 KiB).
const READ_SIZE: usize = 65536;

/// What is left of a run of `serve`.
#[derive(Drop)]
pub struct Ended<D: Door, K: Disk, O: Sink> {
    /// 0: a session asked for the end, or no more links come. 2: the words are no `serve`. 4: memory ran out before the
    /// run. 6: the port can't be had, or the door failed. 8: a write of what is printed failed.
    pub status: u8,
    /// Whether the door was bound.
    pub bound: bool,
    /// In the order of their ends.
    pub sessions: Vec<Gone<D::Link>>,
    pub disk: K,
    pub out: O,
    pub door: D,
}

/// How a run came out.
#[derive(Drop)]
struct Run<L: Link> {
    status: u8,
    bound: bool,
    sessions: Vec<Gone<L>>,
}

/// Runs `serve [--port N]`: binds the door, prints `ready`, and serves all links that come until a session says
/// SHUTDOWN, or the door gives no more and the last session has ended. It may wait for ever.
pub fn serve<R: Wait, D: Door, K: Disk, O: Sink>(
    rt: &R,
    alloc: Global,
    words: &[String],
    door: D,
    disk: K,
    out: O,
) -> Ended<D, K, O>
    ensures promise { ServePromise (map string_bytes words.now) (record { status = result.status; bound = result.bound; hall_before = D.hall door; hall = D.hall result.door; output_before = O.outflow out; output = O.outflow result.out; sessions = result.sessions.items }) }
    // No command that is built touches the disk.
    ensures disk { result.disk ≡ disk }
{
    let mut door = door;
    let mut out = out;
    let Run {
        status,
        bound,
        sessions,
    } = run_words(rt, alloc, words, &mut door, &mut out);
    Ended {
        status,
        bound,
        sessions,
        disk,
        out,
        door,
    }
}

fn run_words<R: Wait, D: Door, O: Sink>(
    rt: &R,
    alloc: Global,
    words: &[String],
    door: &mut D,
    out: &mut O,
) -> Run<D::Link>
    ensures { ServePromise (map string_bytes words.now) (record { status = result.status; bound = result.bound; hall_before = D.hall door.old; hall = D.hall door.new; output_before = O.outflow out.old; output = O.outflow out.new; sessions = result.sessions.items }) }
{
    match read_port(words) {
        None => nobody(alloc, refuse(out), false),
        Some(port) => open(rt, alloc, port, door, out),
    }
}

/// No session was there.
fn nobody<L: Link>(alloc: Global, status: u8, bound: bool) -> Run<L>
    ensures status { result.status ≡ status }
    ensures bound { result.bound ≡ bound }
    ensures none { result.sessions.items ≡ [] }
{
    Run {
        status,
        bound,
        sessions: Vec::new(alloc),
    }
}

/// Binds the door. All memory that the run itself needs is taken before that.
fn open<R: Wait, D: Door, O: Sink>(
    rt: &R,
    alloc: Global,
    port: u16,
    door: &mut D,
    out: &mut O,
) -> Run<D::Link>
    ensures { Opened (record { status = result.status; bound = result.bound; hall_before = D.hall door.old; hall = D.hall door.new; output_before = O.outflow out.old; output = O.outflow out.new; sessions = result.sessions.items }) }
{
    let Ok(mut buffer) = vec![in alloc; 0u8; READ_SIZE] else {
        return nobody(alloc, 4, false);
    };
    match door.bind(port) {
        Done::Ok => say_and_serve(rt, alloc, &mut buffer, door, out),
        Done::Failed => nobody(alloc, tell_fault(out), false),
        Done::NoMemory => nobody(alloc, 4, false),
    }
}

/// Says that the port can't be had; answers the status.
fn tell_fault<O: Sink>(out: &mut O) -> u8
    ensures { LineStatus door_fault 6 result (O.outflow out.old) (O.outflow out.new) }
{
    match write_all(DOOR_FAULT, out) {
        Written::Whole | Written::Failed => 6,
        Written::NoMemory => 4,
    }
}

/// Says `ready`, and serves.
fn say_and_serve<R: Wait, D: Door, O: Sink>(
    rt: &R,
    alloc: Global,
    buffer: &mut [u8],
    door: &mut D,
    out: &mut O,
) -> Run<D::Link>
    requires { 0 < length buffer.old }
    ensures { (first : Hall) → StaysOpen first (D.hall door.old) →
        Opened (record { status = result.status; bound = result.bound; hall_before = first; hall = D.hall door.new; output_before = O.outflow out.old; output = O.outflow out.new; sessions = result.sessions.items }) }
{
    match write_all(READY, out) {
        Written::Whole => run_of(df_sessions::serve(rt, alloc, door, Table::new(alloc), buffer)),
        Written::Failed => nobody(alloc, 8, true),
        Written::NoMemory => nobody(alloc, 4, true),
    }
}

/// The run of a door that was bound.
fn run_of<L: Link>(served: Served<L>) -> Run<L>
    ensures bound { result.bound ≡ true }
    ensures sessions { result.sessions.items ≡ served.sessions.items }
    ensures status { result.status ≡ status_for served.entry }
{
    let Served {
        sessions,
        count: _,
        asked: _,
        entry,
    } = served;
    let status = match entry {
        Entry::Open => 0,
        Entry::Closed => 0,
        Entry::Failed => 6,
    };
    Run {
        status,
        bound: true,
        sessions,
    }
}
