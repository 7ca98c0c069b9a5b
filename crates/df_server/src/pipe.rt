//! One session over a source and a sink.
//!
//! It is a connection over both together, and its calls run on a table of its own. Such a link never has to wait and
//! takes so many bytes at the most, and each call runs at once: so the session comes to its end.

ghost use Rattle.std.specs.Prelude.{◌≡◌, ◌<◌, length};
ghost use Rattle.df_server.specs.Alone.{PipeHolds, ServedAlone, status_for};
ghost use Rattle.df_server.specs.Promise.{PipePromise};

use df_desk::Desk;
use df_model::{SessionEnd, Turn, Why};
use df_outside::{Link, PairLink, Sink, Source};
use df_sessions::{Gone, Seat};
use df_table::Table;
use std::alloc::Global;

/// Bytes that a session takes at the most (1 TiB), so that it ends whatever the source does.
const INPUT_LIMIT: u64 = 1099511627776;

/// Bytes of the buffer that a read fills.
const READ_SIZE: usize = 16384;

/// Serves a session to its end. Answers the status, and hands the source and the sink back.
pub fn run<S: Source + Send, O: Sink + Send>(alloc: Global, input: S, out: O) -> (u8, S, O)
    ensures { PipePromise (record { status = result.0; input_before = S.inflow input; input = S.inflow result.1; output_before = O.outflow out; output = O.outflow result.2 }) }
{
    let Ok(mut buffer) = vec![in alloc; 0u8; READ_SIZE] else {
        return (4, input, out);
    };
    let seat = Seat::new(alloc, 0, PairLink::new(input, out, INPUT_LIMIT));
    let Gone {
        end,
        first: _,
        answered: _,
    } = serve_alone(alloc, seat, Table::new(alloc), &mut buffer);
    let SessionEnd { id: _, link, why } = end;
    let status = status_of(why, link.is_spent());
    let (input, out) = link.into_parts();
    (status, input, out)
}

/// Gives the session turns until it has ended.
fn serve_alone<L: Link>(
    alloc: Global,
    seat: Seat<L, Desk>,
    table: Table,
    buffer: &mut [u8],
) -> Gone<L>
    requires room { 0 < length buffer.old }
    requires holds { PipeHolds seat.first table.keys seat }
    ensures { ServedAlone seat.first result }
{
    let mut seat = seat;
    let mut table = table;
    'turns: loop {
        match seat.go_on(alloc, &mut table, buffer, false) {
            Turn::Moved => {}
            Turn::NotYet => unreachable!(),
            Turn::Ended(_) => return seat.finish(),
        }
    }
}

/// The status of a session that ended so; `spent` says that it took its limit of input.
fn status_of(why: Why, spent: bool) -> u8
    ensures { result ≡ status_for why spent }
{
    match why {
        Why::InputEnd | Why::Quit | Why::Asked => 0,
        Why::Protocol(_, _) => 1,
        Why::NoMemory => 4,
        // A pipe is neither stopped nor one too many, and its desk draws no number.
        Why::Spent | Why::Stopped | Why::TooMany => 4,
        Why::ReadFault => { if spent { 9 } else { 7 } }
        Why::WriteFault => 8,
    }
}
