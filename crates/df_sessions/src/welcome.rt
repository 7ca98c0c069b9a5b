//! How a link is met.

ghost use Rattle.std.specs.Prelude.{◌≡◌, ◌+◌, ◌<◌, ◌≤◌, ◌^◌, IfSome, length};
ghost use Rattle.df_sessions.specs.Sessions.{Sits};
ghost use Rattle.df_sessions.specs.AllSessions.{count_served};
ghost use Rattle.df_sessions.specs.Welcomes.{IsWelcome, IsDue, turns_away};

use crate::seat::Seat;
use df_conn::turned_away_line;
use df_desk::Desk;
use df_outside::Link;
use std::alloc::Global;

/// Sessions that are served together, at the most. One more is turned away.
const MAX_OPEN: usize = 4096;

/// Sessions that are turned away together, at the most: a link may take its time until it takes the line. Further links
/// wait at the door.
const MAX_TURNED_AWAY: usize = 64;

/// How the next link is met.
pub(crate) enum Welcome {
    /// It is served.
    In,
    /// It is turned away, with this line.
    Away(Vec<u8>),
}

impl Drop for Welcome {
    fn drop(self) {
        match self {
            Welcome::In | Welcome::Away(_) => {}
        }
    }
}

impl Welcome {
    /// How the next link is met, where these are open and so many came so far. `None`: there is no place for it, or no
    /// memory.
    pub(crate) fn of_next<L: Link>(
        alloc: Global,
        seats: &[Seat<L, Desk>],
        count: u64,
    ) -> Option<Welcome>
        ensures is { IfSome result (λ welcome. IsWelcome welcome count) }
        ensures due { IfSome result (λ welcome. IsDue welcome (count_served seats.now)) }
        ensures room { IfSome result (λ welcome. count + 1 < 2 ^ 64) }
    {
        if count == u64::MAX {
            return None;
        }
        if seats.len() < MAX_OPEN {
            return Some(Welcome::In);
        }
        let served = count_served(seats);
        if served < MAX_OPEN {
            return Some(Welcome::In);
        }
        // Each session that is served has a place of its own below the count.
        if count < MAX_OPEN as u64 || seats.len() - served >= MAX_TURNED_AWAY {
            return None;
        }
        match turned_away_line(alloc) {
            Ok(line) => Some(Welcome::Away(line)),
            Err(_) => None,
        }
    }

    /// The session of the link that came.
    pub(crate) fn seat<L: Link>(self, alloc: Global, id: u64, link: L) -> Seat<L, Desk>
        requires { IsWelcome self id }
        ensures { Sits result id (L.flow link) (turns_away self) }
    {
        match self {
            Welcome::In => Seat::new(alloc, id, link),
            Welcome::Away(line) => Seat::turned_away(alloc, id, link, line),
        }
    }
}

/// How many of the sessions are served.
fn count_served<L: Link>(seats: &[Seat<L, Desk>]) -> usize
    ensures is { result ≡ count_served seats.now }
    ensures within { result ≤ length seats.now }
{
    let mut served = 0;
    'seats: for seat in seats {
        if !seat.is_away() {
            served += 1;
        }
    }
    served
}
