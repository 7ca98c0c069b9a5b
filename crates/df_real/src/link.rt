//! A TCP connection as a link.

ghost use Rattle.std.specs.Prelude.{◌≡◌, ◌<◌, ◌≤◌, None, false, length};
ghost use Rattle.df_outside.specs.Links.{Flow, LinkReads, LinkWrites};
ghost use Rattle.df_real.specs.Answers.{GotBound, PutBound};

use crate::again::{read_again, write_again};
use crate::word::{READ, READ_CLOSED, WRITE, WRITE_CLOSED, Word};
use df_outside::{Got, Link, Put};
use mio::net::TcpStream;
use std::io::ErrorKind;
use std::sync::Arc;

/// A link over a socket, which asks the system only where its door saw that something changed.
///
/// A connection that its peer reset is Failed. After `close` no descriptor is left, and each call is Failed.
#[derive(Drop)]
pub struct MioLink {
    /// None once it is closed.
    socket: Option<Socket>,
    /// The peer sends no more, and all was read.
    ended: bool,
    /// These three stay at their last value.
    read_faults: u64,
    write_faults: u64,
    waits: u64,
}

/// A socket with its share of the flag word, by which its place counts as taken.
#[derive(Drop)]
struct Socket {
    stream: TcpStream,
    word: Arc<Word>,
}

impl MioLink {
    /// The stream doesn't block, and its events raise bits in the word.
    pub(crate) fn new(stream: TcpStream, word: Arc<Word>) -> MioLink
        ensures { ⟦<MioLink as Link>⟧.flow result ≡ record { taken = None; written = None; ended = false; read_faults = 0; write_faults = 0; waits = 0; left = None } }
    {
        MioLink {
            socket: Some(Socket { stream, word }),
            ended: false,
            read_faults: 0,
            write_faults: 0,
            waits: 0,
        }
    }
}

impl Link for MioLink {
    ghost flow = { λ l. record { taken = None; written = None; ended = l.ended; read_faults = l.read_faults; write_faults = l.write_faults; waits = l.waits; left = None } };

    fn read(&mut self, buf: &mut [u8]) -> Got {
        if self.ended {
            return Got::End;
        }
        let got = match &mut self.socket {
            Some(socket) => socket.read(buf),
            None => Got::Failed,
        };
        match got {
            Got::End => self.ended = true,
            Got::NotYet => self.waits = self.waits.saturating_add(1),
            Got::Failed => self.read_faults = self.read_faults.saturating_add(1),
            Got::Took(_) | Got::NoMemory => {}
        }
        got
    }

    fn write(&mut self, piece: &[u8]) -> Put {
        let put = match &mut self.socket {
            Some(socket) => socket.write(piece),
            None => Put::Failed,
        };
        match put {
            Put::NotYet => self.waits = self.waits.saturating_add(1),
            Put::Failed => self.write_faults = self.write_faults.saturating_add(1),
            Put::Took(_) | Put::NoMemory => {}
        }
        put
    }

    fn close(&mut self) {
        self.socket = None;
    }
}

impl Socket {
    /// A short read emptied the socket, so that the next bytes raise the bit again.
    fn read(&mut self, buf: &mut [u8]) -> Got
        ensures { GotBound result (length buf.new) }
    {
        if !self.word.has_some(READ | READ_CLOSED) {
            return Got::NotYet;
        }
        // Before the read: what comes after it raises the bit anew.
        self.word.lower(READ);
        match read_again(&mut self.stream, buf) {
            Ok(0) => Got::End,
            Ok(count) => {
                if count == buf.len() {
                    self.word.raise(READ);
                }
                Got::Took(count)
            }
            Err(fault) if fault.kind() == ErrorKind::WouldBlock => Got::NotYet,
            Err(_) => {
                self.word.raise(READ_CLOSED);
                Got::Failed
            }
        }
    }

    fn write(&mut self, piece: &[u8]) -> Put
        ensures { PutBound result (length piece.now) }
    {
        if !self.word.has_some(WRITE | WRITE_CLOSED) {
            return Put::NotYet;
        }
        match self.write_once(piece) {
            Put::NotYet => {
                // Room that came before the bit fell is found by the second try, and later room raises it.
                self.word.lower(WRITE);
                self.write_once(piece)
            }
            put => put,
        }
    }

    fn write_once(&mut self, piece: &[u8]) -> Put
        ensures { PutBound result (length piece.now) }
    {
        match write_again(&mut self.stream, piece) {
            Ok(count) if count > 0 => Put::Took(count),
            Err(fault) if fault.kind() == ErrorKind::WouldBlock => Put::NotYet,
            // A socket that takes 0 bytes of a piece would be asked for ever.
            _ => Put::Failed,
        }
    }
}
