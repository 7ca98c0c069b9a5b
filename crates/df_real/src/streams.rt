//! Standard input as a source and standard output as a sink.
//!
//! A real stream tells nothing of its bytes, so no clause speaks of them. What is proved is the form
//! of each answer: a fault is counted before it is answered, and End is answered from then on.

ghost use Rattle.std.specs.Prelude.{◌≡◌, ◌≤◌, None, false, IfOk};
ghost use Rattle.df_outside.specs.Streams.{Inflow, Outflow};

use crate::again::{read_again, write_again};
use df_outside::{Got, Put, Sink, Source};
use std::io::{Read, Write};

/// A source over a reader, which it asks no more once that gave 0 bytes.
#[derive(Drop)]
pub struct StdSource<R> {
    reader: R,
    /// The reader gave 0 bytes.
    ended: bool,
    /// Reads that failed; it stays at its last value.
    faults: u64,
}

impl<R: Read + Drop> StdSource<R> {
    /// Reads nothing yet.
    pub fn new(reader: R) -> StdSource<R>
        ensures { ⟦<StdSource<R> as Source>⟧.inflow result ≡ record { taken = None; ended = false; faults = 0 } }
    {
        StdSource {
            reader,
            ended: false,
            faults: 0,
        }
    }
}

impl<R: Read + Drop> Source for StdSource<R> {
    ghost inflow = { λ s. record { taken = None; ended = s.ended; faults = s.faults } };

    fn read(&mut self, buf: &mut [u8]) -> Got {
        if self.ended {
            return Got::End;
        }
        match read_again(&mut self.reader, buf) {
            Ok(0) => {
                self.ended = true;
                Got::End
            }
            Ok(count) => Got::Took(count),
            Err(_) => {
                self.faults = self.faults.saturating_add(1);
                Got::Failed
            }
        }
    }
}

/// A sink over a writer. It keeps no bytes back: each write is one call of the writer.
#[derive(Drop)]
pub struct StdSink<W> {
    writer: W,
    /// Writes that failed; it stays at its last value.
    faults: u64,
}

impl<W: Write + Drop> StdSink<W> {
    /// Writes nothing yet.
    pub fn new(writer: W) -> StdSink<W>
        ensures { ⟦<StdSink<W> as Sink>⟧.outflow result ≡ record { written = None; faults = 0 } }
    {
        StdSink { writer, faults: 0 }
    }
}

impl<W: Write + Drop> Sink for StdSink<W> {
    ghost outflow = { λ s. record { written = None; faults = s.faults } };

    fn write(&mut self, piece: &[u8]) -> Put {
        match write_again(&mut self.writer, piece) {
            Ok(count) if count > 0 => Put::Took(count),
            // A writer that takes 0 bytes of a piece would be asked for ever.
            _ => {
                self.faults = self.faults.saturating_add(1);
                Put::Failed
            }
        }
    }
}

#[cfg(test)]
mod tests {
    use super::*;
    use std::io;
    use std::io::ErrorKind;

    /// Answers each call by the next of its list, a count of bytes or an error, and at its end by 0 bytes.
    #[derive(Drop)]
    struct Listed<'a>(&'a [Result<usize, ErrorKind>]);

    impl Listed<'_> {
        fn answer(&mut self, most: usize) -> io::Result<usize>
            ensures { IfOk result (λ count. count ≤ most) }
        {
            let Some((first, later)) = self.0.split_first() else {
                return Ok(0);
            };
            self.0 = later;
            match *first {
                Ok(count) => Ok(count.min(most)),
                Err(kind) => Err(io::Error::from(kind)),
            }
        }
    }

    impl Read for Listed<'_> {
        fn read(&mut self, buf: &mut [u8]) -> io::Result<usize> {
            self.answer(buf.len())
        }
    }

    impl Write for Listed<'_> {
        fn write(&mut self, piece: &[u8]) -> io::Result<usize> {
            self.answer(piece.len())
        }

        fn flush(&mut self) -> io::Result<()> {
            Ok(())
        }
    }

    const ANSWERS: [Result<usize, ErrorKind>; 6] = [
        Err(ErrorKind::Interrupted),
        Ok(3),
        Err(ErrorKind::BrokenPipe),
        Ok(9),
        Ok(0),
        Ok(1),
    ];

    #[test]
    fn source_reads_past_a_fault_and_stays_at_its_end(rt: HostRuntime) {
        let mut source = StdSource::new(Listed(ANSWERS.as_slice()));
        let mut buf = [0; 4];
        for want in [Got::Took(3), Got::Failed, Got::Took(4), Got::End, Got::End] {
            assert_eq!(rt; source.read(&mut buf), want);
        }
        assert_eq!(rt; source.faults, 1);
    }

    #[test]
    fn sink_counts_a_write_of_no_bytes_as_a_fault(rt: HostRuntime) {
        let mut sink = StdSink::new(Listed(ANSWERS.as_slice()));
        for want in [
            Put::Took(3),
            Put::Failed,
            Put::Took(4),
            Put::Failed,
            Put::Took(1),
        ] {
            assert_eq!(rt; sink.write(b"four".as_slice()), want);
        }
        assert_eq!(rt; sink.faults, 2);
    }
}
