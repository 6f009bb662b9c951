ghost use Rattle.std.specs.Prelude.{◌≡◌};
ghost use Rattle.cmm_io.specs.StdEnds.{reader_of, source_given, source_faults, writer_of, sink_faults};

use crate::failed::Failed;
use crate::sink::Sink;
use crate::source::Source;
use std::io::{Read, Write};

/// Reads from std's reader, and tells what that tells: of standard input nothing.
#[derive(Drop)]
pub struct StdSource<R> {
    reader: R,
    given: u64,
    faults: u64,
}

impl<R: Read> StdSource<R> {
    /// Nothing is read yet.
    pub fn new(reader: R) -> StdSource<R>
        ensures reader { reader_of result ≡ reader }
        ensures given { source_given result ≡ 0 }
        ensures faults { source_faults result ≡ 0 }
    {
        StdSource {
            reader,
            given: 0,
            faults: 0,
        }
    }
}

impl<R: Read> Source for StdSource<R> {
    ghost use Rattle.cmm_io.specs.StdEnds.{reader_of, source_given, source_faults};

    ghost faults = { source_faults };

    ghost rest = { λ s. R.remaining (reader_of s) };

    ghost given = { source_given };

    fn faults(&self) -> u64 {
        self.faults
    }

    fn read(&mut self, buf: &mut [u8]) -> Result<usize, Failed> {
        match self.reader.read(buf) {
            Ok(n) => {
                self.given = self.given.saturating_add(n as u64);
                Ok(n)
            }
            Err(_) => {
                self.faults = self.faults.saturating_add(1);
                Err(Failed)
            }
        }
    }
}

/// Writes to std's writer, and tells what that tells: of standard output nothing. A writer that takes nothing of a
/// piece that isn't empty has failed.
#[derive(Drop)]
pub struct StdSink<W> {
    writer: W,
    faults: u64,
}

impl<W: Write> StdSink<W> {
    /// Nothing has failed yet.
    pub fn new(writer: W) -> StdSink<W>
        ensures writer { writer_of result ≡ writer }
        ensures faults { sink_faults result ≡ 0 }
    {
        StdSink { writer, faults: 0 }
    }
}

impl<W: Write> Sink for StdSink<W> {
    ghost use Rattle.cmm_io.specs.StdEnds.{writer_of, sink_faults};

    ghost faults = { sink_faults };

    ghost written = { λ s. W.contents (writer_of s) };

    fn faults(&self) -> u64 {
        self.faults
    }

    fn write(&mut self, piece: &[u8]) -> Result<usize, Failed> {
        let answer = self.writer.write(piece);
        match answer {
            Ok(n) if n > 0 || piece.is_empty() => Ok(n),
            _ => {
                self.faults = self.faults.saturating_add(1);
                Err(Failed)
            }
        }
    }
}
