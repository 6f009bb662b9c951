ghost use Rattle.std.specs.Prelude.{◌≡◌, [], length, IfOk, IfErr, OnOk, OnErr};
ghost use Rattle.std.specs.Io.KnownBytes.{Keeps};
ghost use Rattle.cmm_io.specs.Faults.{raised};
ghost use Rattle.cmm_output.specs.Output.{target, held_back, gathered, output_faults};

use cmm_io::{Failed, Sink, WriteFault};
use std::alloc::{AllocError, Global};
use std::io::{BufWriter, Write};

/// How many bytes are gathered before they are handed on: 64 KiB.
pub const ROOM: usize = 65_536;

/// Gathers what is written to it, and hands it to a writer 64 KiB at a time. What a call of the writer doesn't take
/// stays held back, so that nothing is lost: what the writer has is always a front of what was written.
#[derive(Drop)]
pub struct Output<W: Write + Drop> {
    writer: BufWriter<W>,
    faults: u64,
}

impl<W: Write + Drop> Output<W> {
    /// Nothing is held back yet.
    pub fn open(alloc: Global, writer: W) -> Result<Output<W>, AllocError>
        ensures target { IfOk result (λ output. target output ≡ writer) }
        ensures held_back { IfOk result (λ output. held_back output ≡ []) }
        ensures faults { IfOk result (λ output. output_faults output ≡ 0) }
    {
        match BufWriter::with_capacity(alloc, ROOM, writer) {
            Ok(writer) => Ok(Output { writer, faults: 0 }),
            Err(_) => Err(AllocError),
        }
    }

    /// The writer that is handed what was gathered.
    pub fn writer(&self) -> &W
        ensures { result.now ≡ target self.now }
    {
        self.writer.get_ref()
    }

    /// How many bytes are held back.
    pub fn held_back(&self) -> usize
        ensures { result ≡ length (held_back self.now) }
    {
        self.writer.buffer().len()
    }

    /// Hands on all that is held back. What was written stays the same: after `Ok` the writer has all of it, and after a
    /// failure a front.
    pub fn flush(&mut self) -> Result<(), WriteFault>
        ensures whole { OnOk result (held_back self.new ≡ []) }
        ensures kept { Keeps (gathered W.contents self.old) (gathered W.contents self.new) }
        ensures no_fault { OnOk result (output_faults self.new ≡ output_faults self.old) }
        ensures fault { OnErr result (output_faults self.new ≡ raised (output_faults self.old)) }
    {
        match self.writer.flush() {
            Ok(()) => Ok(()),
            Err(_) => {
                self.faults = self.faults.saturating_add(1);
                Err(WriteFault)
            }
        }
    }
}

impl<W: Write + Drop> Sink for Output<W> {
    ghost use Rattle.cmm_output.specs.Output.{gathered, output_faults};

    ghost faults = { output_faults };

    ghost written = { gathered W.contents };

    fn faults(&self) -> u64 {
        self.faults
    }

    fn write(&mut self, piece: &[u8]) -> Result<usize, Failed> {
        let answer = self.writer.write(piece);
        match answer {
            Ok(n) if n > 0 || piece.is_empty() => Ok(n),
            _ => {
                self.faults = self.faults.saturating_add(1);
                Err(Failed)
            }
        }
    }
}
