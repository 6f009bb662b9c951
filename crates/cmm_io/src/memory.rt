ghost use Rattle.std.specs.Prelude.{◌≡◌, ◌≤◌, ◌<◌, ◌++◌, ◌↔◌, [], length, take, drop, IfOk, IfErr, IsErr, IsTrue};
ghost use Rattle.cmm_io.specs.FailurePlan.{failure_plan_of, fails_next, after_next, after_call};
ghost use Rattle.cmm_io.specs.SourceBytes.{HasTaken};
ghost use Rattle.cmm_io.specs.MemoryStates.{told_rest, bytes_given, read_length, write_fails};

use crate::failed::Failed;
use crate::failures::PlannedFailures;
use crate::sink::Sink;
use crate::source::Source;
use std::alloc::{AllocError, Global};
use std::marker::Model;

/// Bytes in memory, given in pieces. A read fails exactly where its number is planned.
#[derive(Drop)]
pub struct MemSource {
    bytes: Vec<u8>,
    taken: usize,
    piece: usize,
    failures: PlannedFailures,
}

impl Model for MemSource {
    ghost use Rattle.std.specs.Prelude.{◌≤◌, drop, length};
    ghost use Rattle.cmm_io.specs.MemoryStates.{SourceState};

    ghost Value = { SourceState };

    ghost view = { λ s. record { rest = drop s.taken s.bytes.items; given = s.taken; piece = s.piece; failures = s.failures } };

    ghost invariant = { λ s. (s.taken ≤ length s.bytes.items) × (1 ≤ s.piece) };
}

impl MemSource {
    /// Gives these bytes, at most `piece` of them a read; the reads with the numbers in `fails` fail.
    pub fn new(bytes: Vec<u8>, piece: usize, fails: Vec<u32>) -> MemSource
        requires { 1 ≤ piece }
        ensures rest { result.rest ≡ bytes.items }
        ensures given { result.given ≡ 0 }
        ensures piece { result.piece ≡ piece }
        ensures planned { result.failures ≡ failure_plan_of fails.items }
    {
        MemSource {
            bytes,
            taken: 0,
            piece,
            failures: PlannedFailures::new(fails),
        }
    }
}

impl Source for MemSource {
    ghost use Rattle.cmm_io.specs.MemoryStates.{told_rest, bytes_given};

    ghost faults = { λ s. s.failures.faults };

    ghost rest = { told_rest };

    ghost given = { bytes_given };

    fn faults(&self) -> u64 {
        self.failures.faults()
    }

    fn read(&mut self, buf: &mut [u8]) -> Result<usize, Failed>
        ensures piece { IfOk result (λ n. n ≡ read_length self.old (length buf.old)) }
        ensures takes { IfOk result (λ n. HasTaken told_rest bytes_given self.old self.new (take n buf.new)) }
        ensures end { IfOk result (λ n. n ≡ 0 → 0 < length buf.old → self.new.rest ≡ []) }
        ensures same_rest { IfErr result (λ _. self.new.rest ≡ self.old.rest) }
        ensures same_given { IfErr result (λ _. self.new.given ≡ self.old.given) }
        ensures same_piece { self.new.piece ≡ self.old.piece }
        ensures planned { IsErr result ↔ IsTrue (fails_next self.old.failures) }
        ensures counts { self.new.failures ≡ after_next self.old.failures }
        ensures never_falls { self.old.failures.faults ≤ self.new.failures.faults }
    {
        if self.failures.next() {
            return Err(Failed);
        }
        let rest = &self.bytes[self.taken..];
        let n = buf.len().min(self.piece.min(rest.len()));
        buf[..n].copy_from_slice(&rest[..n]);
        self.taken += n;
        Ok(n)
    }
}

/// Keeps what is written in memory. A write takes its piece whole. It fails exactly where its number is planned,
/// and where its piece doesn't fit the room left.
#[derive(Drop)]
pub struct MemSink {
    bytes: Vec<u8>,
    room: usize,
    failures: PlannedFailures,
}

impl Model for MemSink {
    ghost use Rattle.std.specs.Prelude.{◌≤◌, length, vec_capacity};
    ghost use Rattle.cmm_io.specs.MemoryStates.{SinkState};

    ghost Value = { SinkState };

    ghost view = { λ s. record { written = s.bytes.items; room = s.room; failures = s.failures } };

    ghost invariant = { λ s. (length s.bytes.items ≤ s.room) × (s.room ≤ vec_capacity s.bytes) };
}

impl MemSink {
    /// Has room for so many bytes in all; the writes with the numbers in `fails` fail.
    pub fn open(alloc: Global, room: usize, fails: Vec<u32>) -> Result<MemSink, AllocError>
        ensures written { IfOk result (λ sink. sink.written ≡ []) }
        ensures room { IfOk result (λ sink. sink.room ≡ room) }
        ensures planned { IfOk result (λ sink. sink.failures ≡ failure_plan_of fails.items) }
    {
        let bytes = Vec::with_capacity(alloc, room)?;
        Ok(MemSink {
            bytes,
            room,
            failures: PlannedFailures::new(fails),
        })
    }

    /// The bytes written so far.
    pub fn bytes(&self) -> &[u8]
        ensures { result.now ≡ self.now.written }
    {
        self.bytes.as_slice()
    }
}

impl Sink for MemSink {
    ghost use Rattle.std.specs.Prelude.{Some};

    ghost faults = { λ s. s.failures.faults };

    ghost written = { λ s. Some s.written };

    fn faults(&self) -> u64 {
        self.failures.faults()
    }

    fn write(&mut self, piece: &[u8]) -> Result<usize, Failed>
        ensures whole { IfOk result (λ n. n ≡ length piece.now) }
        ensures wrote { IfOk result (λ _. self.new.written ≡ self.old.written ++ piece.now) }
        ensures wrote_nothing { IfErr result (λ _. self.new.written ≡ self.old.written) }
        ensures refuses { IsErr result ↔ IsTrue (write_fails self.old piece.now) }
        ensures counts { self.new.failures ≡ after_call self.old.failures (write_fails self.old piece.now) }
        ensures room { self.new.room ≡ self.old.room }
        ensures never_falls { self.old.failures.faults ≤ self.new.failures.faults }
    {
        let fits = piece.len() <= self.room - self.bytes.len();
        if self.failures.fails_next() || !fits {
            self.failures.count(true);
            return Err(Failed);
        }
        match self.bytes.extend_from_slice(piece) {
            Ok(()) => {
                self.failures.count(false);
                Ok(piece.len())
            }
            Err(_) => {
                self.failures.count(true);
                Err(Failed)
            }
        }
    }
}
