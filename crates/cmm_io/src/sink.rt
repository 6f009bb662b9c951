ghost use Rattle.std.specs.Prelude.{◌≡◌, ◌<◌, ◌≤◌, ℕ, List, Option, length, take, IfOk, IfErr};
ghost use Rattle.std.specs.Io.KnownBytes.{Appends, Keeps};
ghost use Rattle.cmm_io.specs.Faults.{raised};

use crate::failed::Failed;

/// What bytes are written to. `written` is the bytes that were written, where the sink tells them.
pub trait Sink {
    ghost faults: { Self → ℕ };

    ghost written: { Self → Option (List ℕ) };

    /// How many writes failed. The count stands still at its type's end.
    fn faults(&self) -> u64
        ensures { result ≡ faults self.now };

    /// Writes a front of `piece`, and answers how many bytes. `Failed` has written nothing.
    fn write(&mut self, piece: &[u8]) -> Result<usize, Failed>
        ensures fits { IfOk result (λ n. n ≤ length piece.now) }
        ensures goes_on { IfOk result (λ n. 0 < length piece.now → 1 ≤ n) }
        ensures wrote { IfOk result (λ n. Appends (written self.old) (written self.new) (take n piece.now)) }
        ensures wrote_nothing { IfErr result (λ _. Keeps (written self.old) (written self.new)) }
        ensures no_fault { IfOk result (λ _. faults self.new ≡ faults self.old) }
        ensures fault { IfErr result (λ _. faults self.new ≡ raised (faults self.old)) }
        ensures never_falls { faults self.old ≤ faults self.new };
}
