ghost use Rattle.std.specs.Prelude.{◌≡◌, ◌<◌, ◌≤◌, ℕ, List, [], Option, length, take, IfOk, IfErr};
ghost use Rattle.std.specs.Io.KnownBytes.{IsAtEnd};
ghost use Rattle.cmm_io.specs.Faults.{raised};
ghost use Rattle.cmm_io.specs.SourceBytes.{HasTaken};

use crate::failed::Failed;

/// What bytes are read from. `rest` is the bytes that are left, where the source tells them. `given` counts the
/// bytes that were read from it.
pub trait Source {
    ghost faults: { Self → ℕ };

    ghost rest: { Self → Option (List ℕ) };

    ghost given: { Self → ℕ };

    /// How many reads failed. The count stands still at its type's end.
    fn faults(&self) -> u64
        ensures { result ≡ faults self.now };

    /// Reads into the front of `buf`, and answers how many bytes. `Ok(0)` into a buffer that isn't empty is the
    /// end of the input. `Failed` has taken nothing.
    fn read(&mut self, buf: &mut [u8]) -> Result<usize, Failed>
        ensures fits { IfOk result (λ n. n ≤ length buf.old) }
        ensures takes { IfOk result (λ n. HasTaken rest given self.old self.new (take n buf.new)) }
        ensures end { IfOk result (λ n. n ≡ 0 → 0 < length buf.old → IsAtEnd (rest self.new)) }
        ensures takes_nothing { IfErr result (λ _. HasTaken rest given self.old self.new []) }
        ensures no_fault { IfOk result (λ _. faults self.new ≡ faults self.old) }
        ensures fault { IfErr result (λ _. faults self.new ≡ raised (faults self.old)) }
        ensures never_falls { faults self.old ≤ faults self.new };
}
