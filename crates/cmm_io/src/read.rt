ghost use Rattle.std.specs.Prelude.{◌≡◌, ◌≢◌, ◌+◌, ◌<◌, ◌≤◌, IfOk, OnOk, Err, vec_len};
ghost use Rattle.std.specs.Io.KnownBytes.{IsAtEnd};
ghost use Rattle.cmm_io.specs.Faults.{raised};
ghost use Rattle.cmm_io.specs.SourceBytes.{IsRest, IsLonger, HasTaken, HasTakenCount, HasTakenAtMost};

use crate::failed::Failed;
use crate::source::Source;
use std::alloc::Global;

/// Why an input wasn't read to its end.
#[derive(Clone, Copy, Debug, PartialEq, Eq)]
pub enum ReadError {
    /// A read failed.
    ReadFault,
    /// There are more bytes than the limit: one more than it was taken.
    TooLong,
    NoMemory,
}

/// The most bytes of one read.
const PIECE: usize = 4096;

/// Reads the input to its end, at most `limit` bytes.
pub fn read_all<S: Source>(alloc: Global, src: &mut S, limit: usize) -> Result<Vec<u8>, ReadError>
    requires { limit < usize.MAX }
    // The whole input was taken.
    ensures whole { IfOk result (λ bytes. IsRest (S.rest src.old) bytes.items) }
    ensures end { OnOk result (IsAtEnd (S.rest src.new)) }
    ensures short { IfOk result (λ bytes. vec_len bytes ≤ limit) }
    ensures taken { IfOk result (λ bytes. HasTaken S.rest S.given src.old src.new bytes.items) }

    // One byte more than the limit was taken.
    ensures too_long { result ≡ Err ReadError.TooLong → IsLonger (S.rest src.old) limit }
    ensures one_more { result ≡ Err ReadError.TooLong → HasTakenCount S.rest S.given src.old src.new (limit + 1) }

    // A read failed, before more bytes than the limit were taken.
    ensures fault { result ≡ Err ReadError.ReadFault → S.faults src.new ≡ raised (S.faults src.old) }
    ensures within { result ≡ Err ReadError.ReadFault → HasTakenAtMost S.rest S.given src.old src.new limit }

    ensures no_memory { result ≡ Err ReadError.NoMemory → HasTakenAtMost S.rest S.given src.old src.new (limit + 1) }
    ensures no_fault { result ≢ Err ReadError.ReadFault → S.faults src.new ≡ S.faults src.old }
    ensures never_falls { S.faults src.old ≤ S.faults src.new }
{
    let mut bytes = Vec::new(alloc);
    let mut piece = [0u8; PIECE];
    while bytes.len() <= limit {
        let most = PIECE.min(limit + 1 - bytes.len());
        match src.read(&mut piece[..most]) {
            Err(Failed) => return Err(ReadError::ReadFault),
            Ok(0) => return Ok(bytes),
            Ok(n) => {
                if bytes.extend_from_slice(&piece[..n]).is_err() {
                    return Err(ReadError::NoMemory);
                }
            }
        }
    }
    Err(ReadError::TooLong)
}
