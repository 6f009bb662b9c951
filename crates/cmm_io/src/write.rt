ghost use Rattle.cmm_io.specs.SinkBytes.{Writes};

use crate::failed::Failed;
use crate::sink::Sink;

/// A write failed. What was written is a prefix of what was to be written.
#[derive(Clone, Copy, Debug, PartialEq, Eq)]
pub struct WriteFault;

/// Writes the whole piece.
pub fn write_all<K: Sink>(out: &mut K, piece: &[u8]) -> Result<(), WriteFault>
    ensures { Writes K.faults K.written out.old out.new piece.now result }
{
    let mut done = 0;
    while done < piece.len() {
        match out.write(&piece[done..]) {
            Err(Failed) => return Err(WriteFault),
            Ok(n) => done += n,
        }
    }
    Ok(())
}
