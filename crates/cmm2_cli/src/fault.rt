// The line on a scenario's first fault, put together from its parts. It takes no memory.
ghost use Rattle.std.specs.Prelude.{◌++◌, codes};
ghost use Rattle.cmm_io.specs.SinkBytes.{Writes};

use cmm_io::{Sink, WriteFault, write_all};

fn write_path<K: Sink>(out: &mut K, path: &[u8]) -> Result<(), WriteFault>
    ensures { Writes K.faults K.written out.old out.new (codes "refused " ++ path.now) result }
{
    write_all(out, b"refused ")?;
    write_all(out, path)
}

/// Writes the line that names the fault.
pub fn write_fault<K: Sink>(out: &mut K, path: &[u8], end: &[u8]) -> Result<(), WriteFault>
    ensures { Writes K.faults K.written out.old out.new (codes "refused " ++ path.now ++ end.now) result }
{
    write_path(out, path)?;
    write_all(out, end)
}
