//! `cmm2`: plays guests that hint what they need of their pages, on a host with less memory than they were given.
#![tactic(auto)]

ghost use Rattle.std.specs.Prelude.{◌≡◌, ◌≢◌, [], true, false};
ghost use Rattle.cmm_io.specs.Faults.{raised};
ghost use Rattle.cmm_output.specs.Output.{held_back, output_faults};
ghost use Rattle.cmm2_cli.specs.Status.{has_written};

use cmm_io::{Sink, Source, StdSource, WriteFault};
use cmm_output::Output;
use cmm2_cli::{Status, cmm2};
use host_shared::PassGate;
use std::alloc::{AllocError, Global};
use std::env;
use std::io::{ErrorKind, Read, Write};
use std::process::ExitCode;
use std::sync::Wait;
use std::thread::Threads;

/// The words of the command line behind the program's name. A word that isn't text makes no command line.
fn words_of(rt: &HostRuntime) -> Result<Vec<String>, AllocError> {
    match env::args(rt) {
        Ok(mut args) => {
            let _ = args.next();
            args.collect(rt.alloc())
        }
        Err(error) if error.kind() == ErrorKind::OutOfMemory => Err(AllocError),
        Err(_) => Ok(Vec::new(rt.alloc())),
    }
}

/// Hands on what is still held back of a text that was written whole. Where that fails, it is a failed write.
fn finish<W: Write + Drop>(output: &mut Output<W>, status: Status) -> Status
    ensures unwritten { has_written status ≡ false → (result ≡ status) × (output.new ≡ output.old) }
    ensures written { has_written status ≡ true → result ≢ Status.WriteFault →
        (result ≡ status) × (held_back output.new ≡ []) × (output_faults output.new ≡ output_faults output.old) }
    ensures failed { has_written status ≡ true → result ≡ Status.WriteFault → output_faults output.new ≡ raised (output_faults output.old) }
{
    if !status.has_written() {
        return status;
    }
    match output.flush() {
        Ok(()) => status,
        Err(WriteFault) => Status::WriteFault,
    }
}

/// Does what the words ask for, from an input to an output, which is written 64 KiB at a time. The status
/// tells of a failed read exactly where one was counted, and of a failed write likewise; where none failed, nothing is
/// held back.
fn serve<T: Threads + Wait + Sync, R: Read + Drop, W: Write + Drop>(
    rt: &T,
    alloc: Global,
    words: &[String],
    input: R,
    output: W,
) -> Status {
    let Ok(mut output) = Output::open(alloc, output) else {
        return Status::NoMemory;
    };
    let mut source = StdSource::new(input);
    let status = cmm2(rt, alloc, words, &mut source, &mut output, &PassGate);
    let status = finish(&mut output, status);
    let reads_failed = source.faults();
    let writes_failed = output.faults();
    let held_back = output.held_back();
    prove!((reads_failed == 1) == (status == Status::ReadFault));
    prove!((writes_failed == 1) == (status == Status::WriteFault));
    prove!(status == Status::WriteFault || held_back == 0);
    status
}

fn main(rt: HostRuntime) -> ExitCode {
    let status = match words_of(&rt) {
        Ok(words) => serve(&rt, rt.alloc(), words.as_slice(), rt.stdin(), rt.stdout()),
        Err(_) => Status::NoMemory,
    };
    ExitCode::from(status.code())
}
