ghost use Rattle.std.specs.Prelude.{◌≡◌, map, string_bytes, IfSome};
ghost use Rattle.cmm_line.specs.Line.{HasSize, line_of, run_line, other_line};
ghost use Rattle.cmm2_cli.specs.Calls.{IsCall};

use crate::demo::write_demo;
use crate::generated::write_generated;
use crate::input::{Input, read_input};
use crate::refusal::Refusal;
use crate::replay::refuse;
use crate::run::read_run;
use crate::status::Status;
use cmm_io::{Sink, Source};
use cmm_line::{Line, begins_run, line_of};
use host_shared::Gate;
use std::alloc::{AllocError, Global};
use std::sync::Wait;
use std::thread::Threads;

/// Does what a line asks for that is another one than `run`.
fn serve<S: Source, K: Sink>(alloc: Global, line: Option<Line>, src: &mut S, out: &mut K) -> Status
    requires { IfSome line HasSize }
    ensures { IsCall S.faults S.rest S.given src.old src.new K.faults K.written out.old out.new (other_line line) result }
{
    match line {
        Some(Line::Replay) => read_input(alloc, Input::Scenario, src, out),
        Some(Line::Check) => read_input(alloc, Input::Report, src, out),
        Some(Line::Gen { start, size }) => write_generated(alloc, start, size, out),
        Some(Line::Demo { start, size }) => write_demo(alloc, start, size, out),
        Some(Line::Run) | None => refuse(out, Refusal::Words),
    }
}

/// Does what a line asks for that is `run`.
fn serve_run<R: Threads + Wait + Sync, S: Source, K: Sink, G: Gate + Sync>(
    rt: &R,
    alloc: Global,
    line: Option<Line>,
    src: &mut S,
    out: &mut K,
    gate: &G,
) -> Status
    ensures { IsCall S.faults S.rest S.given src.old src.new K.faults K.written out.old out.new (run_line line) result }
{
    match line {
        Some(Line::Run) => read_run(rt, alloc, src, out, gate),
        _ => refuse(out, Refusal::Words),
    }
}

/// Does what the words ask for where they are another line than `run`, and tells in the status how that ended.
pub fn cmm2_replay<S: Source, K: Sink>(
    alloc: Global,
    words: &[String],
    src: &mut S,
    out: &mut K,
) -> Status
    ensures { IsCall S.faults S.rest S.given src.old src.new K.faults K.written out.old out.new (other_line (line_of (map string_bytes words.now))) result }
{
    match line_of(alloc, words) {
        Ok(line) => serve(alloc, line, src, out),
        Err(AllocError) => Status::NoMemory,
    }
}

/// Does what the words ask for where they are the line `run`, and tells in the status how that ended. It waits for the
/// threads that it makes.
pub fn cmm2_run<R: Threads + Wait + Sync, S: Source, K: Sink, G: Gate + Sync>(
    rt: &R,
    alloc: Global,
    words: &[String],
    src: &mut S,
    out: &mut K,
    gate: &G,
) -> Status
    ensures { IsCall S.faults S.rest S.given src.old src.new K.faults K.written out.old out.new (run_line (line_of (map string_bytes words.now))) result }
{
    match line_of(alloc, words) {
        Ok(line) => serve_run(rt, alloc, line, src, out, gate),
        Err(AllocError) => Status::NoMemory,
    }
}

/// Does what the words ask for, by `cmm2_run` where the first word is `run`, and else by `cmm2_replay`.
pub fn cmm2<R: Threads + Wait + Sync, S: Source, K: Sink, G: Gate + Sync>(
    rt: &R,
    alloc: Global,
    words: &[String],
    src: &mut S,
    out: &mut K,
    gate: &G,
) -> Status
    ensures { IsCall S.faults S.rest S.given src.old src.new K.faults K.written out.old out.new (line_of (map string_bytes words.now)) result }
{
    if begins_run(words) {
        cmm2_run(rt, alloc, words, src, out, gate)
    } else {
        cmm2_replay(alloc, words, src, out)
    }
}
