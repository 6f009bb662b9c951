// The report of a replay, put together from its parts.
ghost use Rattle.std.specs.Prelude.{◌≡◌, ◌<◌, ◌≤◌, ◌*◌, ◌^◌, ◌++◌, length, false};
ghost use Rattle.cmm_types.specs.declared.plan.TheConstants.{MAX_GUEST_PAGES};
ghost use Rattle.cmm_io.specs.SinkBytes.{Writes};
ghost use Rattle.cmm_report.specs.Lines.{head_line};
ghost use Rattle.cmm_report.specs.Report.{events_text, guest_text, guests_text, report_of};
ghost use Rattle.cmm_world.specs.WorldView.{discards_of};
ghost use Rattle.cmm2_cli.specs.Reports.{guest_report, reports_of};

use cmm_io::{Sink, WriteFault};
use cmm_report::{write_end, write_events, write_guest, write_head};
use cmm_types::Answer;
use cmm_world::World;

fn write_answers<K: Sink>(out: &mut K, answers: &[Answer]) -> Result<(), WriteFault>
    ensures { Writes K.faults K.written out.old out.new (head_line false ++ events_text 0 answers.now) result }
{
    write_head(out, false)?;
    write_events(out, answers)
}

/// How often a page of the guest was discarded.
pub fn discards(world: &World, guest: u32) -> u64
    requires { guest < length world.now.state.guests }
    ensures sum { result ≡ discards_of world.now.state guest }
    ensures most { result ≤ MAX_GUEST_PAGES * 2 ^ 32 }
{
    let mut discards = 0;
    for word in world.words(guest) {
        discards += u64::from(word.count());
    }
    discards
}

fn write_one_guest<K: Sink>(out: &mut K, world: &World, guest: u32) -> Result<(), WriteFault>
    requires { guest < length world.now.state.guests }
    ensures { Writes K.faults K.written out.old out.new (guest_text guest (guest_report world.now.state guest)) result }
{
    let its = world.guest(guest);
    write_guest(
        out,
        guest,
        its.journal(),
        discards(world, guest),
        its.faults(),
    )
}

fn write_guests<K: Sink>(out: &mut K, world: &World) -> Result<(), WriteFault>
    ensures { Writes K.faults K.written out.old out.new (guests_text 0 (reports_of world.now.state)) result }
{
    for guest in 0..world.guests() {
        write_one_guest(out, world, guest)?;
    }
    Ok(())
}

fn write_body<K: Sink>(out: &mut K, world: &World) -> Result<(), WriteFault>
    ensures { Writes K.faults K.written out.old out.new (head_line false ++ events_text 0 world.now.answers ++ guests_text 0 (reports_of world.now.state)) result }
{
    write_answers(out, world.answers())?;
    write_guests(out, world)
}

/// Writes the report of a world's replay.
pub fn write_replay<K: Sink>(out: &mut K, world: &World) -> Result<(), WriteFault>
    ensures { Writes K.faults K.written out.old out.new (report_of false world.now.answers (reports_of world.now.state)) result }
{
    write_body(out, world)?;
    write_end(out)
}
