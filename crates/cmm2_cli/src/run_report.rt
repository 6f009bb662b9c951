// The report of a run, put together from its parts.
ghost use Rattle.std.specs.Prelude.{◌≡◌, ◌<◌, ◌≤◌, ◌*◌, ◌^◌, ◌++◌, [], true};
ghost use Rattle.cmm_types.specs.declared.plan.TheConstants.{MAX_GUEST_PAGES};
ghost use Rattle.cmm_io.specs.SinkBytes.{Writes};
ghost use Rattle.cmm_report.specs.Lines.{head_line};
ghost use Rattle.cmm_report.specs.Report.{guest_text, guests_text, report_of};
ghost use Rattle.cmm2_cli.specs.Running.{looked_discards, machine_report, machine_reports};

use cmm_io::{Sink, WriteFault};
use cmm_report::{write_end, write_guest, write_head};
use cmm_vcpu::Machine;

/// How often a page of the guest was discarded.
pub fn machine_discards(machine: &Machine, guest: u32) -> u64
    requires { guest < machine.now.guests }
    ensures sum { result ≡ looked_discards machine.now guest }
    ensures most { result ≤ MAX_GUEST_PAGES * 2 ^ 32 }
{
    let mut discards = 0;
    for word in machine.words(guest) {
        discards += u64::from(word.count());
    }
    discards
}

fn write_machine_guest<K: Sink>(
    out: &mut K,
    machine: &Machine,
    guest: u32,
) -> Result<(), WriteFault>
    requires { guest < machine.now.guests }
    ensures { Writes K.faults K.written out.old out.new (guest_text guest (machine_report machine.now guest)) result }
{
    write_guest(
        out,
        guest,
        machine.journal(guest),
        machine_discards(machine, guest),
        machine.faults(guest),
    )
}

fn write_machine_guests<K: Sink>(out: &mut K, machine: &Machine) -> Result<(), WriteFault>
    ensures { Writes K.faults K.written out.old out.new (guests_text 0 (machine_reports machine.now)) result }
{
    for guest in 0..machine.guests() {
        write_machine_guest(out, machine, guest)?;
    }
    Ok(())
}

fn write_run_body<K: Sink>(out: &mut K, machine: &Machine) -> Result<(), WriteFault>
    ensures { Writes K.faults K.written out.old out.new (head_line true ++ guests_text 0 (machine_reports machine.now)) result }
{
    write_head(out, true)?;
    write_machine_guests(out, machine)
}

/// Writes the report of a machine that has run.
pub fn write_run<K: Sink>(out: &mut K, machine: &Machine) -> Result<(), WriteFault>
    ensures { Writes K.faults K.written out.old out.new (report_of true [] (machine_reports machine.now)) result }
{
    write_run_body(out, machine)?;
    write_end(out)
}
