ghost use Rattle.std.specs.Prelude.{◌≡◌, ◌<◌, ◌+◌, ◌^◌, ◌++◌, [], ◌∷◌, ◌↔◌, length, None, Some, true, IfOk, IsTrue, option_copied};
ghost use Rattle.cmm_types.specs.declared.plan.TheConstants.{MAX_MAPPING_SLOTS};
ghost use Rattle.cmm_types.specs.declared.turn.Turn.TheVariants.{Finished};
ghost use Rattle.cmm_types.specs.InRange.{GuestInRange};
ghost use Rattle.cmm_flat.specs.Legal.{command_of, process_of};
ghost use Rattle.cmm_io.specs.DiskView.{DiskView};
ghost use Rattle.cmm_storage.specs.StorageView.{StorageView};
ghost use Rattle.cmm_storage.specs.Program.{done, Does};
ghost use Rattle.guest_pages.specs.PagesView.{info_at};
ghost use Rattle.guest_rules.specs.declared.processor.Phase.TheVariants.{Start, Fill};
ghost use Rattle.guest_rules.specs.GuestState.{opening_guest, processor_at, with_phase, entered, answered, next_command};
ghost use Rattle.guest_rules.specs.Turns.{missed_next, turn_in, turn};
ghost use Rattle.guest_rules.specs.Fresh.{AreFresh};
ghost use Rattle.guest_rules.specs.Fit.{Fit, all_commands};
ghost use Rattle.guest_rules.specs.Cause.{TurnCause, AloneCause, NoWrongDiscard};
ghost use Rattle.guest_rules.specs.Again.{WhyAgain};
ghost use Rattle.guest_rules.specs.Alone.{alone};
ghost use Rattle.guest_core.specs.Between.{CanEnter, CanGoOn};

mod look;
mod page;
mod room;
mod sync;
mod teardown;

use crate::copies::copy_plan;
use crate::plans::{all_commands, command, pages_of_files, process};
use cmm_io::Disk;
use cmm_storage::Storage;
use cmm_types::{Alone, Entry, GuestPlan, MAX_FILE_PAGES, MAX_MAPPING_SLOTS, Op, Reply, Turn};
use guest_cache::Cache;
use guest_maps::Maps;
use guest_pages::{PageInfo, Pages};
use guest_rules::{Missed, Parts, Phase, Processor};
use std::alloc::{AllocError, Global};
use std::marker::Model;

/// A command takes at most so many turns over a storage that never misses: 12, a sync 3 more for each page of its file,
/// and an unmap 3 more for each page of its mapping, which has at most as many.
const MOST_TURNS: u32 = 12 + 3 * MAX_FILE_PAGES;

/// A guest, which keeps a copy of its plan.
#[derive(Drop)]
pub struct Guest {
    plan: GuestPlan,
    parts: Parts,
    /// With room for an entry of each command.
    journal: Vec<Entry>,
    processors: Vec<Processor>,
}

impl Model for Guest {
    ghost use Rattle.std.specs.Prelude.{◌≤◌, vec_capacity};
    ghost use Rattle.guest_rules.specs.Fit.{all_commands};
    ghost use Rattle.guest_rules.specs.GuestState.{GuestState};

    ghost Value = { GuestState };

    ghost view = { λ g. record { plan = g.plan; parts = g.parts; journal = g.journal.items; processors = g.processors.items } };

    ghost invariant = { λ g. all_commands g.plan ≤ vec_capacity g.journal };
}

impl Guest {
    /// A guest before its first turn. It takes all memory that the guest ever needs.
    pub fn open(alloc: Global, plan: &GuestPlan) -> Result<Guest, AllocError>
        requires { GuestInRange plan.now }
        ensures opening { IfOk result (λ guest. guest ≡ opening_guest plan.now) }
        ensures fit { IfOk result (λ guest. (v : StorageView) (d : DiskView) → AreFresh plan.now v d → Fit guest v d) }
    {
        let files = pages_of_files(alloc, plan.files.as_slice())?;
        let parts = Parts {
            pages: Pages::open(alloc, plan.pages)?,
            cache: Cache::open(alloc, &files, plan.swap, MAX_MAPPING_SLOTS)?,
            maps: Maps::open(alloc, plan.pages)?,
            hand: 0,
            faults: 0,
        };
        let start = Processor {
            place: 0,
            phase: Phase::Start,
        };
        Ok(Guest {
            journal: Vec::with_capacity(alloc, all_commands(plan))?,
            processors: vec![in alloc; start; plan.cpus.len()]?,
            plan: copy_plan(alloc, plan)?,
            parts,
        })
    }

    /// The plan that the guest was opened with.
    pub fn plan(&self) -> &GuestPlan
        ensures { result.now ≡ self.now.plan }
    {
        &self.plan
    }

    /// The replies so far, in the order in which the commands were answered. A command is answered where it is done, and an
    /// unmap before it takes its pages off.
    pub fn journal(&self) -> &[Entry]
        ensures { result.now ≡ self.now.journal }
    {
        &self.journal
    }

    /// How many discarded pages were handled. The count stands still at its type's end.
    pub fn faults(&self) -> u64
        ensures { result ≡ self.now.parts.faults }
    {
        self.parts.faults
    }

    /// What the guest knows of a page.
    pub fn info(&self, page: u32) -> PageInfo
        requires { page < length self.now.parts.pages.infos }
        ensures { result ≡ info_at self.now.parts.pages page }
    {
        self.parts.pages.info(page)
    }

    /// Whether a processor has no command left. An unmap is one until the last page of its mapping is off.
    pub fn done(&self, cpu: u32) -> bool
        requires { cpu < length self.now.processors }
        ensures { IsTrue result ↔ (command_of self.now.plan cpu (processor_at self.now cpu).place ≡ None) }
    {
        self.command(cpu).is_none()
    }

    fn processor(&self, cpu: u32) -> Processor
        requires { cpu < length self.now.processors }
        ensures { result ≡ processor_at self.now cpu }
    {
        self.processors[cpu as usize]
    }

    /// The command that a processor is at.
    fn command(&self, cpu: u32) -> Option<&Op>
        requires { cpu < length self.now.processors }
        ensures { option_copied result ≡ command_of self.now.plan cpu (processor_at self.now cpu).place }
    {
        command(&self.plan, cpu, self.processor(cpu).place)
    }

    /// The process of a processor.
    fn process(&self, cpu: u32) -> u32
        ensures { result ≡ process_of self.now.plan cpu }
    {
        process(&self.plan, cpu)
    }

    /// Writes a reply, with a copy of its command, into the journal.
    fn enter(&mut self, cpu: u32, op: &Op, reply: Reply)
        requires { CanEnter self.old cpu }
        ensures { self.new ≡ record self.old { journal = self.old.journal ++ record { cpu = cpu; k = (processor_at self.old cpu).place; op = op.now; reply = reply } ∷ [] } }
    {
        let place = self.processors[cpu as usize].place;
        let _ = self.journal.push(Entry {
            cpu,
            k: place,
            op: op.copy(),
            reply,
        });
    }

    /// A processor whose command was answered goes on to its next one.
    #[tactic(auto, unfolding(guest_rules::specs::GuestState::next_command))]
    fn next_command(&mut self, cpu: u32)
        requires { CanGoOn self.old cpu }
        ensures { self.new ≡ next_command self.old cpu }
    {
        let place = self.processors[cpu as usize].place;
        self.processors[cpu as usize] = Processor {
            place: place + 1,
            phase: Phase::Start,
        };
    }

    /// A command is done: its reply stands in the journal, and the processor goes on to its next command.
    #[tactic(auto, unfolding(guest_rules::specs::GuestState::entered, guest_rules::specs::GuestState::next_command))]
    fn finish(&mut self, cpu: u32, op: &Op, reply: Reply) -> Turn
        requires { CanEnter self.old cpu }
        ensures entered { self.new ≡ entered self.old cpu op.now reply }
        ensures finished { result ≡ Finished }
    {
        self.enter(cpu, op, reply);
        self.next_command(cpu);
        Turn::Finished
    }

    /// A command is answered, and goes on in a phase.
    #[tactic(auto, unfolding(guest_rules::specs::GuestState::answered, guest_rules::specs::GuestState::with_phase))]
    fn answer(&mut self, cpu: u32, op: &Op, reply: Reply, phase: Phase)
        requires { CanEnter self.old cpu }
        ensures answered { self.new ≡ answered self.old cpu op.now reply phase }
    {
        self.enter(cpu, op, reply);
        self.set_phase(cpu, phase);
    }

    /// A command whose page wasn't reached goes on, is taken again, or has failed.
    fn miss(&mut self, cpu: u32, op: &Op, missed: Missed) -> Turn
        requires { CanEnter self.old cpu }
        ensures { missed_next self.old cpu op.now self.old.parts missed ≡ done (self.new, result) }
    {
        match missed {
            Missed::Gone => Turn::Moved,
            Missed::Again { why } => Turn::Again { why },
            Missed::Fail(cause) => self.finish(cpu, op, Reply::Fail(cause)),
        }
    }

    #[tactic(auto, unfolding(guest_rules::specs::GuestState::with_phase))]
    fn set_phase(&mut self, cpu: u32, phase: Phase)
        requires cpu { cpu < length self.old.processors }
        ensures { self.new ≡ with_phase self.old cpu phase }
    {
        let place = self.processors[cpu as usize].place;
        self.processors[cpu as usize] = Processor { place, phase };
    }

    /// The turn, as its program says.
    #[tactic(auto, using(cmm_storage::specs::Runs::runs, guest_hint::specs::Laws::RunLaws::does_alone), unfolding(guest_rules::specs::Turns::turn))]
    fn run_turn<St: Storage, D: Disk>(&mut self, cpu: u32, st: &mut St, disk: &mut D) -> Turn
        requires cpu { cpu < length self.old.processors }
        requires fit { Fit self.old (St.view st.old) (D.view disk.old) }
        ensures row { Does St.step D.step (turn self.old cpu) st.old disk.old (self.new, result) st.new disk.new }
    {
        match self.command(cpu) {
            None => Turn::Idle,
            Some(op) => {
                // The turn changes the guest that has the command.
                let op = op.copy();
                self.command_turn(cpu, st, disk, &op)
            }
        }
    }

    /// The turn of a processor that is at this command.
    #[tactic(auto, using(cmm_storage::specs::Runs::runs, guest_hint::specs::Laws::RunLaws::does_alone))]
    fn command_turn<St: Storage, D: Disk>(
        &mut self,
        cpu: u32,
        st: &mut St,
        disk: &mut D,
        op: &Op,
    ) -> Turn
        requires cpu { cpu < length self.old.processors }
        requires fit { Fit self.old (St.view st.old) (D.view disk.old) }
        requires command { command_of self.old.plan cpu (processor_at self.old cpu).place ≡ Some op.now }
        ensures row { Does St.step D.step (turn_in self.old cpu op.now (processor_at self.old cpu).phase) st.old disk.old (self.new, result) st.new disk.new }
    {
        match self.processor(cpu).phase {
            Phase::Start => self.start_turn(cpu, st, op),
            Phase::Fill { page } => self.fill_turn(cpu, st, disk, op, page),
            Phase::Room { page } => self.page_out_turn(cpu, st, disk, op, page),
            Phase::Sync { index } => self.look_turn(cpu, st, op, index),
            Phase::SyncWrite { index, page } => self.write_back_turn(
                cpu, st, disk, op, index, page,
            ),
            Phase::Teardown { slot, index } => self.teardown_turn(cpu, st, slot, index),
        }
    }

    /// One turn of a processor. It is one event: it holds at most one page, and gives it back.
    pub fn step<St: Storage, D: Disk>(&mut self, cpu: u32, st: &mut St, disk: &mut D) -> Turn
        requires cpu { cpu < length self.old.processors }
        requires fit { Fit self.old (St.view st.old) (D.view disk.old) }

        // The turn is the program of calls, each by the step relation of the storage or of the disk.
        ensures row { Does St.step D.step (turn self.old cpu) st.old disk.old (self.new, result) st.new disk.new }
        // An answer `Again` is that of the take that found its page busy, or of the touch that found no frame.
        ensures again { WhyAgain St.step st.old result st.new }

        // These stand over every storage and every disk.
        ensures fit { Fit self.new (St.view st.new) (D.view disk.new) }
        ensures causes { TurnCause self.old (St.view st.old) (D.view disk.old) cpu result self.new (St.view st.new) (D.view disk.new) }
        ensures discards { NoWrongDiscard (St.view st.old) (St.view st.new) }
        ensures plan { self.new.plan ≡ self.old.plan }
    {
        self.run_turn(cpu, st, disk)
    }

    /// The turns, as their program says.
    fn run_alone<St: Storage, D: Disk>(&mut self, cpu: u32, st: &mut St, disk: &mut D) -> Alone
        requires cpu { cpu < length self.old.processors }
        requires fit { Fit self.old (St.view st.old) (D.view disk.old) }
        ensures row { Does St.step D.step (alone self.old cpu) st.old disk.old (self.new, result) st.new disk.new }
        ensures fit { Fit self.new (St.view st.new) (D.view disk.new) }
        ensures plan { self.new.plan ≡ self.old.plan }
    {
        for turns in 0..MOST_TURNS {
            match self.step(cpu, st, disk) {
                Turn::Moved => {}
                Turn::Finished => return Alone::Finished { turns: turns + 1 },
                Turn::Waits { page, owner } => return Alone::Waits { turns, page, owner },
                Turn::Again { why: _ } => return Alone::Idle,
                Turn::Idle => return Alone::Idle,
            }
        }
        Alone::Idle
    }

    /// Turns of a processor up to the first that doesn't move, over a storage that never misses. They are at most 12, and
    /// 3 more for each page of the file of a sync, or of the mapping of an unmap.
    pub fn alone<St: Storage, D: Disk>(&mut self, cpu: u32, st: &mut St, disk: &mut D) -> Alone
        requires cpu { cpu < length self.old.processors }
        requires quiet { (St.view st.old).quiet ≡ true }
        requires fit { Fit self.old (St.view st.old) (D.view disk.old) }
        ensures row { Does St.step D.step (alone self.old cpu) st.old disk.old (self.new, result) st.new disk.new }
        ensures fit { Fit self.new (St.view st.new) (D.view disk.new) }
        ensures causes { AloneCause self.old (St.view st.old) (D.view disk.old) cpu result self.new (St.view st.new) (D.view disk.new) }
        ensures plan { self.new.plan ≡ self.old.plan }
    {
        self.run_alone(cpu, st, disk)
    }
}
