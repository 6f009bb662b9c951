ghost use Rattle.std.specs.Prelude.{◌≡◌, ◌<◌, ◌≤◌, IfOk, length};
ghost use Rattle.cmm_types.specs.declared.plan.TheConstants.{MAX_GUEST_PAGES};
ghost use Rattle.cmm_types.specs.InRange.{ScenarioInRange};
ghost use Rattle.frame_pool.specs.Seats.{frame_count};
ghost use Rattle.cmm_vcpu.specs.Closing.{Loses};
ghost use Rattle.cmm_vcpu.specs.Machines.{AllHaveRun, IsOfPlan, kernel_at, looked_at};

use crate::closing::{close_pool, close_tables};
use crate::ended::open_ended;
use crate::groups::{Group, run_groups};
use crate::kernel::Kernel;
use crate::open::open_pool;
use crate::opening::{Open, open_all};
use cmm_io::MemDisk;
use cmm_types::{Entry, Scenario};
use crossbeam_utils::atomic::AtomicCell;
use essa_state::Word;
use frame_pool::{Pool, PoolSeat};
use guest_core::Guest;
use host_shared::{Gate, PageBody};
use page_arena::{Frame, Region};
use state_words::{HostSeat, Words};
use std::alloc::{AllocError, Global};
use std::marker::Model;
use std::sync::Wait;
use std::thread::Threads;

/// Guests and reclaimers, which run as threads.
#[derive(Drop)]
pub struct Machine {
    groups: Vec<Group>,
    ended: Vec<AtomicCell<u32>>,
    words: Vec<Words<PageBody>>,
    /// A seat of the host at each guest's words, and one at the pool, which no thread uses.
    hosts: Vec<HostSeat<PageBody>>,
    seat: PoolSeat,
    pool: Pool,
    region: Region,
    /// What `close` fills, with room for all frames.
    free: Vec<Frame>,
    guests: usize,
}

impl Model for Machine {
    ghost use Rattle.std.specs.Prelude.{vec_capacity};
    ghost use Rattle.cmm_vcpu.specs.Machines.{MachineState, IsMachine};
    ghost use Rattle.cmm_vcpu.specs.Closing.{CanClose};

    ghost Value = { MachineState };

    ghost view = { λ m. record { groups = m.groups.items; words = m.words.items; pool = m.pool; guests = m.guests; hosts = m.hosts.items; seat = m.seat; region = m.region } };

    ghost invariant = { λ m. IsMachine (record { groups = m.groups.items; words = m.words.items; pool = m.pool; guests = m.guests; hosts = m.hosts.items; seat = m.seat; region = m.region }) × CanClose m.pool m.free.items (vec_capacity m.free) };
}

impl Machine {
    /// The guests and reclaimers of a scenario before they run. It takes all memory that they need. Without it, the pool
    /// and the region of the frames are closed again.
    pub fn open(alloc: Global, plan: &Scenario) -> Result<Machine, AllocError>
        requires { ScenarioInRange plan.now }
        ensures { IfOk result (λ machine. IsOfPlan plan.now machine) }
    {
        let guests = plan.guests.len();
        let ended = open_ended(alloc, guests)?;
        let free = Vec::with_capacity(alloc, plan.frames as usize)?;
        let (region, pool, mut seat) = open_pool(alloc, plan.frames)?;
        match open_all(alloc, plan, &pool, &mut seat) {
            Ok(
                Open {
                    words,
                    hosts,
                    groups,
                },
            ) => Ok(Machine {
                groups,
                ended,
                words,
                hosts,
                seat,
                pool,
                region,
                free,
                guests,
            }),
            Err(refused) => {
                let _ = close_pool(pool, seat, region, free);
                Err(refused)
            }
        }
    }

    /// Closes the pool and the region, after the machine has run or without. The frames of pages that nobody holds are
    /// given back before. Answers how many frames neither the pool nor a page gave back. It takes no memory.
    pub fn close(self) -> u32
        ensures lost { Loses self.pool result }
        ensures few { result ≤ frame_count self.pool }
    {
        let Machine {
            groups: _,
            ended: _,
            mut words,
            mut hosts,
            mut seat,
            pool,
            region,
            free,
            guests: _,
        } = self;
        close_tables(words.as_mut_slice(), hosts.as_mut_slice(), &pool, &mut seat);
        close_pool(pool, seat, region, free)
    }

    /// How many guests there are.
    pub fn guests(&self) -> u32
        ensures { result ≡ self.now.guests }
    {
        self.guests as u32
    }

    fn kernel(&self, guest: u32) -> &Kernel
        requires { guest < self.now.guests }
        ensures { result.now ≡ kernel_at self.now guest }
    {
        self.groups[guest as usize].kernel()
    }

    pub fn guest(&self, guest: u32) -> &Guest
        requires { guest < self.now.guests }
        ensures { result.now ≡ (kernel_at self.now guest).guest }
    {
        self.kernel(guest).guest()
    }

    /// The replies of a guest's commands, in the order in which they were answered.
    pub fn journal(&self, guest: u32) -> &[Entry]
        requires { guest < self.now.guests }
        ensures { result.now ≡ (kernel_at self.now guest).guest.journal }
    {
        self.guest(guest).journal()
    }

    /// How many discarded pages a guest has handled.
    pub fn faults(&self, guest: u32) -> u64
        requires { guest < self.now.guests }
        ensures { result ≡ (kernel_at self.now guest).guest.parts.faults }
    {
        self.guest(guest).faults()
    }

    /// The words of a guest's pages, one of each page in their order, as the last loads found them after the machine had
    /// run; none before.
    pub fn words(&self, guest: u32) -> &[Word]
        requires { guest < self.now.guests }
        ensures words { result.now ≡ looked_at self.now guest }
        ensures few { length result.now ≤ MAX_GUEST_PAGES }
    {
        self.kernel(guest).looked()
    }

    pub fn disk(&self, guest: u32) -> &MemDisk
        requires { guest < self.now.guests }
        ensures { result.now ≡ (kernel_at self.now guest).disk }
    {
        self.kernel(guest).disk()
    }
}

/// Runs all groups, each in threads of its own, until every command of every processor is done. Then each guest's
/// words are looked at once.
pub fn run_all<R: Threads + Wait + Sync, G: Gate + Sync>(rt: &R, machine: &mut Machine, gate: &G)
    ensures { AllHaveRun machine.old machine.new }
{
    let words = machine.words.as_slice();
    let pool = &machine.pool;
    let ended = machine.ended.as_slice();
    run_groups(rt, machine.groups.as_mut_slice(), words, pool, ended, gate);
}
