// The words and the groups of a machine before it runs.
ghost use Rattle.std.specs.Prelude.{◌≡◌, ◌+◌, ◌<◌, ◌≤◌, ◌^◌, ℕ, Some, All, IfOk, drop, length, map, slice_get, slice_index_or};
ghost use Rattle.std.specs.List.{sum_by};
ghost use Rattle.cmm_types.specs.InRange.{GuestInRange, ScenarioInRange};
ghost use Rattle.cmm_io.specs.FailurePlan.{failure_plan_of};
ghost use Rattle.cmm_vcpu.specs.KernelState.{IsOpening, words_in};
ghost use Rattle.cmm_vcpu.specs.Machines.{IsReady, IsReadyKernel, no_group};
ghost use Rattle.cmm_types.specs.NoPlan.{no_plan};
ghost use Rattle.cmm_vcpu.specs.Opening.{AreTables, AreOpen, CanSeat, IsFirstSeat, IsGuestGroup};

use crate::groups::Group;
use crate::kernel::Kernel;
use crate::open::{Tables, open_tables, seats_of};
use crate::reclaimer::Reclaimer;
use cmm_pager::MemPager;
use cmm_types::{GuestPlan, Scenario};
use frame_pool::{Pool, PoolSeat};
use host_shared::{PageBody, WordStorage};
use state_words::{GuestSeat, HostSeat, Words};
use std::alloc::{AllocError, Global};

// The storage of a guest before its first call.
#[tactic(auto, using(crate::proofs::OpenGroups::opening_storage))]
fn open_storage(
    alloc: Global,
    plan: &GuestPlan,
    number: u32,
    guest: GuestSeat<PageBody>,
    tables: &mut Tables,
    pool: &Pool,
    seat: &mut PoolSeat,
) -> Result<WordStorage, AllocError>
    requires can { CanSeat pool.now tables.old.words.items tables.old.hosts.items }
    requires seat { seat.old.pool ≡ pool.now }
    requires words { slice_get tables.old.words.items number ≡ Some guest.words }
    requires first { IsFirstSeat guest }
    requires pages { guest.words.pages ≡ plan.now.pages }
    ensures words { tables.new.words.items ≡ tables.old.words.items }
    ensures hosts { tables.new.hosts.items ≡ tables.old.hosts.items }
    ensures guests { tables.new.guests.items ≡ tables.old.guests.items }
    ensures same { seat.new ≡ seat.old }
    ensures opening { IfOk result (λ storage. IsOpening plan.now storage) }
    ensures of_words { IfOk result (λ storage. words_in storage ≡ tables.old.words.items) }
    ensures of_pool { IfOk result (λ storage. storage.pool.pool ≡ pool.now) }
    ensures number { IfOk result (λ storage. storage.guest ≡ number) }
{
    let seats = seats_of(
        alloc,
        tables.words.as_mut_slice(),
        tables.hosts.as_mut_slice(),
    )?;
    let pager = MemPager::open(alloc, plan.pager_fail.as_slice())?;
    Ok(WordStorage::open(number, guest, seats, seat.split(pool), pager))
}

// The group of a guest over its storage.
#[tactic(auto, using(crate::proofs::OpenGroups::guest_group))]
fn open_guest(alloc: Global, plan: &GuestPlan, storage: WordStorage) -> Result<Group, AllocError>
    requires range { GuestInRange plan.now }
    requires storage { IsOpening plan.now storage }
    ensures { IfOk result (λ group. IsGuestGroup plan.now (words_in storage) storage.pool.pool storage.guest group) }
{
    let kernel = Kernel::open(alloc, plan, storage)?;
    let cpus = vec![in alloc; 0; plan.cpus.len()]?;
    Ok(Group {
        kernel: Some(kernel),
        reclaimer: None,
        cpus,
    })
}

// The first of the guests' seats that is still there.
fn take_first(tables: &mut Tables) -> GuestSeat<PageBody>
    requires { 0 < length tables.old.guests.items }
    ensures first { result ≡ slice_index_or tables.old.guests.items 0 result }
    ensures rest { tables.new.guests.items ≡ drop 1 tables.old.guests.items }
    ensures words { tables.new.words.items ≡ tables.old.words.items }
    ensures hosts { tables.new.hosts.items ≡ tables.old.hosts.items }
{
    tables.guests.remove(0)
}

/// The groups of all guests, in their order. Their seats are taken from the tables.
#[tactic(auto, using(crate::proofs::OpenGroups::guests_none))]
pub(crate) fn open_guests(
    alloc: Global,
    plans: &[GuestPlan],
    tables: &mut Tables,
    pool: &Pool,
    seat: &mut PoolSeat,
) -> Result<Vec<Group>, AllocError>
    requires tables { AreTables plans.now pool.now tables.old.words.items tables.old.guests.items tables.old.hosts.items }
    requires range { All GuestInRange plans.now }
    requires few { length plans.now < 2 ^ 32 }
    requires few_pages { sum_by (λ plan. plan.pages) plans.now < 2 ^ 32 }
    requires seat { seat.old.pool ≡ pool.now }
    ensures words { tables.new.words.items ≡ tables.old.words.items }
    ensures hosts { tables.new.hosts.items ≡ tables.old.hosts.items }
    ensures same { seat.new ≡ seat.old }
    ensures count { IfOk result (λ groups. length groups.items ≡ length plans.now) }
    ensures each { IfOk result (λ groups. (i : ℕ) → i < length plans.now
        → IsGuestGroup (slice_index_or plans.now i no_plan) tables.old.words.items pool.now i (slice_index_or groups.items i no_group)) }
{
    let mut groups = Vec::with_capacity(alloc, plans.len())?;
    for plan in plans {
        let number = groups.len() as u32;
        let guest = take_first(tables);
        let storage = open_storage(alloc, plan, number, guest, tables, pool, seat)?;
        groups.push(open_guest(alloc, plan, storage)?)?;
    }
    Ok(groups)
}

// The group of a reclaimer.
#[tactic(auto, using(crate::proofs::OpenGroups::can_reclaim))]
fn open_reclaimer(
    alloc: Global,
    fails: &[u32],
    tables: &mut Tables,
    pool: &Pool,
    seat: &mut PoolSeat,
) -> Result<Group, AllocError>
    requires can { CanSeat pool.now tables.old.words.items tables.old.hosts.items }
    requires seat { seat.old.pool ≡ pool.now }
    ensures words { tables.new.words.items ≡ tables.old.words.items }
    ensures hosts { tables.new.hosts.items ≡ tables.old.hosts.items }
    ensures same { seat.new ≡ seat.old }
    ensures ready { IfOk result (λ group. IsReady tables.old.words.items pool.now group) }
{
    let seats = seats_of(
        alloc,
        tables.words.as_mut_slice(),
        tables.hosts.as_mut_slice(),
    )?;
    let pager = MemPager::open(alloc, fails)?;
    Ok(Group {
        kernel: None,
        reclaimer: Some(Reclaimer {
            seats,
            pager,
            pool_seat: seat.split(pool),
        }),
        cpus: Vec::new(alloc),
    })
}

/// So many reclaimers' groups more, each with a pager of its own that fails at these of its calls.
#[tactic(auto, using(crate::proofs::OpenGroups::reclaimers_none))]
pub(crate) fn add_reclaimers(
    alloc: Global,
    count: u32,
    fails: &[u32],
    groups: &mut Vec<Group>,
    tables: &mut Tables,
    pool: &Pool,
    seat: &mut PoolSeat,
) -> Result<(), AllocError>
    requires can { CanSeat pool.now tables.old.words.items tables.old.hosts.items }
    requires seat { seat.old.pool ≡ pool.now }
    requires ready { All (IsReady tables.old.words.items pool.now) groups.old.items }
    ensures words { tables.new.words.items ≡ tables.old.words.items }
    ensures hosts { tables.new.hosts.items ≡ tables.old.hosts.items }
    ensures same { seat.new ≡ seat.old }
    ensures count { IfOk result (λ _. length groups.new.items ≡ length groups.old.items + count) }
    ensures kept { (i : ℕ) → i < length groups.old.items → slice_index_or groups.new.items i no_group ≡ slice_index_or groups.old.items i no_group }
    ensures ready { All (IsReady tables.old.words.items pool.now) groups.new.items }
{
    for _ in 0..count {
        groups.push(open_reclaimer(alloc, fails, tables, pool, seat)?)?;
    }
    Ok(())
}

/// The words of all guests with idle seats of the host, and the groups over them.
#[derive(Drop)]
pub(crate) struct Open {
    pub(crate) words: Vec<Words<PageBody>>,
    pub(crate) hosts: Vec<HostSeat<PageBody>>,
    pub(crate) groups: Vec<Group>,
}

/// What the guests and reclaimers of a scenario have over the pool before they run.
pub(crate) fn open_all(
    alloc: Global,
    plan: &Scenario,
    pool: &Pool,
    seat: &mut PoolSeat,
) -> Result<Open, AllocError>
    requires range { ScenarioInRange plan.now }
    requires seat { seat.old.pool ≡ pool.now }
    ensures same { seat.new ≡ seat.old }
    ensures filled { IfOk result (λ made. AreOpen plan.now pool.now made.words.items made.hosts.items made.groups.items) }
{
    let plans = plan.guests.as_slice();
    let mut tables = open_tables(alloc, pool, seat, plans)?;
    let mut groups = open_guests(alloc, plans, &mut tables, pool, seat)?;
    let fails = plan.pager_fail.as_slice();
    let count = plan.reclaimers;
    add_reclaimers(alloc, count, fails, &mut groups, &mut tables, pool, seat)?;
    let Tables {
        words,
        guests: _,
        hosts,
    } = tables;
    Ok(Open {
        words,
        hosts,
        groups,
    })
}
