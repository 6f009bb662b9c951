// The parts of a world before its first event.
ghost use Rattle.std.specs.Prelude.{◌≡◌, ◌<◌, ◌^◌, map, replicate, All, IfOk};
ghost use Rattle.cmm_types.specs.InRange.{GuestInRange, ScenarioInRange, guest_pages_of};
ghost use Rattle.cmm_io.specs.FailurePlan.{failure_plan_of};
ghost use Rattle.cmm_types.specs.Bytes.{zero_page};
ghost use Rattle.guest_rules.specs.GuestState.{opening_guest};
ghost use Rattle.cmm_io.specs.DiskState.{opening_disk};
ghost use Rattle.cmm_world.specs.WorldState.{opening_host};

use cmm_io::MemDisk;
use cmm_pager::{MemBlock, MemPager};
use cmm_types::{GuestPlan, Scenario};
use guest_core::Guest;
use host_plain::Host;
use std::alloc::{AllocError, Global};

/// A guest of each plan, before its first turn.
pub fn open_guests(alloc: Global, plans: &[GuestPlan]) -> Result<Vec<Guest>, AllocError>
    requires { All GuestInRange plans.now }
    ensures { IfOk result (λ guests. guests.items ≡ map opening_guest plans.now) }
{
    let mut guests = Vec::with_capacity(alloc, plans.len())?;
    for plan in plans {
        guests.push(Guest::open(alloc, plan)?)?;
    }
    Ok(guests)
}

/// The disk of each guest.
pub fn open_disks(alloc: Global, plans: &[GuestPlan]) -> Result<Vec<MemDisk>, AllocError>
    requires { All GuestInRange plans.now }
    ensures { IfOk result (λ disks. disks.items ≡ map opening_disk plans.now) }
{
    let mut disks = Vec::with_capacity(alloc, plans.len())?;
    for plan in plans {
        disks.push(MemDisk::of_plan(alloc, plan)?)?;
    }
    Ok(disks)
}

fn page_counts(alloc: Global, plans: &[GuestPlan]) -> Result<Vec<u32>, AllocError>
    ensures { IfOk result (λ counts. counts.items ≡ map (λ guest. guest.pages) plans.now) }
{
    let mut counts = Vec::with_capacity(alloc, plans.len())?;
    for plan in plans {
        counts.push(plan.pages)?;
    }
    Ok(counts)
}

// The pages of all guests together.
fn pages_in_all(plans: &[GuestPlan]) -> u32
    requires { guest_pages_of plans.now < 2 ^ 32 }
    ensures { result ≡ guest_pages_of plans.now }
{
    let mut pages = 0;
    for plan in plans {
        pages += plan.pages;
    }
    pages
}

fn open_pagers(alloc: Global, plans: &[GuestPlan]) -> Result<Vec<MemPager>, AllocError>
    ensures { IfOk result (λ pagers. pagers.items ≡ map (λ guest. failure_plan_of guest.pager_fail) plans.now) }
{
    let mut pagers = Vec::with_capacity(alloc, plans.len())?;
    for plan in plans {
        pagers.push(MemPager::open(alloc, plan.pager_fail.as_slice())?)?;
    }
    Ok(pagers)
}

#[tactic(auto, unfolding(cmm_types::specs::Bytes::zero_page))]
fn open_blocks(alloc: Global, count: u32) -> Result<Vec<MemBlock>, AllocError>
    ensures { IfOk result (λ blocks. blocks.items ≡ replicate count zero_page) }
{
    MemBlock::open_all(alloc, count)
}

/// The host, with a paging block for each page of all guests.
pub fn open_host(alloc: Global, plan: &Scenario) -> Result<Host, AllocError>
    requires { ScenarioInRange plan.now }
    ensures { IfOk result (λ host. host ≡ opening_host plan.now) }
{
    let plans = plan.guests.as_slice();
    let counts = page_counts(alloc, plans)?;
    let blocks = open_blocks(alloc, pages_in_all(plans))?;
    let pagers = open_pagers(alloc, plans)?;
    let own = MemPager::open(alloc, plan.pager_fail.as_slice())?;
    Host::open(alloc, counts.as_slice(), plan.frames, blocks, pagers, own)
}
