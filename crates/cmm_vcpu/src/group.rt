// The threads of a guest: one for each of its processors, which share one lock.
ghost use Rattle.std.specs.Prelude.{◌≡◌, ◌<◌, ◌≤◌, ◌↔◌, IsTrue, length};
ghost use Rattle.cmm_types.specs.declared.plan.TheConstants.{MAX_CPUS};
ghost use Rattle.cmm_vcpu.specs.KernelState.{AllDone, HasRun, words_of, own_words, pool_of};

use crate::kernel::Kernel;
use crate::named::{Job, Named};
use cmm_types::{MAX_CPUS, Turn};
use frame_pool::Pool;
use host_shared::{Gate, PageBody, Point, Who};
use state_words::Words;
use std::marker::Brand;
use std::sync::{Mutex, Wait};
use std::thread;
use std::thread::Threads;

// A processor takes turns until it has no command left. Where a turn waits for another processor, or has to be taken
// again, other threads go first.
fn work<N: Job, R: Wait, G: Gate>(
    rt: &R,
    lock: &Mutex<Named<N>>,
    words: &[Words<PageBody>],
    pool: &Pool,
    gate: &G,
    guest: u32,
    cpu: u32,
)
    requires words { words.now ≡ N.words }
    requires pool { pool.now ≡ N.pool }
    requires cpu { cpu < length N.plan.cpus }
{
    for _ in rt.forever() {
        let turn = lock.lock(rt).turn(words, pool, cpu);
        gate.pause(Who::Cpu { guest, cpu }, Point::Turned(turn));
        match turn {
            Turn::Moved => {}
            Turn::Finished => {}
            Turn::Waits { page: _, owner: _ } => thread::yield_now(),
            Turn::Again { why: _ } => thread::yield_now(),
            Turn::Idle => return,
        }
    }
}

// Whether each processor has no command left.
fn all_done(kernel: &Kernel) -> bool
    ensures { IsTrue result ↔ AllDone kernel.now.guest }
{
    for cpu in 0..kernel.cpus() {
        if !kernel.done(cpu) {
            return false;
        }
    }
    true
}

// A turn of each processor.
fn round(kernel: &mut Kernel, words: &[Words<PageBody>], pool: &Pool)
    requires words { words.now ≡ words_of kernel.old }
    requires pool { pool.now ≡ pool_of kernel.old }
    ensures plan { kernel.new.guest.plan ≡ kernel.old.guest.plan }
    ensures words { words_of kernel.new ≡ words_of kernel.old }
    ensures own { own_words kernel.new ≡ own_words kernel.old }
    ensures pool { pool_of kernel.new ≡ pool_of kernel.old }
{
    for cpu in 0..kernel.cpus() {
        let _ = kernel.turn(words, pool, cpu);
    }
}

// Gives turns to every processor until all are done.
fn finish<R: Wait>(rt: &R, kernel: &mut Kernel, words: &[Words<PageBody>], pool: &Pool)
    requires words { words.now ≡ words_of kernel.old }
    requires pool { pool.now ≡ pool_of kernel.old }
    ensures plan { kernel.new.guest.plan ≡ kernel.old.guest.plan }
    ensures words { words_of kernel.new ≡ words_of kernel.old }
    ensures own { own_words kernel.new ≡ own_words kernel.old }
    ensures pool { pool_of kernel.new ≡ pool_of kernel.old }
    ensures done { AllDone kernel.new.guest }
{
    for _ in rt.forever() {
        if all_done(kernel) {
            return;
        }
        round(kernel, words, pool);
    }
    unreachable!()
}

// A lock for the kernel is made, used by a thread for each processor, and taken apart.
fn run_named<N: Job + Send + Sync, R: Threads + Wait + Sync, G: Gate + Sync>(
    rt: &R,
    kernel: Kernel,
    cpus: &mut [u32],
    words: &[Words<PageBody>],
    pool: &Pool,
    gate: &G,
    guest: u32,
) -> Kernel
    requires plan { kernel.guest.plan ≡ N.plan }
    requires kernel_words { words_of kernel ≡ N.words }
    requires kernel_own { own_words kernel ≡ N.own }
    requires kernel_pool { pool_of kernel ≡ N.pool }
    requires words { words.now ≡ N.words }
    requires pool { pool.now ≡ N.pool }
    requires cpus { length cpus.old ≤ length N.plan.cpus }
    requires few { length N.plan.cpus ≤ MAX_CPUS }
    ensures run { HasRun N.plan result }
    ensures words { words_of result ≡ N.words }
    ensures own { own_words result ≡ N.own }
    ensures pool { pool_of result ≡ N.pool }
{
    let lock = Mutex::new(Named::<N>::new(kernel));
    let shared = &lock;
    thread::for_each_mut(
        rt,
        cpus,
        MAX_CPUS as usize,
        &|i: usize, _cpu: &mut u32|
            requires words { words.now ≡ N.words }
            requires pool { pool.now ≡ N.pool }
            requires cpu { i < length N.plan.cpus }
            requires few { length N.plan.cpus ≤ MAX_CPUS }
        { work(rt, shared, words, pool, gate, guest, i as u32) },
    );
    let mut kernel = lock.into_inner().into_kernel();
    finish(rt, &mut kernel, words, pool);
    kernel.has_run();
    kernel
}

/// Runs the processors of a kernel, each in a thread of its own, until all their commands are done. The names of its
/// lock are those of the kernel.
pub fn run_kernel<R: Threads + Wait + Sync, G: Gate + Sync>(
    rt: &R,
    kernel: Kernel,
    cpus: &mut [u32],
    words: &[Words<PageBody>],
    pool: &Pool,
    gate: &G,
    guest: u32,
) -> Kernel
    requires words { words.now ≡ words_of kernel }
    requires pool { pool.now ≡ pool_of kernel }
    requires cpus { length cpus.old ≤ length kernel.guest.plan.cpus }
    ensures run { HasRun kernel.guest.plan result }
    ensures words { words_of result ≡ words_of kernel }
    ensures own { own_words result ≡ own_words kernel }
    ensures pool { pool_of result ≡ pool_of kernel }
{
    let _ = kernel.cpus();
    run_named::<Brand, R, G>(rt, kernel, cpus, words, pool, gate, guest)
}
