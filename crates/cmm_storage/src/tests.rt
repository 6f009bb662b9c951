// A caller of any storage, over one whose host does what a list says.
ghost use Rattle.std.specs.Prelude.{◌≡◌, ◌<◌, None, IsTrue};

use crate::{Noise, NoisyStorage, Storage, Trap};
use cmm_types::Content;
use essa_state::Order;
use std::alloc::{AllocError, Global};
use std::test::Fail;

#[derive(Clone, Copy, Debug, PartialEq, Eq)]
enum Seen {
    Busy,
    Trapped(Trap),
    Lost,
    Wrote { changed: bool },
    Read([u8; 4]),
}

const OFF: usize = 4092;

// Whether a page that was touched is found resident, by an order and by another touch. Over any storage it always is.
fn stays_resident<St: Storage>(st: &mut St, page: u32, code: Order) -> bool
    requires page { page < (St.view st.old).pages }
    requires none_held { (St.view st.old).held ≡ None }
    ensures resident { IsTrue result }
{
    if st.take(page).is_err() {
        return true;
    }
    st.order(page, Order::SetStable);
    if st.touch(page).is_err() {
        st.put(page);
        return true;
    }
    st.order(page, code);
    let old = st.order(page, Order::SetStable);
    let again = st.touch(page).is_ok();
    st.put(page);
    again && old.content == Content::Resident
}

// Writes four bytes at the page's end, and leaves the page with this order.
fn write<St: Storage>(st: &mut St, page: u32, bytes: [u8; 4], leave: Order) -> Seen
    requires page { page < (St.view st.old).pages }
    requires none_held { (St.view st.old).held ≡ None }
    ensures pages { (St.view st.new).pages ≡ (St.view st.old).pages }
    ensures none_held { (St.view st.new).held ≡ None }
{
    if st.take(page).is_err() {
        return Seen::Busy;
    }
    st.order(page, Order::SetStable);
    match st.touch(page) {
        Err(trap) => {
            st.put(page);
            Seen::Trapped(trap)
        }
        Ok(()) => {
            st.store(page, OFF, &bytes);
            let changed = st.take_change(page);
            st.order(page, leave);
            st.put(page);
            Seen::Wrote { changed }
        }
    }
}

// Reads them again, unless the page was discarded meanwhile, and leaves it stable.
fn read<St: Storage>(st: &mut St, page: u32) -> Seen
    requires page { page < (St.view st.old).pages }
    requires none_held { (St.view st.old).held ≡ None }
    ensures pages { (St.view st.new).pages ≡ (St.view st.old).pages }
    ensures none_held { (St.view st.new).held ≡ None }
{
    if st.take(page).is_err() {
        return Seen::Busy;
    }
    if !st.order(page, Order::SetStableIf).done {
        st.order(page, Order::SetUnused);
        st.put(page);
        return Seen::Lost;
    }
    match st.touch(page) {
        Err(trap) => {
            st.put(page);
            Seen::Trapped(trap)
        }
        Ok(()) => {
            let mut bytes = [0; 4];
            st.fetch(page, OFF, &mut bytes);
            st.put(page);
            Seen::Read(bytes)
        }
    }
}

// What a write and two reads of page 1 see, and how many calls of the pager failed.
fn visits(alloc: Global, leave: Order, noises: [Noise; 4]) -> Result<([Seen; 3], u64), AllocError> {
    let mut storage = NoisyStorage::open(alloc, 2, Vec::from_array(alloc, noises)?)?;
    let wrote = write(&mut storage, 1, [7, 8, 9, 10], leave);
    let first = read(&mut storage, 1);
    let second = read(&mut storage, 1);
    Ok(([wrote, first, second], storage.faults()))
}

#[test]
fn a_caller_meets_every_answer(rt: HostRuntime) -> Result<(), Fail> {
    use Noise::{Busy, Calm, Discard, NoFrame, PagerFails};
    let wrote = Seen::Wrote { changed: true };
    let bytes = Seen::Read([7, 8, 9, 10]);
    let zeros = Seen::Read([0; 4]);
    let no_frame = Seen::Trapped(Trap::NoFrame { looks: 0 });
    let paging = Seen::Trapped(Trap::Paging);
    for (leave, noises, seen, faults) in [
        (
            Order::SetVolatile,
            [Calm, Calm, Calm, Calm],
            [wrote, bytes, bytes],
            0,
        ),
        (
            Order::SetVolatile,
            [Calm, Calm, Discard, Calm],
            [wrote, Seen::Lost, zeros],
            0,
        ),
        (
            Order::SetPotential,
            [Calm, Calm, Discard, Calm],
            [wrote, Seen::Lost, zeros],
            0,
        ),
        (
            Order::SetStable,
            [Calm, Calm, Discard, Calm],
            [wrote, bytes, bytes],
            0,
        ),
        (
            Order::SetVolatile,
            [Busy, Calm, NoFrame, Busy],
            [Seen::Busy, no_frame, Seen::Busy],
            0,
        ),
        (
            Order::SetVolatile,
            [Calm, PagerFails, Calm, Calm],
            [paging, zeros, zeros],
            1,
        ),
        (
            Order::SetVolatile,
            [Calm, Calm, Calm, NoFrame],
            [wrote, bytes, bytes],
            0,
        ),
    ] {
        assert_eq!(rt;
            visits(rt.alloc(), leave, noises)?,
            (seen, faults),
            "{noises:?}, {leave:?}"
        );
    }
    Ok(())
}

#[test]
fn a_touched_page_stays_resident(rt: HostRuntime) -> Result<(), Fail> {
    use Noise::{Calm, NoFrame, PagerFails};
    for (code, second_touch) in [
        (Order::SetVolatile, PagerFails),
        (Order::SetPotential, NoFrame),
        (Order::SetUnused, PagerFails),
    ] {
        let noises = Vec::from_array(rt.alloc(), [Calm, Calm, second_touch])?;
        let mut storage = NoisyStorage::open(rt.alloc(), 1, noises)?;
        assert!(rt; stays_resident(&mut storage, 0, code), "{code:?}");
    }
    Ok(())
}
