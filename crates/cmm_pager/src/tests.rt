ghost use Rattle.std.specs.Prelude.{◌≡◌, length};
ghost use Rattle.cmm_types.specs.declared.page.TheConstants.{PAGE};

use crate::{MemBlock, MemPager, Pager};
use cmm_io::Failed;
use cmm_types::PAGE;
use std::test::Fail;

/// A caller that knows of the pager only that it is one: puts the page, and gets it back into `into`.
fn put_and_get<P: Pager>(
    pager: &mut P,
    block: &mut P::Block,
    page: &[u8],
    into: &mut [u8],
) -> Result<(), Failed>
    requires page { length page.now ≡ PAGE }
    requires room { length into.old ≡ PAGE }
{
    pager.put(block, page)?;
    pager.get(block, into)
}

#[test]
fn a_block_gives_back_the_page_that_was_put_last(rt: HostRuntime) -> Result<(), Fail> {
    let mut pager = MemPager::open(rt.alloc(), &[])?;
    let mut block = MemBlock::open(rt.alloc())?;
    assert!(rt; block.bytes().iter().all(|byte| *byte == 0));
    let mut into = vec![in rt.alloc(); 9; PAGE]?;
    for byte in [1, 2] {
        let page = vec![in rt.alloc(); byte; PAGE]?;
        assert!(rt; put_and_get(&mut pager, &mut block, &page, &mut into).is_ok());
        assert_eq!(rt; into.as_slice(), page.as_slice());
    }
    assert_eq!(rt; pager.faults(), 0);
    Ok(())
}

/// Puts and gets are numbered together: the first put, the get after it, the second put, the get after it.
#[test]
fn exactly_the_planned_calls_fail(rt: HostRuntime) -> Result<(), Fail> {
    let mut pager = MemPager::open(rt.alloc(), &[3, 2])?;
    let mut block = MemBlock::open(rt.alloc())?;
    let page = vec![in rt.alloc(); 5; PAGE]?;
    let mut into = vec![in rt.alloc(); 0; PAGE]?;
    assert_eq!(rt; pager.put(&mut block, &page), Ok(()));
    assert_eq!(rt; pager.get(&block, &mut into), Err(Failed));
    assert_eq!(rt; pager.put(&mut block, &page), Err(Failed));
    assert_eq!(rt; pager.get(&block, &mut into), Ok(()));
    assert_eq!(rt; into.as_slice(), page.as_slice());
    assert_eq!(rt; pager.faults(), 2);
    Ok(())
}
