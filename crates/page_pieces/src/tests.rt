ghost use Rattle.std.specs.Prelude.{◌≡◌, length};
ghost use Rattle.cmm_types.specs.declared.page.TheConstants.{PAGE};

use crate::{Piece, pieces};
use cmm_types::PAGE;
use std::test::Fail;

/// Pieces may go to other threads.
fn crosses<T: Send + Sync>(_value: &T) {}

/// A caller that fills a piece.
fn fill_piece(piece: &mut Piece, page: &[u8])
    requires { length page.now ≡ PAGE }
    ensures { piece.new ≡ page.now }
{
    piece.bytes_mut().copy_from_slice(page);
}

fn holds_only(piece: &Piece, byte: u8) -> bool {
    piece.bytes().len() == PAGE && piece.bytes().iter().all(|held| *held == byte)
}

#[test]
fn pieces_hold_zeros_until_they_are_written(rt: HostRuntime) -> Result<(), Fail> {
    let mut made = pieces(rt.alloc(), 3)?;
    assert_eq!(rt; made.len(), 3);
    for piece in &made {
        crosses(piece);
        assert!(rt; holds_only(piece, 0));
    }
    let page = vec![in rt.alloc(); 7; PAGE]?;
    fill_piece(&mut made[1], &page);
    made[2].set(&page);
    made[2].bytes_mut()[0] = 7;
    assert!(rt; holds_only(&made[0], 0));
    assert!(rt; holds_only(&made[1], 7));
    assert!(rt; holds_only(&made[2], 7));
    Ok(())
}

#[test]
fn a_written_byte_leaves_the_others_of_its_page_zero(rt: HostRuntime) -> Result<(), Fail> {
    let mut made = pieces(rt.alloc(), 2)?;
    made[1].bytes_mut()[PAGE - 1] = 9;
    assert!(rt; holds_only(&made[0], 0));
    let written = made[1].bytes();
    assert_eq!(rt; written[PAGE - 1], 9);
    assert!(rt; written[..PAGE - 1].iter().all(|held| *held == 0));
    Ok(())
}

#[test]
fn no_pieces_are_asked_for(rt: HostRuntime) -> Result<(), Fail> {
    assert!(rt; pieces(rt.alloc(), 0)?.is_empty());
    Ok(())
}
