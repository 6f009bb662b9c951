// Which guests' groups have ended: one cell for each guest, in which its group stores 1 at its end.
use crossbeam_utils::atomic::AtomicCell;
use std::alloc::{AllocError, Global};

/// A cell for each of so many guests.
pub fn open_ended(alloc: Global, guests: usize) -> Result<Vec<AtomicCell<u32>>, AllocError> {
    let mut ended = Vec::with_capacity(alloc, guests)?;
    for _ in 0..guests {
        ended.push(AtomicCell::new(0))?;
    }
    Ok(ended)
}

/// Tells the reclaimers that a guest's group has ended.
pub fn tell(ended: &[AtomicCell<u32>], guest: usize) {
    if let Some(cell) = ended.get(guest) {
        cell.store(1);
    }
}

/// Whether each guest's group has told that it ended.
pub fn all_ended(ended: &[AtomicCell<u32>]) -> bool {
    for cell in ended {
        if cell.load() == 0 {
            return false;
        }
    }
    true
}
