//! What inspectors print of the store on a disk. Nothing has a clause, and everything is generic in the disk, so that a
//! test's proof carries nothing of a disk or of what is printed.

use crate::store::Store;
use disk::{Disk, Slot};
use inspect::{ListFault, list, sketch};
use std::alloc::Global;

/// Returns whether a slot of both disks holds the same.
fn is_alike<S: Store>(one: &S, other: &S, slot: Slot) -> bool {
    one.bytes(slot) == other.bytes(slot)
}

/// Returns whether all slots of both disks do.
pub(crate) fn are_alike<S: Store>(one: &S, other: &S) -> bool {
    let are = [
        is_alike(one, other, Slot::Image0),
        is_alike(one, other, Slot::Image1),
        is_alike(one, other, Slot::Segment0),
        is_alike(one, other, Slot::Segment1),
    ];
    are == [true; 4]
}

/// The lines of a store, or why it can't be listed.
pub(crate) fn listed<D: Disk>(alloc: Global, disk: &mut D) -> Result<Vec<u8>, ListFault> {
    let mut lines = Vec::new(alloc);
    list(alloc, disk, &mut lines)?;
    Ok(lines)
}

/// The lines of a store that can be listed.
pub(crate) fn lines_of<D: Disk>(alloc: Global, disk: &mut D) -> Option<Vec<u8>> {
    listed(alloc, disk).ok()
}

/// The drawing of a store.
pub(crate) fn drawing_of<D: Disk>(alloc: Global, disk: &mut D) -> Option<Vec<u8>> {
    let mut drawing = Vec::new(alloc);
    sketch(alloc, disk, &mut drawing).ok()?;
    Some(drawing)
}
