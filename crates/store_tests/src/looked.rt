//! The result of reading a store without opening it, which changes nothing.
use crate::expect::same;
use crate::store::Store;
use disk::{Disk, MemDisk};
use recover::look;
use std::alloc::Global;
use store_fault::StoreFault;

/// Returns the epoch of a store, its records, the next serial, and the number of its spaces.
pub(crate) fn looked<D: Disk>(
    alloc: Global,
    disk: &mut D,
) -> Result<(u64, u64, u64, usize), StoreFault> {
    let found = look(alloc, disk)?;
    let spaces = found.snapshot.ipc.spaces.as_slice().len();
    Ok((
        found.epoch,
        found.records,
        found.snapshot.ipc.next_serial,
        spaces,
    ))
}

/// Reads an empty disk.
fn look_at_nothing<S: Store + Drop>(alloc: Global) -> Result<(u64, u64, u64, usize), StoreFault> {
    let mut disk = S::empty(alloc);
    looked(alloc, &mut disk)
}

/// Reads a store that was made and closed.
fn look_at_made<S: Store + Drop>(
    alloc: Global,
) -> Option<Result<(u64, u64, u64, usize), StoreFault>> {
    let (mut disk, _) = S::empty(alloc).go_on(alloc)?;
    Some(looked(alloc, &mut disk))
}

#[test]
fn a_new_store_is_looked_at(rt: HostRuntime) {
    same(
        &rt,
        look_at_nothing::<MemDisk>(rt.alloc()),
        Ok((0, 0, 1, 1)),
    );
}

#[test]
fn a_made_store_is_looked_at(rt: HostRuntime) {
    same(
        &rt,
        look_at_made::<MemDisk>(rt.alloc()),
        Some(Ok((0, 0, 1, 1))),
    );
}
