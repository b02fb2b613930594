//! A disk that counts its use, and whose syncs can be turned off, so that stores are made in a short time.

use disk::{Disk, DiskFault, Slot};
use std::cell::Cell;

/// The use of a disk so far, and true if its syncs are on.
#[derive(Drop)]
pub(crate) struct Watch {
    writes: Cell<u64>,
    bytes: Cell<u64>,
    is_syncing: Cell<bool>,
}

impl Watch {
    /// Creates a watch without any use.
    pub(crate) fn new(is_syncing: bool) -> Watch {
        Watch {
            writes: Cell::new(0),
            bytes: Cell::new(0),
            is_syncing: Cell::new(is_syncing),
        }
    }

    /// Returns the number of writes and truncations.
    pub(crate) fn writes(&self) -> u64 {
        self.writes.get()
    }

    /// Returns the total length of the slots in bytes.
    pub(crate) fn bytes(&self) -> u64 {
        self.bytes.get()
    }

    /// Turns syncs on.
    pub(crate) fn begin_syncs(&self) {
        self.is_syncing.set(true);
    }
}

/// A disk, and its watch.
#[derive(Drop)]
pub(crate) struct Watched<'a, D> {
    pub(crate) disk: D,
    pub(crate) watch: &'a Watch,
}

impl<'a, D: Disk> Watched<'a, D> {
    /// Updates the watch after a write.
    fn tell(&self) {
        let mut bytes = 0u64;
        for slot in [Slot::Image0, Slot::Image1, Slot::Segment0, Slot::Segment1] {
            bytes = bytes.saturating_add(self.disk.length(slot));
        }
        self.watch.bytes.set(bytes);
        self.watch
            .writes
            .set(self.watch.writes.get().saturating_add(1));
    }
}

impl<'a, D: Disk> Disk for Watched<'a, D> {
    // There is no disk model: without syncs a crash may leave anything.
    ghost honest = { ⊥ };

    ghost view = { λ watched. D.view watched.disk };

    ghost failed_calls = { λ watched. D.failed_calls watched.disk };

    ghost calls = { λ watched. D.calls watched.disk };

    fn failures(&self) -> u64 {
        self.disk.failures()
    }

    fn length(&self, slot: Slot) -> u64 {
        self.disk.length(slot)
    }

    fn read(&mut self, slot: Slot, at: u64, buffer: &mut [u8]) -> Result<usize, DiskFault> {
        self.disk.read(slot, at, buffer)
    }

    fn write_at(&mut self, slot: Slot, at: u64, bytes: &[u8]) -> Result<(), DiskFault> {
        let at = at.min(self.disk.length(slot));
        let written = self.disk.write_at(slot, at, bytes);
        self.tell();
        written
    }

    fn cut(&mut self, slot: Slot, len: u64) -> Result<(), DiskFault> {
        let len = len.min(self.disk.length(slot));
        let cut = self.disk.cut(slot, len);
        self.tell();
        cut
    }

    fn sync(&mut self, slot: Slot) -> Result<(), DiskFault> {
        if self.watch.is_syncing.get() {
            return self.disk.sync(slot);
        }
        Ok(())
    }

    ghost lasts = { λ never watched. absurd never };
}
