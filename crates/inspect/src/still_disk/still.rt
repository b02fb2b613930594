// A disk in memory that nobody writes to.
ghost use Rattle.std.specs.Prelude.{◌≡◌, ◌-◌, ◌++◌, length, take, drop, min, IfOk};
ghost use Rattle.disk.specs.Moments.{one_more};
ghost use Rattle.disk.specs.Slots.{slot_of};
ghost use Rattle.inspect.specs.still_disk.Fronts.{front_slots};
ghost use Rattle.inspect.specs.still_disk.Live.{fronts_of};
ghost use Rattle.inspect.specs.still_disk.Still.{still_slots};

use crate::still_disk::fronts::Fronts;
use disk::{Disk, DiskFault, Slot};
use slot_steps::{IMAGE_HEADER, SEGMENT_HEADER};
use std::alloc::{AllocError, Global};

/// Four slots in memory. Writes and truncations fail and change nothing.
pub struct StillDisk {
    pub(crate) image0: Vec<u8>,
    pub(crate) image1: Vec<u8>,
    pub(crate) segment0: Vec<u8>,
    pub(crate) segment1: Vec<u8>,
    pub(crate) failures: u64,
}

// Written by hand, so that proofs of the crates above depend on one function instead of its parts.
impl Drop for StillDisk {
    fn drop(self) {
        let StillDisk {
            image0,
            image1,
            segment0,
            segment1,
            failures: _,
        } = self;
        drop(image0);
        drop(image1);
        drop(segment0);
        drop(segment1);
    }
}

impl StillDisk {
    fn slot(&self, slot: Slot) -> &[u8]
        ensures { result.now ≡ slot_of (still_slots self.now) slot }
    {
        match slot {
            Slot::Image0 => &self.image0,
            Slot::Image1 => &self.image1,
            Slot::Segment0 => &self.segment0,
            Slot::Segment1 => &self.segment1,
        }
    }

    /// Copies the fronts of the slots.
    pub(crate) fn fronts(&self, alloc: Global) -> Result<Fronts, AllocError>
        ensures { IfOk result (λ fronts. front_slots fronts ≡ fronts_of (still_slots self.now)) }
    {
        Ok(Fronts {
            image0: front_of(alloc, &self.image0, IMAGE_HEADER)?,
            image1: front_of(alloc, &self.image1, IMAGE_HEADER)?,
            segment0: front_of(alloc, &self.segment0, SEGMENT_HEADER)?,
            segment1: front_of(alloc, &self.segment1, SEGMENT_HEADER)?,
        })
    }

    fn refuse(&mut self) -> DiskFault
        ensures slots { still_slots self.new ≡ still_slots self.old }
        ensures failures { self.new.failures ≡ one_more self.old.failures }
    {
        self.failures = self.failures.saturating_add(1);
        DiskFault
    }
}

/// Copies the front of these bytes: `size` of them, or all if there are fewer.
fn front_of(alloc: Global, bytes: &[u8], size: usize) -> Result<Vec<u8>, AllocError>
    ensures { IfOk result (λ front. front.items ≡ take size bytes.now) }
{
    bytes[..size.min(bytes.len())].to_vec(alloc)
}

/// Copies bytes from offset `at` on into the buffer, and returns the number of bytes.
fn fill(buffer: &mut [u8], bytes: &[u8], at: u64) -> usize
    ensures count { result ≡ min (length buffer.old) (length bytes.now - at) }
    ensures bytes { buffer.new ≡ take result (drop at bytes.now) ++ drop result buffer.old }
{
    let at = at as usize;
    if at >= bytes.len() {
        return 0;
    }
    let count = buffer.len().min(bytes.len() - at);
    buffer[..count].copy_from_slice(&bytes[at..at + count]);
    count
}

impl Disk for StillDisk {
    ghost use Rattle.std.specs.Prelude.{refl};
    ghost use Rattle.inspect.specs.still_disk.Still.{still_view};

    ghost honest = { Unit {0} };

    ghost view = { still_view };

    ghost failed_calls = { λ copy. copy.failures };

    ghost calls = { λ copy. 0 };

    fn failures(&self) -> u64 {
        self.failures
    }

    fn length(&self, slot: Slot) -> u64 {
        self.slot(slot).len() as u64
    }

    fn read(&mut self, slot: Slot, at: u64, buffer: &mut [u8]) -> Result<usize, DiskFault> {
        Ok(fill(buffer, self.slot(slot), at))
    }

    fn write_at(&mut self, _slot: Slot, _at: u64, _bytes: &[u8]) -> Result<(), DiskFault> {
        Err(self.refuse())
    }

    fn cut(&mut self, _slot: Slot, _len: u64) -> Result<(), DiskFault> {
        Err(self.refuse())
    }

    fn sync(&mut self, _slot: Slot) -> Result<(), DiskFault> {
        Ok(())
    }

    ghost lasts = { λ honest disk. refl };
}
