ghost use Rattle.std.specs.Prelude.{◌≡◌, [], length};
ghost use Rattle.plain_disk.specs.Bytes.{bytes_of};

use disk::{Disk, DiskFault, Slot};
use std::alloc::{AllocError, Global};

/// The slots as reads return them.
#[derive(Drop)]
pub struct PlainDisk {
    image0: Vec<u8>,
    image1: Vec<u8>,
    segment0: Vec<u8>,
    segment1: Vec<u8>,
    failures: u64,
}

impl PlainDisk {
    /// Creates a disk with empty slots. It allocates nothing.
    pub fn new(alloc: Global) -> PlainDisk
        ensures images { (result.image0.items ≡ []) × (result.image1.items ≡ []) }
        ensures segments { (result.segment0.items ≡ []) × (result.segment1.items ≡ []) }
        ensures failures { result.failures ≡ 0 }
    {
        PlainDisk {
            image0: Vec::new(alloc),
            image1: Vec::new(alloc),
            segment0: Vec::new(alloc),
            segment1: Vec::new(alloc),
            failures: 0,
        }
    }

    /// Returns the length of a slot in bytes.
    pub fn len(&self, slot: Slot) -> u64
        ensures { result ≡ length (bytes_of self.now slot) }
    {
        self.slot(slot).len() as u64
    }

    fn slot(&self, slot: Slot) -> &[u8]
        ensures { result.now ≡ bytes_of self.now slot }
    {
        match slot {
            Slot::Image0 => &self.image0,
            Slot::Image1 => &self.image1,
            Slot::Segment0 => &self.segment0,
            Slot::Segment1 => &self.segment1,
        }
    }
}

/// Overwrites the bytes from offset `at` on, and appends those past the end.
fn put(bytes: &mut Vec<u8>, at: u64, new: &[u8]) -> Result<(), AllocError> {
    let at = (at as usize).min(bytes.len());
    bytes.reserve(new.len())?;
    for (index, byte) in new.iter().enumerate() {
        match bytes.get_mut(at.saturating_add(index)) {
            Some(place) => *place = *byte,
            None => bytes.push(*byte)?,
        }
    }
    Ok(())
}

impl Disk for PlainDisk {
    ghost use Rattle.disk.specs.Slots.{empty_slots};

    ghost honest = { ⊥ };

    ghost view = { λ plain. record { seen = empty_slots; moment = 0; left_at = λ k c. ⊥ } };

    ghost failed_calls = { λ plain. plain.failures };

    ghost calls = { λ disk. 0 };

    fn failures(&self) -> u64 {
        self.failures
    }

    fn length(&self, slot: Slot) -> u64 {
        self.len(slot)
    }

    fn read(&mut self, slot: Slot, at: u64, buffer: &mut [u8]) -> Result<usize, DiskFault> {
        let bytes = self.slot(slot);
        let from = (at as usize).min(bytes.len());
        let count = buffer.len().min(bytes.len() - from);
        for (place, byte) in buffer.iter_mut().zip(&bytes[from..]) {
            *place = *byte;
        }
        Ok(count)
    }

    fn write_at(&mut self, slot: Slot, at: u64, bytes: &[u8]) -> Result<(), DiskFault> {
        let done = match slot {
            Slot::Image0 => put(&mut self.image0, at, bytes),
            Slot::Image1 => put(&mut self.image1, at, bytes),
            Slot::Segment0 => put(&mut self.segment0, at, bytes),
            Slot::Segment1 => put(&mut self.segment1, at, bytes),
        };
        if done.is_err() {
            self.failures = self.failures.saturating_add(1);
            return Err(DiskFault);
        }
        Ok(())
    }

    fn cut(&mut self, slot: Slot, len: u64) -> Result<(), DiskFault> {
        let len = len as usize;
        match slot {
            Slot::Image0 => self.image0.truncate(len),
            Slot::Image1 => self.image1.truncate(len),
            Slot::Segment0 => self.segment0.truncate(len),
            Slot::Segment1 => self.segment1.truncate(len),
        }
        Ok(())
    }

    fn sync(&mut self, _slot: Slot) -> Result<(), DiskFault> {
        Ok(())
    }

    ghost lasts = { λ never disk. never };
}
