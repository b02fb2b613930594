// What a disk in memory keeps of the past: contents, and the calls that came after them.
ghost use Rattle.std.specs.Prelude.{◌≡◌};
ghost use Rattle.disk.specs.Slots.{slot_of, with_slot};
ghost use Rattle.disk.specs.Log.{slots_of};

use crate::Slot;

#[derive(Drop)]
pub struct Contents {
    pub image0: Vec<u8>,
    pub image1: Vec<u8>,
    pub segment0: Vec<u8>,
    pub segment1: Vec<u8>,
}

impl Contents {
    pub fn slot(&self, slot: Slot) -> &[u8]
        ensures { result.now ≡ slot_of (slots_of self.now) slot }
    {
        match slot {
            Slot::Image0 => &self.image0,
            Slot::Image1 => &self.image1,
            Slot::Segment0 => &self.segment0,
            Slot::Segment1 => &self.segment1,
        }
    }

    pub fn set(&mut self, slot: Slot, bytes: Vec<u8>)
        ensures { slots_of self.new ≡ with_slot (slots_of self.old) slot bytes.items }
    {
        match slot {
            Slot::Image0 => self.image0 = bytes,
            Slot::Image1 => self.image1 = bytes,
            Slot::Segment0 => self.segment0 = bytes,
            Slot::Segment1 => self.segment1 = bytes,
        }
    }
}

// A call that changes what a crash may leave. A call that isn't done doesn't change what a read returns.
#[derive(Drop)]
pub enum LoggedCall {
    Write {
        slot: Slot,
        at: u64,
        bytes: Vec<u8>,
        is_done: bool,
    },
    Cut {
        slot: Slot,
        len: u64,
        is_done: bool,
    },
    Sync {
        slot: Slot,
    },
}
