// The fronts of the slots. A front changes before the bytes after it are overwritten.
ghost use Rattle.std.specs.Prelude.{◌≡◌, ◌≢◌, ◌↔◌, ◌≤◌, IfErr, IfOk, IsTrue, take};
ghost use Rattle.disk.specs.Slots.{slot_of};
ghost use Rattle.inspect.specs.still_disk.Copying.{counted};
ghost use Rattle.inspect.specs.still_disk.Fronts.{front_slots};
ghost use Rattle.inspect.specs.still_disk.Live.{FrontsRead};

use crate::still_disk::{CopyFault, LiveSlots};
use disk::Slot;
use slot_steps::{IMAGE_HEADER, SEGMENT_HEADER};
use std::alloc::Global;

/// The front of each slot: the length of its header, or the whole slot if that is shorter.
#[derive(Drop)]
pub(crate) struct Fronts {
    pub(crate) image0: Vec<u8>,
    pub(crate) image1: Vec<u8>,
    pub(crate) segment0: Vec<u8>,
    pub(crate) segment1: Vec<u8>,
}

impl Fronts {
    /// Returns true if the fronts are equal.
    pub(crate) fn are(&self, others: &Fronts) -> bool
        ensures { IsTrue result ↔ (front_slots self.now ≡ front_slots others.now) }
    {
        self.image0 == others.image0
            && self.image1 == others.image1
            && self.segment0 == others.segment0
            && self.segment1 == others.segment1
    }
}

/// Reads the front of a slot: `size` bytes, or the whole slot if that is shorter.
fn read_front<S: LiveSlots>(
    alloc: Global,
    live: &mut S,
    slot: Slot,
    size: usize,
) -> Result<Vec<u8>, CopyFault>
    requires { size ≤ 24 }
    ensures front { S.honest → IfOk result
        (λ front. front.items ≡ take size (slot_of (S.slots (S.now live.new)) slot)) }
    ensures later { S.honest → S.later (S.now live.old) (S.now live.new) }
    ensures idle { IfErr result (λ fault. fault ≢ CopyFault.Busy) }
    ensures failures { S.failed live.new ≡ counted result (S.failed live.old) }
{
    let mut front = [0; IMAGE_HEADER];
    let count = live.read_live(slot, 0, &mut front)?.min(size);
    Ok(front[..count].to_vec(alloc)?)
}

/// Reads the fronts of the four slots.
pub(crate) fn read_fronts<S: LiveSlots>(alloc: Global, live: &mut S) -> Result<Fronts, CopyFault>
    ensures fronts { S.honest → IfOk result
        (λ fronts. FrontsRead S.later S.slots (S.now live.old) (S.now live.new) (front_slots fronts)) }
    ensures later { S.honest → S.later (S.now live.old) (S.now live.new) }
    ensures idle { IfErr result (λ fault. fault ≢ CopyFault.Busy) }
    ensures failures { S.failed live.new ≡ counted result (S.failed live.old) }
{
    let image0 = read_front(alloc, live, Slot::Image0, IMAGE_HEADER)?;
    let image1 = read_front(alloc, live, Slot::Image1, IMAGE_HEADER)?;
    let segment0 = read_front(alloc, live, Slot::Segment0, SEGMENT_HEADER)?;
    let segment1 = read_front(alloc, live, Slot::Segment1, SEGMENT_HEADER)?;
    Ok(Fronts {
        image0,
        image1,
        segment0,
        segment1,
    })
}
