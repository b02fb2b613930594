ghost use Rattle.std.specs.Prelude.{◌≡◌};
ghost use Rattle.slot_steps.specs.Steps.{image_slot as slot_of_image, segment_slot as slot_of_segment};

use disk::Slot;

/// The byte of an open gate: the bytes after it are valid.
pub const OPEN_GATE: u8 = 0x5a;

/// A closed gate.
pub const CLOSED_GATE: u8 = 0;

/// Length in bytes of an image slot's header: the gate, the version, six zero bytes, the epoch and the length of the
/// encoded state.
pub const IMAGE_HEADER: usize = 24;

/// Length in bytes of a segment slot's header: the gate, the version, six zero bytes and the epoch.
pub const SEGMENT_HEADER: usize = 16;

/// Returns the slot of an epoch's image.
pub fn image_slot(epoch: u64) -> Slot
    ensures { result ≡ slot_of_image epoch }
{
    if epoch % 2 == 0 {
        Slot::Image0
    } else {
        Slot::Image1
    }
}

/// Returns the slot of an epoch's segment.
pub fn segment_slot(epoch: u64) -> Slot
    ensures { result ≡ slot_of_segment epoch }
{
    if epoch % 2 == 0 {
        Slot::Segment0
    } else {
        Slot::Segment1
    }
}
