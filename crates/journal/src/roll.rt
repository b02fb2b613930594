// Creates a new segment in the slot of an epoch in three steps: close the slot, write the header after the gate, open
// the gate.
ghost use Rattle.std.specs.Prelude.{◌≡◌, ◌<◌, ◌++◌, ◌∷◌, [], length, take, drop, IfOk, OnOk, ◌≤◌, ◌+◌};
ghost use Rattle.disk.specs.Slots.{slot_of, with_slot};
ghost use Rattle.disk.specs.Moments.{IsSynced, Passes, Follows, CountsFailure};
ghost use Rattle.ipc_model.specs.store.Store.{epoch_encoding, open_gate, closed_gate, IsClosed};
ghost use Rattle.slot_steps.specs.Steps.{HasSomeGate, IsClosing, IsShut, IsStillClosed, segment_slot as slot_of_epoch};

use crate::Segment;
use codes::StoreVersion;
use disk::{Disk, DiskFault, Slot};
use slot_steps::{
    CLOSED_GATE, OPEN_GATE, SEGMENT_HEADER, close_slot, cut_after, segment_slot, sync_after,
    write_after, write_gate,
};

/// Returns the bytes after the gate of a segment without batches: the version, six zero bytes, its epoch, and a closed
/// gate.
fn segment_start(epoch: u64) -> [u8; 16]
    ensures { result ≡ epoch_encoding epoch ++ closed_gate ∷ [] }
{
    let [a, b, c, d, e, f, g, h] = epoch.to_le_bytes();
    let version = StoreVersion::current().number();
    [
        version,
        0,
        0,
        0,
        0,
        0,
        0,
        a,
        b,
        c,
        d,
        e,
        f,
        g,
        h,
        CLOSED_GATE,
    ]
}

/// Writes a segment's header after a slot's gate, and a closed gate after the header.
fn write_header<D: Disk>(disk: &mut D, slot: Slot, epoch: u64) -> Result<(), DiskFault>
    requires { D.honest → 0 < length (slot_of (D.view disk.old).seen slot) }
    ensures header { D.honest → OnOk result ((D.view disk.new).seen ≡ with_slot (D.view disk.old).seen slot
        (take 1 (slot_of (D.view disk.old).seen slot) ++ (epoch_encoding epoch ++ closed_gate ∷ []))) }
    ensures synced { D.honest → OnOk result (IsSynced (D.view disk.new) slot) }
    ensures any_moment { D.honest → IsShut (D.view disk.old) slot
        → Passes (D.view disk.old) (D.view disk.new) (Follows (D.view disk.old) slot IsStillClosed) }
    ensures failures { CountsFailure (D.failed_calls disk.old) (D.failed_calls disk.new) result }
    ensures calls { D.calls disk.new ≤ D.calls disk.old + 3 }
{
    cut_after(disk, slot, 1)?;
    write_after(disk, slot, 1, &segment_start(epoch))?;
    sync_after(disk, slot)
}

/// Closes the gate at the front of the slot of an epoch's segment.
pub fn roll_close<D: Disk>(disk: &mut D, epoch: u64) -> Result<(), DiskFault>
    ensures begun { D.honest → OnOk result (0 < length (slot_of (D.view disk.new).seen (slot_of_epoch epoch))) }
    ensures closed { D.honest → OnOk result (IsClosed (slot_of (D.view disk.new).seen (slot_of_epoch epoch))) }
    ensures others { D.honest → OnOk result ((D.view disk.new).seen
        ≡ with_slot (D.view disk.old).seen (slot_of_epoch epoch)
        (slot_of (D.view disk.new).seen (slot_of_epoch epoch))) }
    ensures synced { D.honest → OnOk result (IsSynced (D.view disk.new) (slot_of_epoch epoch)) }
    ensures any_moment { D.honest → IsSynced (D.view disk.old) (slot_of_epoch epoch)
        → Passes (D.view disk.old) (D.view disk.new) (Follows (D.view disk.old) (slot_of_epoch epoch) (IsClosing 16)) }
    ensures failures { CountsFailure (D.failed_calls disk.old) (D.failed_calls disk.new) result }
    ensures calls { D.calls disk.new ≤ D.calls disk.old + 3 }
{
    close_slot(disk, segment_slot(epoch), SEGMENT_HEADER)
}

/// Writes the header of an epoch's segment after the closed gate of its slot, and a closed gate after the header.
pub fn roll_head<D: Disk>(disk: &mut D, epoch: u64) -> Result<(), DiskFault>
    requires { D.honest → 0 < length (slot_of (D.view disk.old).seen (slot_of_epoch epoch)) }
    ensures header { D.honest → OnOk result
        ((D.view disk.new).seen ≡ with_slot (D.view disk.old).seen (slot_of_epoch epoch)
        (take 1 (slot_of (D.view disk.old).seen (slot_of_epoch epoch)) ++ (epoch_encoding epoch ++ closed_gate ∷ []))) }
    ensures synced { D.honest → OnOk result (IsSynced (D.view disk.new) (slot_of_epoch epoch)) }
    ensures any_moment { D.honest → IsShut (D.view disk.old) (slot_of_epoch epoch)
        → Passes (D.view disk.old) (D.view disk.new) (Follows (D.view disk.old) (slot_of_epoch epoch) IsStillClosed) }
    ensures failures { CountsFailure (D.failed_calls disk.old) (D.failed_calls disk.new) result }
    ensures calls { D.calls disk.new ≤ D.calls disk.old + 3 }
{
    write_header(disk, segment_slot(epoch), epoch)
}

/// Opens the gate of the slot of an epoch's segment. From then on the segment is in use.
pub fn roll_open<D: Disk>(disk: &mut D, epoch: u64) -> Result<Segment, DiskFault>
    ensures written { D.honest → OnOk result ((D.view disk.new).seen
        ≡ with_slot (D.view disk.old).seen (slot_of_epoch epoch)
        (open_gate ∷ drop 1 (slot_of (D.view disk.old).seen (slot_of_epoch epoch)))) }
    ensures synced { D.honest → OnOk result (IsSynced (D.view disk.new) (slot_of_epoch epoch)) }
    ensures any_moment { D.honest
        → Passes (D.view disk.old) (D.view disk.new) (Follows (D.view disk.old) (slot_of_epoch epoch) HasSomeGate) }
    ensures segment { IfOk result (λ segment. segment ≡ record { epoch = epoch; records = 0 }) }
    ensures failures { CountsFailure (D.failed_calls disk.old) (D.failed_calls disk.new) result }
    ensures calls { D.calls disk.new ≤ D.calls disk.old + 2 }
{
    write_gate(disk, segment_slot(epoch), OPEN_GATE)?;
    Ok(Segment { epoch, records: 0 })
}
