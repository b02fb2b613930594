// The writes of opening a store.
ghost use Rattle.std.specs.Prelude.{◌≡◌, ◌+◌, ◌≤◌, ◌<◌, ◌++◌, ◌∷◌, [], length, take, OnOk, IfOk};
ghost use Rattle.disk.specs.Slots.{slot_of, with_slot};
ghost use Rattle.disk.specs.Moments.{CountsFailure, Follows, IsSynced, MayLeave, Passes};
ghost use Rattle.ipc_model.specs.store.Store.{closed_gate};
ghost use Rattle.recover.specs.AtRest.{IsAtRest};
ghost use Rattle.recover.specs.Making.{DiffersIn, empty_segment};
ghost use Rattle.slot_steps.specs.Steps.{IsRemade, segment_slot as slot_of_epoch};

use disk::{Disk, DiskFault, Slot};
use journal::{Segment, roll_close, roll_head, roll_open};
use slot_steps::CLOSED_GATE;

/// Syncs the four slots, so that later reads return what a crash would leave.
pub(crate) fn sync_all<D: Disk>(disk: &mut D) -> Result<(), DiskFault>
    ensures seen { D.honest → (D.view disk.new).seen ≡ (D.view disk.old).seen }
    ensures time { D.honest → Passes (D.view disk.old) (D.view disk.new) (MayLeave (D.view disk.old)) }
    ensures rest { D.honest → OnOk result (IsAtRest (D.view disk.new)) }
    ensures failures { CountsFailure (D.failed_calls disk.old) (D.failed_calls disk.new) result }
{
    disk.sync(Slot::Image0)?;
    disk.sync(Slot::Image1)?;
    disk.sync(Slot::Segment0)?;
    disk.sync(Slot::Segment1)
}

/// Creates an epoch's segment without records.
pub(crate) fn make_segment<D: Disk>(disk: &mut D, epoch: u64) -> Result<Segment, DiskFault>
    ensures made { D.honest → OnOk result
        ((D.view disk.new).seen ≡ with_slot (D.view disk.old).seen (slot_of_epoch epoch) (empty_segment epoch)) }
    ensures synced { D.honest → OnOk result (IsSynced (D.view disk.new) (slot_of_epoch epoch)) }
    ensures any_moment { D.honest → IsSynced (D.view disk.old) (slot_of_epoch epoch)
        → Passes (D.view disk.old) (D.view disk.new)
        (Follows (D.view disk.old) (slot_of_epoch epoch) (IsRemade 16 (empty_segment epoch))) }
    ensures segment { IfOk result (λ segment. segment ≡ record { epoch = epoch; records = 0 }) }
    ensures failures { CountsFailure (D.failed_calls disk.old) (D.failed_calls disk.new) result }
{
    roll_close(disk, epoch)?;
    roll_head(disk, epoch)?;
    roll_open(disk, epoch)
}

/// Ends a segment at offset `end`, after its last batch: with the closed gate that is there, or with a new one if the
/// slot ends there.
pub(crate) fn end_segment<D: Disk>(disk: &mut D, slot: Slot, end: u64) -> Result<(), DiskFault>
    requires { D.honest → end ≤ length (slot_of (D.view disk.old).seen slot) }
    ensures ended { D.honest → OnOk result ((D.view disk.new).seen ≡ with_slot (D.view disk.old).seen slot
        (take (end + 1) (slot_of (D.view disk.old).seen slot ++ closed_gate ∷ []))) }
    ensures rest { D.honest → IsAtRest (D.view disk.old) → OnOk result (IsAtRest (D.view disk.new)) }
    // If the gate is there already, a crash keeps all bytes up to it.
    ensures any_moment { D.honest → IsAtRest (D.view disk.old) → end < length (slot_of (D.view disk.old).seen slot)
        → Passes (D.view disk.old) (D.view disk.new) (DiffersIn (D.view disk.old).seen slot
        (λ after. take (end + 1) after ≡ take (end + 1) (slot_of (D.view disk.old).seen slot))) }
    ensures failures { CountsFailure (D.failed_calls disk.old) (D.failed_calls disk.new) result }
{
    if disk.length(slot) <= end {
        disk.write_at(slot, end, &[CLOSED_GATE])?;
        return disk.sync(slot);
    }
    disk.cut(slot, end + 1)?;
    disk.sync(slot)
}
