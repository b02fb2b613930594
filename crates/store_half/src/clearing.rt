ghost use Rattle.std.specs.Prelude.{◌+◌, ◌≤◌, IfOk, MatchBool};
ghost use Rattle.disk.specs.Moments.{CountsFailure, Follows, IsSynced, Passes};
ghost use Rattle.slot_steps.specs.Steps.{ClearsSlot, FindsSlotClear, IsClosing, segment_slot as slot_of_epoch};

use disk::{Disk, DiskFault};
use slot_steps::{SEGMENT_HEADER, clear_slot, segment_slot};

/// Maximum number of bytes that one step truncates. Such a truncation takes about 2 ms on ext4, and delays batches.
const CLEARED_BYTES: u64 = 1_048_576;

/// Takes the next step to clear the slot of an epoch's segment. Returns true if there was one.
pub(crate) fn clear_segment<D: Disk>(disk: &mut D, epoch: u64) -> Result<bool, DiskFault>
    ensures done { D.honest → IfOk result (λ is_step. MatchBool is_step
        (ClearsSlot 16 CLEARED_BYTES (D.view disk.old) (D.view disk.new) (slot_of_epoch epoch))
        (FindsSlotClear 16 (D.view disk.old) (D.view disk.new) (slot_of_epoch epoch))) }
    ensures any_moment { D.honest → IsSynced (D.view disk.old) (slot_of_epoch epoch)
        → Passes (D.view disk.old) (D.view disk.new) (Follows (D.view disk.old) (slot_of_epoch epoch) (IsClosing 16)) }
    ensures failures { CountsFailure (D.failed_calls disk.old) (D.failed_calls disk.new) result }
    ensures calls { D.calls disk.new ≤ D.calls disk.old + 3 }
{
    clear_slot(disk, segment_slot(epoch), SEGMENT_HEADER, CLEARED_BYTES)
}
