// Reads a store in use from its slots.
ghost use Rattle.std.specs.Prelude.{◌≡◌, ◌⊎◌, List, drop, Err, IfOk, IsErrOf, OnErr, OnOk, MatchBool};
ghost use Rattle.disk.specs.Moments.{CountsFailure, MayLeave, Passes, ReadsOnly};
ghost use Rattle.disk.specs.Slots.{slot_of};
ghost use Rattle.ipc_model.specs.calls.Step.{Run};
ghost use Rattle.ipc_model.specs.declared.record.Record.{Record};
ghost use Rattle.ipc_model.specs.state.State.{State};
ghost use Rattle.codes.specs.StoreVersion.{version_number};
ghost use Rattle.ipc_model.specs.store.Recovery.{HoldsImage, IsNew, version_of};
ghost use Rattle.ipc_model.specs.store.Store.{IsClosed, EncodesSegment, LeavesAnEpoch};
ghost use Rattle.recover.specs.Found.{HasOwn, ReadsOne};
ghost use Rattle.recover.specs.Headers.{Says};
ghost use Rattle.recover.specs.Outcomes.{CountsDevice, OnlyReadingFaults};
ghost use Rattle.recover.specs.Surveyed.{IsUnused};
ghost use Rattle.slot_steps.specs.Steps.{image_slot as slot_of_image, segment_slot as slot_of_segment};
ghost use Rattle.store_layout.specs.Standing.{as_written};

use crate::headers::Header;
use crate::loading::load_image;
use crate::reading::replay_segment;
use codes::StoreVersion;
use disk::{Disk, DiskFault, Slot};
use kernel::Kernel;
use slot_steps::{CLOSED_GATE, OPEN_GATE, SEGMENT_HEADER, image_slot};
use std::alloc::Global;
use store_fault::StoreFault;

/// Returns the state after an epoch's image and the records of its segment, the number of records, the offset at which
/// the last batch ends, and the segment's version.
///
/// `Damaged`: the image isn't that of a lawful state, or the records aren't a run from it.
pub(crate) fn read_epoch<D: Disk>(
    alloc: Global,
    disk: &mut D,
    epoch: u64,
) -> Result<(Kernel, u64, u64, StoreVersion), StoreFault>
    requires { D.honest → HasOwn (D.view disk.old).seen epoch }
    ensures read { D.honest → IfOk result (λ r. ReadsOne (D.view disk.old).seen epoch r.0 r.1 r.2) }
    ensures says { D.honest → IfOk result
        (λ r. version_of (slot_of (D.view disk.old).seen (slot_of_segment epoch)) ≡ version_number r.3) }
    ensures next { IfOk result (λ r. LeavesAnEpoch r.3 epoch) }
    ensures damaged { D.honest → IsErrOf result StoreFault.Damaged → (base state : State) → (records : List Record)
        → HoldsImage epoch (slot_of (D.view disk.old).seen (slot_of_image epoch)) base
        → EncodesSegment epoch (slot_of (D.view disk.old).seen (slot_of_segment epoch)) records → Run base records state
        → ⊥ }
    ensures reads_only { D.honest → ReadsOnly (D.view disk.old) (D.view disk.new) }
    ensures failures { CountsDevice (D.failed_calls disk.old) (D.failed_calls disk.new) result }
    ensures faults { OnlyReadingFaults result }
{
    let base = load_image(alloc, disk, image_slot(epoch))?;
    replay_segment(alloc, base, disk, epoch)
}

/// Returns true if segment 0 has an open batch.
fn has_batch<D: Disk>(disk: &mut D) -> Result<bool, DiskFault>
    ensures batch { D.honest → IfOk result
        (λ has. MatchBool has (IsClosed (drop 16 (D.view disk.old).seen.segment0) → ⊥)
        (IsClosed (drop 16 (D.view disk.old).seen.segment0))) }
    ensures seen { D.honest → (D.view disk.new).seen ≡ (D.view disk.old).seen }
    ensures time { D.honest → Passes (D.view disk.old) (D.view disk.new) (MayLeave (D.view disk.old)) }
    ensures failures { CountsFailure (D.failed_calls disk.old) (D.failed_calls disk.new) result }
{
    let mut gate = [CLOSED_GATE];
    disk.read(Slot::Segment0, SEGMENT_HEADER as u64, &mut gate)?;
    Ok(gate[0] == OPEN_GATE)
}

/// Checks that a store without an image was never in use: segment 0 has no batch if it is open.
///
/// `Damaged`: it has a batch.
pub(crate) fn have_no_batch<D: Disk>(disk: &mut D, segment: Header) -> Result<(), StoreFault>
    requires unused { D.honest → IsUnused (D.view disk.old).seen }
    requires says { D.honest → Says 16 (D.view disk.old).seen.segment0 segment }
    ensures new { D.honest → OnOk result (IsNew (as_written (D.view disk.old).seen)) }
    ensures damaged { D.honest → IsErrOf result StoreFault.Damaged → IsNew (as_written (D.view disk.old).seen) → ⊥ }
    ensures reads_only { D.honest → ReadsOnly (D.view disk.old) (D.view disk.new) }
    ensures failures { CountsDevice (D.failed_calls disk.old) (D.failed_calls disk.new) result }
    ensures faults { OnErr result ((result ≡ Err StoreFault.Device) ⊎ (result ≡ Err StoreFault.Damaged)) }
{
    if segment == Header::Closed {
        return Ok(());
    }
    if has_batch(disk)? {
        return Err(StoreFault::Damaged);
    }
    Ok(())
}
