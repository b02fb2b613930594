ghost use Rattle.std.specs.Prelude.{◌≡◌, ◌⊎◌, ◌↔◌, ◌≤◌, ℕ, IsTrue, IfOk, OnErr, IsErrOf, length};
ghost use Rattle.codes.specs.StoreVersion.{version_number};
ghost use Rattle.codes.specs.declared.store_version.StoreVersion.{StoreVersion};
ghost use Rattle.disk.specs.Slots.{slot_of};
ghost use Rattle.disk.specs.Moments.{ReadsOnly};
ghost use Rattle.ipc_model.specs.calls.Step.{Replays};
ghost use Rattle.ipc_model.specs.state.State.{State};
ghost use Rattle.ipc_model.specs.store.Recovery.{version_of};
ghost use Rattle.ipc_model.specs.store.Store.{IsLimitOf, IsWithin, LeavesAnEpoch};
ghost use Rattle.journal.specs.Readers.{place_of};
ghost use Rattle.journal.specs.Windows.{IsOver};
ghost use Rattle.recover.specs.Replayed.{ReplaysAll, ReplaysFrom, ReplaysNone};
ghost use Rattle.recover.specs.Outcomes.{CountsDevice, OnlyReadingFaults};
ghost use Rattle.slot_steps.specs.Steps.{segment_slot as slot_of_segment};

use crate::headers::read_version;
use crate::value_after::both;
use codes::StoreVersion;
use disk::{Disk, Slot};
use ipc_model::{Call, PlainCall, Record};
use journal::{PIECE, RecordReader};
use kernel::{Kernel, ReplayFault};
use slot_steps::{SEGMENT_HEADER, segment_slot};
use std::alloc::Global;
use store_fault::StoreFault;

/// Returns true if a slot of this version may give a port's queue this limit.
pub(crate) fn is_limit(version: StoreVersion, limit: u32) -> bool
    ensures { IsTrue result ↔ IsLimitOf version limit }
{
    match version {
        StoreVersion::One => limit <= version.greatest_limit(),
        StoreVersion::Two => true,
    }
}

/// Returns true if a segment of this version may contain a record of this call.
fn is_within(version: StoreVersion, call: &Call) -> bool
    ensures { IsTrue result ↔ IsWithin version call.now }
{
    match call {
        Call::Plain(PlainCall::SetQlimit { limit, .. }) => is_limit(version, *limit),
        Call::Numbered(_) => version != StoreVersion::One,
        _ => true,
    }
}

/// Returns the state after a record of a segment of this version.
///
/// `Damaged`: the record is no step of the machine, or sets a limit or numbers a call as the version doesn't allow.
/// `NoMemory`: out of memory.
fn replay_one(version: StoreVersion, kernel: Kernel, entry: Record) -> Result<Kernel, StoreFault>
    ensures step { IfOk result (λ state. Replays kernel entry state) }
    ensures only { IfOk result (λ state. (other : State) → Replays kernel entry other → other ≡ state) }
    ensures within { IfOk result (λ state. IsWithin version entry.call) }
    ensures damaged { IsErrOf result StoreFault.Damaged → IsWithin version entry.call → (state : State)
        → Replays kernel entry state → ⊥ }
    ensures faults { OnErr result ((result ≡ Err StoreFault.Damaged) ⊎ (result ≡ Err StoreFault.NoMemory)) }
{
    if !is_within(version, &entry.call) {
        drop(kernel);
        drop(entry);
        return Err(StoreFault::Damaged);
    }
    match kernel.replay(&entry) {
        Ok(state) => Ok(state),
        Err(ReplayFault::Mismatch) => Err(StoreFault::Damaged),
        Err(ReplayFault::NoMemory) => Err(StoreFault::NoMemory),
    }
}

/// Returns the state after the remaining records of a segment, each replayed as it is read.
///
/// `Damaged`: the segment encodes no batches from here on, or a record is no step of the machine. `NoMemory`: out of
/// memory. `Device`: the device failed.
fn replay_all<D: Disk>(
    version: StoreVersion,
    kernel: Kernel,
    reader: &mut RecordReader,
    disk: &mut D,
    slot: Slot,
) -> Result<Kernel, StoreFault>
    requires slot { reader.old.window.slot ≡ slot }
    requires over { D.honest → IsOver (slot_of (D.view disk.old).seen slot) reader.old.window }
    ensures state { D.honest → IfOk result (λ state. ReplaysFrom version (slot_of (D.view disk.old).seen slot)
        (place_of reader.old) kernel state reader.new.number reader.new.window.at) }
    ensures damaged { D.honest → IsErrOf result StoreFault.Damaged → (state : State) → (count end : ℕ)
        → ReplaysFrom version (slot_of (D.view disk.old).seen slot) (place_of reader.old) kernel state count end → ⊥ }
    ensures reads_only { D.honest → ReadsOnly (D.view disk.old) (D.view disk.new) }
    ensures failures { CountsDevice (D.failed_calls disk.old) (D.failed_calls disk.new) result }
    ensures faults { OnlyReadingFaults result }
{
    let mut state = kernel;
    loop {
        let next = reader.next(disk);
        let (now, next) = both(state, next)?;
        let Some(entry) = next else {
            return Ok(now);
        };
        state = replay_one(version, now, entry)?;
    }
}

/// Returns the version in the header of an epoch's segment.
///
/// `Damaged`: the version is unknown, or it is 1 and the epoch is the last possible one.
fn segment_version<D: Disk>(disk: &mut D, epoch: u64) -> Result<StoreVersion, StoreFault>
    requires { D.honest → 16 ≤ length (slot_of (D.view disk.old).seen (slot_of_segment epoch)) }
    ensures says { D.honest → IfOk result
        (λ version. version_of (slot_of (D.view disk.old).seen (slot_of_segment epoch)) ≡ version_number version) }
    ensures next { IfOk result (λ version. LeavesAnEpoch version epoch) }
    ensures damaged { D.honest → IsErrOf result StoreFault.Damaged → (version : StoreVersion)
        → version_of (slot_of (D.view disk.old).seen (slot_of_segment epoch)) ≡ version_number version
        → LeavesAnEpoch version epoch → ⊥ }
    ensures reads_only { D.honest → ReadsOnly (D.view disk.old) (D.view disk.new) }
    ensures failures { CountsDevice (D.failed_calls disk.old) (D.failed_calls disk.new) result }
    ensures faults { OnlyReadingFaults result }
{
    let version = read_version(disk, segment_slot(epoch))?;
    if version == StoreVersion::One && epoch == u64::MAX {
        return Err(StoreFault::Damaged);
    }
    Ok(version)
}

/// Returns the state after the records of an epoch's segment of this version, the number of records, and the offset at
/// which the last batch ends.
fn replay_segment_in<D: Disk>(
    alloc: Global,
    kernel: Kernel,
    disk: &mut D,
    epoch: u64,
    version: StoreVersion,
) -> Result<(Kernel, u64, u64), StoreFault>
    requires inside { D.honest → 16 ≤ length (slot_of (D.view disk.old).seen (slot_of_segment epoch)) }
    requires says { D.honest
        → version_of (slot_of (D.view disk.old).seen (slot_of_segment epoch)) ≡ version_number version }
    requires next { LeavesAnEpoch version epoch }
    ensures state { D.honest → IfOk result
        (λ r. ReplaysAll epoch (slot_of (D.view disk.old).seen (slot_of_segment epoch)) kernel r.0 r.1 r.2) }
    ensures damaged { D.honest → IsErrOf result StoreFault.Damaged
        → ReplaysNone epoch (slot_of (D.view disk.old).seen (slot_of_segment epoch)) kernel }
    ensures reads_only { D.honest → ReadsOnly (D.view disk.old) (D.view disk.new) }
    ensures failures { CountsDevice (D.failed_calls disk.old) (D.failed_calls disk.new) result }
    ensures faults { OnlyReadingFaults result }
{
    let slot = segment_slot(epoch);
    let made = RecordReader::new(alloc, disk, slot, SEGMENT_HEADER as u64, PIECE);
    let (base, mut reader) = both(kernel, made)?;
    let kernel = replay_all(version, base, &mut reader, disk, slot)?;
    Ok((kernel, reader.number(), reader.at()))
}

/// Returns the state after the records of an epoch's segment, the number of records, the offset at which the last batch
/// ends, and the segment's version.
pub(crate) fn replay_segment<D: Disk>(
    alloc: Global,
    kernel: Kernel,
    disk: &mut D,
    epoch: u64,
) -> Result<(Kernel, u64, u64, StoreVersion), StoreFault>
    requires { D.honest → 16 ≤ length (slot_of (D.view disk.old).seen (slot_of_segment epoch)) }
    ensures state { D.honest → IfOk result
        (λ r. ReplaysAll epoch (slot_of (D.view disk.old).seen (slot_of_segment epoch)) kernel r.0 r.1 r.2) }
    ensures says { D.honest → IfOk result
        (λ r. version_of (slot_of (D.view disk.old).seen (slot_of_segment epoch)) ≡ version_number r.3) }
    ensures next { IfOk result (λ r. LeavesAnEpoch r.3 epoch) }
    ensures damaged { D.honest → IsErrOf result StoreFault.Damaged
        → ReplaysNone epoch (slot_of (D.view disk.old).seen (slot_of_segment epoch)) kernel }
    ensures reads_only { D.honest → ReadsOnly (D.view disk.old) (D.view disk.new) }
    ensures failures { CountsDevice (D.failed_calls disk.old) (D.failed_calls disk.new) result }
    ensures faults { OnlyReadingFaults result }
{
    let version = segment_version(disk, epoch);
    let (kernel, version) = both(kernel, version)?;
    let (kernel, records, end) = replay_segment_in(alloc, kernel, disk, epoch, version)?;
    Ok((kernel, records, end, version))
}
