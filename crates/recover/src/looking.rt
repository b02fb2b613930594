//! Reads a store without opening it.
ghost use Rattle.std.specs.Prelude.{◌≡◌, ◌+◌, ◌<◌, IfOk, IsErrOf, OnOk};
ghost use Rattle.disk.specs.Moments.{ReadsOnly, one_more};
ghost use Rattle.ipc_model.specs.store.Recovery.{IsDamaged, IsOtherVersion};
ghost use Rattle.recover.specs.Found.{Reads};
ghost use Rattle.recover.specs.Headers.{Says};
ghost use Rattle.recover.specs.Looked.{IsLook};
ghost use Rattle.recover.specs.Outcomes.{CountsDevice, OnlyOpeningFaults, OnlyReadingFaults, StandForNone};
ghost use Rattle.recover.specs.Surveyed.{FitsNext, IsInUse, IsUnused};
ghost use Rattle.snapshot.specs.Snapshots.{snapshot_of};
ghost use Rattle.store_layout.specs.Standing.{as_written};

use crate::finding::{have_no_batch, read_epoch};
use crate::headers::{Header, read_headers};
use crate::reading::replay_segment;
use crate::survey::{Survey, survey_store};
use disk::Disk;
use kernel::{Kernel, Snapshot};
use std::alloc::{AllocError, Global};
use store_fault::StoreFault;

/// The contents of a store.
#[derive(Drop)]
pub struct Looked {
    /// The epoch of its image, or 0 for a new store.
    pub epoch: u64,
    /// The number of records in its segments.
    pub records: u64,
    /// The state after them.
    pub snapshot: Snapshot,
}

/// Returns the state of a store that was never in use.
fn look_new<D: Disk>(alloc: Global, disk: &mut D, segment0: Header) -> Result<Kernel, StoreFault>
    requires unused { D.honest → IsUnused (D.view disk.old).seen }
    requires says { D.honest → Says 16 (D.view disk.old).seen.segment0 segment0 }
    ensures reads { D.honest → IfOk result (Reads (D.view disk.old).seen 0 0) }
    ensures damaged { D.honest → IsErrOf result StoreFault.Damaged → StandForNone (D.view disk.old).seen }
    ensures reads_only { D.honest → ReadsOnly (D.view disk.old) (D.view disk.new) }
    ensures failures { CountsDevice (D.failed_calls disk.old) (D.failed_calls disk.new) result }
    ensures faults { OnlyReadingFaults result }
{
    have_no_batch(disk, segment0)?;
    let kernel = Kernel::opening(alloc)?;
    Ok(kernel)
}

/// Returns the state of a store in use, and the number of records in its segments.
fn look_in_use<D: Disk>(
    alloc: Global,
    disk: &mut D,
    epoch: u64,
    follows: bool,
) -> Result<(Kernel, u64), StoreFault>
    requires used { D.honest → IsInUse (D.view disk.old).seen epoch follows }
    requires fits { FitsNext (Survey.InUse epoch follows) }
    ensures reads { D.honest → IfOk result (λ r. Reads (D.view disk.old).seen epoch r.1 r.0) }
    ensures damaged { D.honest → IsErrOf result StoreFault.Damaged → StandForNone (D.view disk.old).seen }
    ensures reads_only { D.honest → ReadsOnly (D.view disk.old) (D.view disk.new) }
    ensures failures { CountsDevice (D.failed_calls disk.old) (D.failed_calls disk.new) result }
    ensures faults { OnlyReadingFaults result }
{
    let (kernel, first, _, _) = read_epoch(alloc, disk, epoch)?;
    if !follows {
        return Ok((kernel, first));
    }
    let (kernel, next, _, _) = replay_segment(alloc, kernel, disk, epoch + 1)?;
    Ok((kernel, first.saturating_add(next)))
}

/// Returns the epoch of a store's image, the number of records in its segments, and the state after them.
fn find<D: Disk>(alloc: Global, disk: &mut D) -> Result<(u64, u64, Kernel), StoreFault>
    ensures reads { D.honest → IfOk result (λ r. Reads (D.view disk.old).seen r.0 r.1 r.2) }
    ensures reads_only { D.honest → ReadsOnly (D.view disk.old) (D.view disk.new) }
    ensures version { D.honest → IsErrOf result StoreFault.Version
        → IsOtherVersion (as_written (D.view disk.old).seen) }
    ensures damaged { D.honest → IsErrOf result StoreFault.Damaged → IsDamaged (as_written (D.view disk.old).seen) }
    ensures faults { OnlyOpeningFaults result }
    ensures quiet { OnOk result (D.failed_calls disk.new ≡ D.failed_calls disk.old) }
    ensures device { IsErrOf result StoreFault.Device → D.failed_calls disk.new ≡ one_more (D.failed_calls disk.old) }
{
    let headers = read_headers(disk)?;
    match survey_store(&headers)? {
        Survey::New => {
            let kernel = look_new(alloc, disk, headers.segment0)?;
            Ok((0, 0, kernel))
        }
        Survey::InUse { epoch, follows } => {
            let (kernel, records) = look_in_use(alloc, disk, epoch, follows)?;
            Ok((epoch, records, kernel))
        }
    }
}

/// Returns a kernel's state as plain rows. The kernel is consumed.
fn into_rows(alloc: Global, kernel: Kernel) -> Result<Snapshot, AllocError>
    ensures { IfOk result (λ rows. rows ≡ snapshot_of kernel) }
{
    let rows = kernel.copy(alloc);
    drop(kernel);
    rows
}

/// Reads a store without writing: neither its contents nor the contents after a crash change.
///
/// `Device`: the device failed. `Damaged`: the slots aren't as a server leaves them. `Version`: an open slot has an
/// unknown version. `NoMemory`: out of memory.
pub fn look<D: Disk>(alloc: Global, disk: &mut D) -> Result<Looked, StoreFault>
    ensures state { IfOk result (λ look. IsLook D.honest (D.view disk.old).seen look) }
    ensures reads_only { D.honest → ReadsOnly (D.view disk.old) (D.view disk.new) }
    ensures version { D.honest → IsErrOf result StoreFault.Version
        → IsOtherVersion (as_written (D.view disk.old).seen) }
    ensures damaged { D.honest → IsErrOf result StoreFault.Damaged → IsDamaged (as_written (D.view disk.old).seen) }
    ensures faults { OnlyOpeningFaults result }
    ensures quiet { OnOk result (D.failed_calls disk.new ≡ D.failed_calls disk.old) }
    ensures device { IsErrOf result StoreFault.Device → D.failed_calls disk.new ≡ one_more (D.failed_calls disk.old) }
{
    let (epoch, records, kernel) = find(alloc, disk)?;
    let snapshot = into_rows(alloc, kernel)?;
    Ok(Looked {
        epoch,
        records,
        snapshot,
    })
}
