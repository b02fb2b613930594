// Reads a store that may be in use.
ghost use Rattle.std.specs.Prelude.{◌≡◌, ◌≢◌, ◌⊎◌, Err, IfErr, IfOk, IsErrOf, OnErr, OnOk};
ghost use Rattle.disk.specs.Moments.{ReadsOnly, one_more};
ghost use Rattle.inspect.specs.Looked.{of_looking};
ghost use Rattle.inspect.specs.Printed.{IsOfLook};
ghost use Rattle.ipc_model.specs.store.Recovery.{IsDamaged, IsOtherVersion};
ghost use Rattle.recover.specs.Looked.{IsLook};
ghost use Rattle.store_layout.specs.Standing.{as_written};
ghost use Rattle.inspect.specs.still_disk.Still.{still_slots};

use crate::ListFault;
use crate::still_disk::{StillDisk, still_copy};
use disk::Disk;
use recover::{Looked, look};
use std::alloc::Global;
use store_fault::StoreFault;

/// Returns the fault for a failed look at a copy. The copy is in memory, so the device's fault means out of memory.
fn fault_of_copy(fault: StoreFault) -> ListFault
    ensures { result ≡ of_looking fault }
{
    match fault {
        StoreFault::Device => ListFault::Store(StoreFault::NoMemory),
        other => ListFault::Store(other),
    }
}

/// Reads a copy, and drops it.
fn look_at_copy(alloc: Global, copy: StillDisk) -> Result<Looked, StoreFault>
    ensures state { IfOk result (IsLook (Unit {0}) (still_slots copy)) }
    ensures version { IsErrOf result StoreFault.Version → IsOtherVersion (as_written (still_slots copy)) }
    ensures damaged { IsErrOf result StoreFault.Damaged → IsDamaged (as_written (still_slots copy)) }
    ensures faults { OnErr result ((result ≡ Err StoreFault.Device) ⊎ ((result ≡ Err StoreFault.Damaged)
        ⊎ ((result ≡ Err StoreFault.NoMemory) ⊎ (result ≡ Err StoreFault.Version)))) }
{
    let mut copy = copy;
    let looked = look(alloc, &mut copy);
    drop(copy);
    looked
}

/// Reads a copy of a store, so that a server may continue with the store meanwhile. Nothing is written to the store.
pub(crate) fn look_still<D: Disk>(alloc: Global, disk: &mut D) -> Result<Looked, ListFault>
    ensures state { IfOk result (IsLook D.honest (D.view disk.old).seen) }
    ensures reads_only { D.honest → ReadsOnly (D.view disk.old) (D.view disk.new) }
    ensures version { D.honest → IsErrOf result (ListFault.Store StoreFault.Version)
        → IsOtherVersion (as_written (D.view disk.old).seen) }
    ensures damaged { D.honest → IsErrOf result (ListFault.Store StoreFault.Damaged)
        → IsDamaged (as_written (D.view disk.old).seen) }
    ensures faults { IfErr result IsOfLook }
    ensures quiet { OnOk result (D.failed_calls disk.new ≡ D.failed_calls disk.old) }
    ensures same { result ≢ Err (ListFault.Store StoreFault.Device)
        → D.failed_calls disk.new ≡ D.failed_calls disk.old }
    ensures device { IsErrOf result (ListFault.Store StoreFault.Device)
        → D.failed_calls disk.new ≡ one_more (D.failed_calls disk.old) }
    ensures still { D.honest → IsErrOf result ListFault.Busy → ⊥ }
    ensures err { IfErr result (λ fault. fault ≢ ListFault.Write) }
{
    let copy = still_copy(alloc, disk)?;
    match look_at_copy(alloc, copy) {
        Ok(look) => Ok(look),
        Err(fault) => Err(fault_of_copy(fault)),
    }
}
