// Loads the state whose image is in a slot.
ghost use Rattle.std.specs.Prelude.{◌≡◌, ◌⊎◌, ◌↔◌, ◌^◌, ◌<◌, ◌++◌, ℕ, All, List, IsTrue, IfOk, OnErr, IsErrOf, drop, length};
ghost use Rattle.disk.specs.Moments.{CountsFailure, MayLeave, Passes, ReadsOnly};
ghost use Rattle.disk.specs.Slots.{slot_of};
ghost use Rattle.ipc_model.specs.state.State.{State};
ghost use Rattle.codes.specs.StoreVersion.{version_number};
ghost use Rattle.ipc_model.specs.store.Recovery.{IsImageIn, IsOpen, version_of};
ghost use Rattle.words.specs.Words.{long_word};
ghost use Rattle.recover.specs.Loaded.{HasLimit, HoldsEncoding, HoldsImageOf, HoldsNoImage};
ghost use Rattle.recover.specs.Outcomes.{CountsDevice, OnlyReadingFaults};

use crate::headers::read_version;
use crate::reading::is_limit;
use codes::StoreVersion;
use disk::{Disk, DiskFault, Slot};
use image::{ImageFault, read};
use kernel::{Kernel, SnapshotFault};
use slot_steps::IMAGE_HEADER;
use snapshot::LivePort;
use std::alloc::Global;
use store_fault::StoreFault;
use words::take_long_word;

/// Reads the length in bytes of an image's encoding from its header.
fn encoding_length<D: Disk>(disk: &mut D, slot: Slot) -> Result<u64, DiskFault>
    requires { D.honest → IsOpen 24 (slot_of (D.view disk.old).seen slot) }
    ensures fits { IfOk result (λ size. size < 2 ^ 64) }
    ensures length { D.honest → IfOk result
        (λ size. (rest : List ℕ) × (drop 16 (slot_of (D.view disk.old).seen slot) ≡ long_word size ++ rest)) }
    ensures seen { D.honest → (D.view disk.new).seen ≡ (D.view disk.old).seen }
    ensures time { D.honest → Passes (D.view disk.old) (D.view disk.new) (MayLeave (D.view disk.old)) }
    ensures failures { CountsFailure (D.failed_calls disk.old) (D.failed_calls disk.new) result }
{
    let mut word = [0; 8];
    disk.read(slot, 16, &mut word)?;
    match take_long_word(&word) {
        Some((size, _)) => Ok(size),
        None => Ok(0),
    }
}

/// Reads the encoding in an image.
///
/// `Damaged`: the slot ends within it.
fn read_encoding<D: Disk>(alloc: Global, disk: &mut D, slot: Slot) -> Result<Vec<u8>, StoreFault>
    requires { D.honest → IsOpen 24 (slot_of (D.view disk.old).seen slot) }
    ensures encoding { D.honest → IfOk result
        (λ encoding. HoldsEncoding (slot_of (D.view disk.old).seen slot) encoding.items) }
    ensures damaged { D.honest → IsErrOf result StoreFault.Damaged → (encoding : List ℕ)
        → HoldsEncoding (slot_of (D.view disk.old).seen slot) encoding → ⊥ }
    ensures reads_only { D.honest → ReadsOnly (D.view disk.old) (D.view disk.new) }
    ensures failures { CountsDevice (D.failed_calls disk.old) (D.failed_calls disk.new) result }
    ensures faults { OnlyReadingFaults result }
{
    let size = encoding_length(disk, slot)?;
    let room = disk.length(slot).saturating_sub(IMAGE_HEADER as u64);
    if room < size {
        return Err(StoreFault::Damaged);
    }
    let mut encoding = vec![in alloc; 0; size as usize]?;
    disk.read(slot, IMAGE_HEADER as u64, &mut encoding)?;
    Ok(encoding)
}

/// Returns true if the queue limit of each port is allowed in this version.
fn have_limits(version: StoreVersion, ports: &[LivePort]) -> bool
    ensures { IsTrue result ↔ All (HasLimit version) ports.now }
{
    ports.iter().all(|port| is_limit(version, port.state.limit))
}

/// Decodes a state of this version.
///
/// `Damaged`: the bytes encode no lawful state.
fn state_of(alloc: Global, version: StoreVersion, encoding: &[u8]) -> Result<Kernel, StoreFault>
    ensures image { IfOk result (λ kernel. IsImageIn version encoding.now kernel) }
    ensures damaged { IsErrOf result StoreFault.Damaged → (state : State)
        → IsImageIn version encoding.now state → ⊥ }
    ensures faults { OnErr result ((result ≡ Err StoreFault.Damaged) ⊎ (result ≡ Err StoreFault.NoMemory)) }
{
    let snapshot = match read(alloc, version, encoding) {
        Ok(snapshot) => snapshot,
        Err(ImageFault::NotCanonical) => return Err(StoreFault::Damaged),
        Err(ImageFault::NoMemory) => return Err(StoreFault::NoMemory),
    };
    if !have_limits(version, snapshot.ipc.ports.as_slice()) {
        drop(snapshot);
        return Err(StoreFault::Damaged);
    }
    match Kernel::from_snapshot(alloc, snapshot) {
        Ok(kernel) => {
            kernel.show_image();
            Ok(kernel)
        }
        Err(SnapshotFault::NotLawful) => Err(StoreFault::Damaged),
        Err(SnapshotFault::NoMemory) => Err(StoreFault::NoMemory),
    }
}

/// Returns the state whose image is in an open slot of this version.
///
/// `Damaged`: the slot holds no image of a lawful state.
fn load_image_in<D: Disk>(
    alloc: Global,
    disk: &mut D,
    slot: Slot,
    version: StoreVersion,
) -> Result<Kernel, StoreFault>
    requires open { D.honest → IsOpen 24 (slot_of (D.view disk.old).seen slot) }
    requires says { D.honest → version_of (slot_of (D.view disk.old).seen slot) ≡ version_number version }
    ensures image { D.honest → IfOk result (HoldsImageOf (slot_of (D.view disk.old).seen slot)) }
    ensures damaged { D.honest → IsErrOf result StoreFault.Damaged
        → HoldsNoImage (slot_of (D.view disk.old).seen slot) }
    ensures reads_only { D.honest → ReadsOnly (D.view disk.old) (D.view disk.new) }
    ensures failures { CountsDevice (D.failed_calls disk.old) (D.failed_calls disk.new) result }
    ensures faults { OnlyReadingFaults result }
{
    let encoding = read_encoding(alloc, disk, slot)?;
    let kernel = state_of(alloc, version, &encoding)?;
    Ok(kernel)
}

/// Returns the state whose image is in an open slot.
///
/// `Damaged`: the slot holds no image of a lawful state, or one of an unknown version.
pub(crate) fn load_image<D: Disk>(
    alloc: Global,
    disk: &mut D,
    slot: Slot,
) -> Result<Kernel, StoreFault>
    requires { D.honest → IsOpen 24 (slot_of (D.view disk.old).seen slot) }
    ensures image { D.honest → IfOk result (HoldsImageOf (slot_of (D.view disk.old).seen slot)) }
    ensures damaged { D.honest → IsErrOf result StoreFault.Damaged
        → HoldsNoImage (slot_of (D.view disk.old).seen slot) }
    ensures reads_only { D.honest → ReadsOnly (D.view disk.old) (D.view disk.new) }
    ensures failures { CountsDevice (D.failed_calls disk.old) (D.failed_calls disk.new) result }
    ensures faults { OnlyReadingFaults result }
{
    let version = read_version(disk, slot)?;
    load_image_in(alloc, disk, slot, version)
}
