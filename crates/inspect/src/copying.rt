// Creates a new store that begins with the state of another one.
ghost use Rattle.std.specs.Prelude.{◌≡◌, ◌≢◌, Err, IfErr, IfOk, IsErrOf, OnErr, OnOk};
ghost use Rattle.disk.specs.Moments.{CountsFailure, MayLeave, Passes, ReadsOnly, one_more};
ghost use Rattle.disk.specs.Slots.{empty_slots};
ghost use Rattle.inspect.specs.Copied.{IsCopyOf, IsImageOfRows, IsOfCopy, store_of};
ghost use Rattle.ipc_model.specs.store.Recovery.{IsDamaged, IsOtherVersion};
ghost use Rattle.recover.specs.AtRest.{IsAtRest};
ghost use Rattle.recover.specs.Making.{empty_segment};
ghost use Rattle.store_layout.specs.Standing.{as_written};

use crate::ListFault;
use crate::looking::look_still;
use checkpoint::Image;
use codes::StoreVersion;
use disk::{Disk, DiskFault, Slot};
use image::image_is_of_state;
use kernel::{Kernel, Snapshot};
use slot_steps::OPEN_GATE;
use std::alloc::Global;
use store_fault::StoreFault;

/// The reason why a store couldn't be copied.
#[derive(Clone, Copy, Debug, PartialEq, Eq)]
pub enum CopyStoreFault {
    /// The store couldn't be read.
    Store(StoreFault),
    /// The store was changed during each attempt to read it.
    Busy,
    /// There is already a file at the copy's path.
    Exists,
    /// The copy couldn't be written.
    Write,
}

impl From<ListFault> for CopyStoreFault {
    ghost use Rattle.std.specs.Prelude.{◌≡◌};
    ghost use Rattle.inspect.specs.Copied.{of_list};

    ghost from_gives = { λ fault e. e ≡ of_list fault };

    fn from(fault: ListFault) -> Self {
        match fault {
            ListFault::Store(fault) => CopyStoreFault::Store(fault),
            ListFault::Busy => CopyStoreFault::Busy,
            ListFault::Write => CopyStoreFault::Write,
        }
    }
}

impl From<DiskFault> for CopyStoreFault {
    ghost use Rattle.std.specs.Prelude.{◌≡◌};
    ghost use Rattle.inspect.specs.declared.copying.CopyStoreFault.TheVariants.{Write};

    ghost from_gives = { λ _ e. e ≡ Write };

    fn from(_: DiskFault) -> Self {
        CopyStoreFault::Write
    }
}

/// Returns the segment of epoch 0 without records: an open gate, the version, the epoch, and a closed gate.
fn first_segment() -> [u8; 17]
    ensures { result ≡ empty_segment 0 }
{
    let version = StoreVersion::current().number();
    [
        OPEN_GATE, version, 0, 0, 0, 0, 0, 0, 0, 0, 0, 0, 0, 0, 0, 0, 0,
    ]
}

/// Returns the image of the state with these rows, of epoch 0.
///
/// `NoMemory`: an allocation failed.
fn image_of(alloc: Global, rows: Snapshot) -> Result<Image, StoreFault>
    ensures image { IfOk result (IsImageOfRows rows) }
    ensures err { OnErr result (result ≡ Err StoreFault.NoMemory) }
{
    let image = Image::of(alloc, 0, &rows)?;
    let _ = image.size();
    image_is_of_state();
    // The rows are those of a kernel, so only an allocation can have failed.
    let Ok(kernel) = Kernel::from_snapshot(alloc, rows) else {
        return Err(StoreFault::NoMemory);
    };
    kernel.show_image();
    drop(kernel);
    Ok(image)
}

/// Syncs the four slots.
fn sync_all<E: Disk>(to: &mut E) -> Result<(), DiskFault>
    ensures seen { E.honest → (E.view to.new).seen ≡ (E.view to.old).seen }
    ensures time { E.honest → Passes (E.view to.old) (E.view to.new) (MayLeave (E.view to.old)) }
    ensures rest { E.honest → OnOk result (IsAtRest (E.view to.new)) }
    ensures failures { CountsFailure (E.failed_calls to.old) (E.failed_calls to.new) result }
{
    to.sync(Slot::Image0)?;
    to.sync(Slot::Image1)?;
    to.sync(Slot::Segment0)?;
    to.sync(Slot::Segment1)
}

/// Writes a segment without records and an image, and syncs the four slots.
fn write_store<E: Disk>(to: &mut E, image: &Image) -> Result<(), DiskFault>
    requires { image.now.epoch ≡ 0 }
    ensures made { E.honest → (E.view to.old).seen ≡ empty_slots
        → OnOk result ((E.view to.new).seen ≡ store_of image.now) }
    ensures rest { E.honest → OnOk result (IsAtRest (E.view to.new)) }
    ensures failures { CountsFailure (E.failed_calls to.old) (E.failed_calls to.new) result }
{
    to.write_at(Slot::Segment0, 0, &first_segment())?;
    image.write(to)?;
    sync_all(to)
}

/// Copies a store to an empty disk: a store in epoch 0 without records, which begins with the state of the first one.
/// The first store may be in use, and isn't written to. At `Ok` the whole copy is durable.
///
/// `Store`: the store couldn't be read (`Device`, `Damaged`, `Version`), or an allocation failed (`NoMemory`). `Busy`:
/// the store was changed during each attempt to read it. After these faults nothing was written. `Write`: the disk of
/// the copy failed.
pub fn copy<D: Disk, E: Disk>(alloc: Global, from: &mut D, to: &mut E) -> Result<(), CopyStoreFault>
    ensures copied { D.honest → E.honest → (E.view to.old).seen ≡ empty_slots
        → OnOk result (IsCopyOf (D.view from.old).seen (E.view to.new)) }
    ensures reads_only { D.honest → ReadsOnly (D.view from.old) (D.view from.new) }
    ensures version { D.honest → IsErrOf result (CopyStoreFault.Store StoreFault.Version)
        → IsOtherVersion (as_written (D.view from.old).seen) }
    ensures damaged { D.honest → IsErrOf result (CopyStoreFault.Store StoreFault.Damaged)
        → IsDamaged (as_written (D.view from.old).seen) }
    ensures still { D.honest → IsErrOf result CopyStoreFault.Busy → ⊥ }
    ensures faults { IfErr result IsOfCopy }
    ensures device { IsErrOf result (CopyStoreFault.Store StoreFault.Device)
        → D.failed_calls from.new ≡ one_more (D.failed_calls from.old) }
    ensures quiet { OnOk result ((D.failed_calls from.new ≡ D.failed_calls from.old)
        × (E.failed_calls to.new ≡ E.failed_calls to.old)) }
    ensures write { IsErrOf result CopyStoreFault.Write → (D.failed_calls from.new ≡ D.failed_calls from.old)
        × (E.failed_calls to.new ≡ one_more (E.failed_calls to.old)) }
    ensures unwritten { IfErr result (λ fault. fault ≢ CopyStoreFault.Write → to.new ≡ to.old) }
{
    let look = look_still(alloc, from)?;
    match image_of(alloc, look.snapshot) {
        Ok(image) => {
            write_store(to, &image)?;
            Ok(())
        }
        Err(fault) => Err(CopyStoreFault::Store(fault)),
    }
}
