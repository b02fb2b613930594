ghost use Rattle.std.specs.Prelude.{◌≡◌, ◌≢◌, ◌⊎◌, ◌+◌, ◌<◌, ◌^◌, true, false, Err, IfOk, IfErr, IfSome, IsErrOf, OnOk};
ghost use Rattle.checkpoint.specs.Images.{open_image, unwritten};
ghost use Rattle.disk.specs.Slots.{Slots};
ghost use Rattle.disk.specs.Moments.{CountsFailure, MayLeave, Passes, one_more};
ghost use Rattle.ipc_model.specs.state.State.{State, opening_state};
ghost use Rattle.ipc_model.specs.store.Recovery.{HoldsImage, IsDamaged, IsNew, IsOtherVersion, Recovered};
ghost use Rattle.ipc_model.specs.encodings.Images.{image_encoding};
ghost use Rattle.recover.specs.AtRest.{IsAtRest};
ghost use Rattle.recover.specs.Headers.{SayAll, Says};
ghost use Rattle.recover.specs.Kept.{IsKept};
ghost use Rattle.recover.specs.Crashing.{LeavesSame};
ghost use Rattle.store_layout.specs.Gates.{HaveLastGates, StandForState};
ghost use Rattle.recover.specs.Outcomes.{CountsDevice, OnlyOpeningFaults, OnlyReadingFaults, Opens, StandForNone, StandsForSameSince};
ghost use Rattle.recover.specs.Surveyed.{IsInUse, IsUnused, OpensInEpoch};
ghost use Rattle.recover.specs.Upgrading.{IsToEnd, IsUpgradeOf, upgraded_epoch};
ghost use Rattle.ipc_model.specs.store.Store.{LeavesAnEpoch};
ghost use Rattle.store_layout.specs.Standing.{as_written};

use crate::finding::{have_no_batch, read_epoch};
use crate::headers::{Header, Headers, read_headers};
use crate::making::{make_segment, sync_all};
use crate::reading::replay_segment;
use crate::survey::{Survey, survey_store};
use crate::value_after::{both, end_after, write_after};
use checkpoint::Image;
use codes::StoreVersion;
use disk::{Disk, DiskFault};
use image::image_is_of_state;
use journal::Segment;
use kernel::Kernel;
use slot_steps::{SEGMENT_HEADER, segment_slot};
use std::alloc::{AllocError, Global};
use std::marker::Model;
use store_fault::StoreFault;

/// An open store: its state, its disk and the segment in use, which a server continues.
#[derive(Drop)]
pub struct Opened<D: Disk> {
    pub kernel: Kernel,
    pub disk: D,
    pub segment: Segment,
}

impl<D: Disk> Model for Opened<D> {
    ghost use Rattle.recover.specs.Kept.{IsKept};
    ghost use Rattle.recover.specs.Opened.{OpenedValue, opened_code};

    ghost Value = { OpenedValue D };

    ghost coded = { opened_code D.code };

    ghost view = { λ o. record { kernel = o.kernel; disk = o.disk; segment = o.segment } };

    // A server can continue from an opened store.
    ghost invariant = { λ o. D.honest → IsKept (D.view o.disk) o.segment o.kernel };
}

/// Encodes the image with which an epoch begins, for this state.
fn image_of(alloc: Global, epoch: u64, kernel: &Kernel) -> Result<Image, AllocError>
    ensures image { IfOk result (λ image. image ≡ unwritten epoch (image_encoding kernel.now)) }
    ensures holds { OnOk result (HoldsImage epoch (open_image epoch (image_encoding kernel.now)) kernel.now) }
{
    let snapshot = kernel.copy(alloc)?;
    let image = Image::of(alloc, epoch, &snapshot)?;
    let _ = image.size();
    image_is_of_state();
    kernel.show_image();
    Ok(image)
}

/// Creates a new store: first its segment and, once that is whole, its image. Then returns `value`.
fn write_first<D: Disk, T: Drop>(
    disk: &mut D,
    image: &Image,
    value: T,
) -> Result<(T, Segment), DiskFault>
    requires image { image.now ≡ unwritten 0 (image_encoding opening_state) }
    requires holds { HoldsImage 0 (open_image 0 (image_encoding opening_state)) opening_state }
    requires rest { D.honest → IsAtRest (D.view disk.old) }
    requires unused { D.honest → IsUnused (D.view disk.old).seen }
    requires new { D.honest → IsNew (as_written (D.view disk.old).seen) }
    ensures value { IfOk result (λ r. r.0 ≡ value) }
    ensures epoch { IfOk result (λ r. r.1.epoch ≡ 0) }
    ensures kept { D.honest → IfOk result (λ r. IsKept (D.view disk.new) r.1 opening_state) }
    ensures any_moment { D.honest → StandsForSameSince (D.view disk.old) (D.view disk.new) }
    ensures failures { CountsFailure (D.failed_calls disk.old) (D.failed_calls disk.new) result }
{
    let segment = make_segment(disk, 0)?;
    image.write(disk)?;
    Ok((value, segment))
}

/// Initializes a store that was never in use.
fn begin<D: Disk>(
    alloc: Global,
    disk: &mut D,
    segment0: Header,
) -> Result<(Kernel, Segment), StoreFault>
    requires rest { D.honest → IsAtRest (D.view disk.old) }
    requires unused { D.honest → IsUnused (D.view disk.old).seen }
    requires says { D.honest → Says 16 (D.view disk.old).seen.segment0 segment0 }
    ensures opened { D.honest → Opens (D.view disk.old) (D.view disk.new) result }
    ensures damaged { D.honest → IsErrOf result StoreFault.Damaged → StandForNone (D.view disk.old).seen }
    ensures any_moment { D.honest → StandsForSameSince (D.view disk.old) (D.view disk.new) }
    ensures failures { CountsDevice (D.failed_calls disk.old) (D.failed_calls disk.new) result }
    ensures faults { OnlyReadingFaults result }
{
    have_no_batch(disk, segment0)?;
    let kernel = Kernel::opening(alloc)?;
    let (kernel, image) = with_image(alloc, kernel, 0)?;
    let (kernel, segment) = write_first(disk, &image, kernel)?;
    Ok((kernel, segment))
}

/// Returns the state and, if the epoch's segment is of version 1, the image of the next epoch. The store then continues
/// in that epoch, whose slots have the current version. The image is encoded before anything is written.
fn with_upgrade(
    alloc: Global,
    kernel: Kernel,
    version: StoreVersion,
    epoch: u64,
) -> Result<(Kernel, Option<Image>), AllocError>
    requires { LeavesAnEpoch version epoch }
    ensures base { IfOk result (λ r. r.0 ≡ kernel) }
    ensures upgrade { IfOk result (λ r. IsUpgradeOf version epoch kernel r.1) }
{
    match version {
        StoreVersion::Two => Ok((kernel, None)),
        StoreVersion::One => {
            let (kernel, image) = with_image(alloc, kernel, epoch + 1)?;
            Ok((kernel, Some(image)))
        }
    }
}

/// Ends a segment in use at offset `end`, after its last batch. A segment of version 1 stays unchanged: instead the
/// next epoch's empty segment is created, then its image, and that segment is ended.
fn end_store<D: Disk>(
    disk: &mut D,
    kernel: Kernel,
    segment: Segment,
    end: u64,
    upgrade: Option<Image>,
) -> Result<(Kernel, Segment), DiskFault>
    requires fits { IfSome upgrade (λ image. segment.epoch + 1 < 2 ^ 64) }
    requires read { D.honest → IsToEnd (D.view disk.old) kernel segment end upgrade }
    ensures same { IfOk result (λ r. r.0 ≡ kernel) }
    ensures epoch { IfOk result (λ r. r.1.epoch ≡ upgraded_epoch segment.epoch upgrade) }
    ensures kept { D.honest → IfOk result (λ r. IsKept (D.view disk.new) r.1 kernel) }
    ensures any_moment { D.honest → StandsForSameSince (D.view disk.old) (D.view disk.new) }
    ensures failures { CountsFailure (D.failed_calls disk.old) (D.failed_calls disk.new) result }
{
    let Some(image) = upgrade else {
        let kernel = end_after(disk, segment_slot(segment.epoch), end, kernel)?;
        return Ok((kernel, segment));
    };
    let next = make_segment(disk, segment.epoch + 1);
    let (kernel, next) = both(kernel, next)?;
    let kernel = write_after(disk, &image, kernel)?;
    let kernel = end_after(
        disk,
        segment_slot(next.epoch),
        SEGMENT_HEADER as u64,
        kernel,
    )?;
    Ok((kernel, next))
}

/// Continues in an epoch, whose segment is ended after its batches, or in the next epoch if that segment is of version
/// 1.
fn go_on<D: Disk>(alloc: Global, disk: &mut D, epoch: u64) -> Result<(Kernel, Segment), StoreFault>
    requires rest { D.honest → IsAtRest (D.view disk.old) }
    requires used { D.honest → IsInUse (D.view disk.old).seen epoch false }
    ensures opened { D.honest → Opens (D.view disk.old) (D.view disk.new) result }
    ensures damaged { D.honest → IsErrOf result StoreFault.Damaged → StandForNone (D.view disk.old).seen }
    ensures any_moment { D.honest → StandsForSameSince (D.view disk.old) (D.view disk.new) }
    ensures failures { CountsDevice (D.failed_calls disk.old) (D.failed_calls disk.new) result }
    ensures faults { OnlyReadingFaults result }
{
    let (kernel, records, end, version) = read_epoch(alloc, disk, epoch)?;
    let (kernel, upgrade) = with_upgrade(alloc, kernel, version, epoch)?;
    let segment = Segment { epoch, records };
    let (kernel, segment) = end_store(disk, kernel, segment, end, upgrade)?;
    Ok((kernel, segment))
}

/// Continues in the next epoch, whose segment is open but whose image isn't. Writes that image, with the state before
/// the segment, and then continues in that epoch.
fn go_on_next<D: Disk>(
    alloc: Global,
    disk: &mut D,
    epoch: u64,
) -> Result<(Kernel, Segment), StoreFault>
    requires rest { D.honest → IsAtRest (D.view disk.old) }
    requires used { D.honest → IsInUse (D.view disk.old).seen epoch true }
    requires fits { epoch + 1 < 2 ^ 64 }
    ensures opened { D.honest → Opens (D.view disk.old) (D.view disk.new) result }
    ensures damaged { D.honest → IsErrOf result StoreFault.Damaged → StandForNone (D.view disk.old).seen }
    ensures any_moment { D.honest → StandsForSameSince (D.view disk.old) (D.view disk.new) }
    ensures failures { CountsDevice (D.failed_calls disk.old) (D.failed_calls disk.new) result }
    ensures faults { OnlyReadingFaults result }
{
    let next = epoch + 1;
    let (base, _, _, _) = read_epoch(alloc, disk, epoch)?;
    let (base, image) = with_image(alloc, base, next)?;
    let (kernel, records, end, version) = replay_segment(alloc, base, disk, next)?;
    let (kernel, upgrade) = with_upgrade(alloc, kernel, version, next)?;
    let segment = Segment {
        epoch: next,
        records,
    };
    let (kernel, upgrade) = write_after(disk, &image, (kernel, upgrade))?;
    let (kernel, segment) = end_store(disk, kernel, segment, end, upgrade)?;
    Ok((kernel, segment))
}

/// Returns the state, and the image of the epoch that begins with it.
fn with_image(alloc: Global, kernel: Kernel, epoch: u64) -> Result<(Kernel, Image), AllocError>
    ensures base { IfOk result (λ r. r.0 ≡ kernel) }
    ensures image { IfOk result (λ r. r.1 ≡ unwritten epoch (image_encoding kernel)) }
    ensures holds { OnOk result (HoldsImage epoch (open_image epoch (image_encoding kernel)) kernel) }
{
    let image = image_of(alloc, epoch, &kernel);
    both(kernel, image)
}

/// Syncs the disk, and reads the headers of its slots.
fn read_synced<D: Disk>(disk: &mut D) -> Result<Headers, DiskFault>
    ensures said { D.honest → IfOk result (λ h. SayAll (D.view disk.old).seen h.image0 h.image1 h.segment0 h.segment1) }
    ensures seen { D.honest → (D.view disk.new).seen ≡ (D.view disk.old).seen }
    ensures time { D.honest → Passes (D.view disk.old) (D.view disk.new) (MayLeave (D.view disk.old)) }
    ensures rest { D.honest → OnOk result (IsAtRest (D.view disk.new)) }
    ensures failures { CountsFailure (D.failed_calls disk.old) (D.failed_calls disk.new) result }
{
    sync_all(disk)?;
    let headers = read_headers(disk)?;
    Ok(headers)
}

/// Recovers the state of a store, and returns it with the segment in use.
fn load<D: Disk>(alloc: Global, disk: &mut D) -> Result<(Kernel, Segment), StoreFault>
    ensures opened { D.honest → Opens (D.view disk.old) (D.view disk.new) result }
    ensures version { D.honest → IsErrOf result StoreFault.Version
        → IsOtherVersion (as_written (D.view disk.old).seen) }
    ensures damaged { D.honest → IsErrOf result StoreFault.Damaged → IsDamaged (as_written (D.view disk.old).seen) }
    ensures any_moment { D.honest → HaveLastGates (D.view disk.old).seen
        → Passes (D.view disk.old) (D.view disk.new) (LeavesSame (D.view disk.old)) }
    ensures failures { CountsDevice (D.failed_calls disk.old) (D.failed_calls disk.new) result }
    ensures faults { OnlyOpeningFaults result }
{
    let headers = read_synced(disk)?;
    match survey_store(&headers)? {
        Survey::New => begin(alloc, disk, headers.segment0),
        Survey::InUse {
            epoch,
            follows: false,
        } => go_on(alloc, disk, epoch),
        Survey::InUse {
            epoch,
            follows: true,
        } => go_on_next(alloc, disk, epoch),
    }
}

/// Opens a store. A new store gets its first segment and image. For an existing one it reads the state, finishes a
/// checkpoint that was interrupted, and ends the segment in use after its last batch. If that segment is of version 1,
/// the store continues in the next epoch, with an image and a segment of the current version. A fault returns the disk.
///
/// `Device`: the device failed. `Damaged`: the slots aren't as a server leaves them. `Version`: an open slot has an
/// unknown version. `NoMemory`: out of memory.
pub fn open<D: Disk>(alloc: Global, disk: D) -> Result<Opened<D>, (StoreFault, D)>
    ensures state { D.honest → IfOk result (λ opened. Recovered (as_written (D.view disk).seen) opened.kernel) }
    ensures epoch { D.honest → IfOk result (λ opened. OpensInEpoch (D.view disk).seen opened.segment.epoch) }
    ensures version { D.honest → IfErr result
        (λ fault. fault.0 ≡ StoreFault.Version → IsOtherVersion (as_written (D.view disk).seen)) }
    ensures damaged { D.honest → IfErr result
        (λ fault. fault.0 ≡ StoreFault.Damaged → IsDamaged (as_written (D.view disk).seen)) }
    ensures faults { IfErr result (λ fault. (fault.0 ≡ StoreFault.Device) ⊎ ((fault.0 ≡ StoreFault.Damaged)
        ⊎ ((fault.0 ≡ StoreFault.NoMemory) ⊎ (fault.0 ≡ StoreFault.Version)))) }
    ensures quiet { IfOk result (λ opened. D.failed_calls opened.disk ≡ D.failed_calls disk) }
    ensures still { IfErr result (λ fault. fault.0 ≢ StoreFault.Device → D.failed_calls fault.1 ≡ D.failed_calls disk) }
    ensures device { IfErr result (λ fault. fault.0 ≡ StoreFault.Device
        → D.failed_calls fault.1 ≡ one_more (D.failed_calls disk)) }
    // A fault that isn't the device's leaves the slots and the contents after a crash unchanged.
    ensures unchanged { D.honest → IfErr result
        (λ fault. fault.0 ≢ StoreFault.Device → (D.view fault.1).seen ≡ (D.view disk).seen) }
    ensures untouched { D.honest → IfErr result (λ fault. fault.0 ≢ StoreFault.Device
        → Passes (D.view disk) (D.view fault.1) (MayLeave (D.view disk))) }
    // A crash at any moment of the call, also if the call fails, leaves slots that it might have left before the call,
    // or slots that represent the store's state and have their last gate. This promises nothing about slots without
    // their last gate, which no server leaves: a crash during the write of that gate could leave an open one.
    ensures any_moment { D.honest → HaveLastGates (D.view disk).seen
        → IfOk result (λ opened. Passes (D.view disk) (D.view opened.disk) (LeavesSame (D.view disk))) }
    ensures any_moment_of_fault { D.honest → HaveLastGates (D.view disk).seen
        → IfErr result (λ fault. Passes (D.view disk) (D.view fault.1) (LeavesSame (D.view disk))) }
    // At the end all possible contents after a crash represent the state, with their last gate, even if it was missing
    // before. A server knows the slots from which it continues.
    ensures stands { D.honest → IfOk result (λ opened. (c : Slots) → MayLeave (D.view opened.disk) c
        → StandForState opened.kernel c) }
    ensures kept { D.honest → IfOk result (λ opened. IsKept (D.view opened.disk) opened.segment opened.kernel) }
    // Opening returns the state that the slots represent. A store with a state isn't reported as damaged or as of
    // another version.
    ensures same { D.honest → IfOk result
        (λ opened. (state : State) → Recovered (as_written (D.view disk).seen) state → opened.kernel ≡ state) }
    ensures opens { D.honest → IfErr result (λ fault. (state : State) → Recovered (as_written (D.view disk).seen) state
        → (fault.0 ≢ StoreFault.Damaged) × (fault.0 ≢ StoreFault.Version)) }
{
    let mut disk = disk;
    match load(alloc, &mut disk) {
        Ok((kernel, segment)) => Ok(Opened {
            kernel,
            disk,
            segment,
        }),
        Err(fault) => Err((fault, disk)),
    }
}
