// The headers of slots.
ghost use Rattle.std.specs.Prelude.{◌≡◌, ◌≢◌, ◌↔◌, ◌≤◌, ◌%◌, ◌++◌, ℕ, List, IsTrue, IfOk, IfSome, IfNone, IsErrOf, length};
ghost use Rattle.disk.specs.Slots.{slot_of};
ghost use Rattle.disk.specs.Moments.{CountsFailure, MayLeave, Passes, ReadsOnly};
ghost use Rattle.codes.specs.StoreVersion.{IsNoVersion, version_number};
ghost use Rattle.codes.specs.declared.store_version.StoreVersion.{StoreVersion};
ghost use Rattle.ipc_model.specs.store.Recovery.{HasOtherVersion, IsOfEpoch, IsOpen, version_of};
ghost use Rattle.recover.specs.Outcomes.{CountsDevice, OnlyReadingFaults};
ghost use Rattle.recover.specs.Headers.{SayAll, Says, version_front};

use codes::StoreVersion;
use disk::{Disk, DiskFault, Slot};
use slot_steps::{IMAGE_HEADER, OPEN_GATE, SEGMENT_HEADER};
use store_fault::StoreFault;
use words::take_long_word;

/// The header of a slot.
#[derive(Clone, Copy, PartialEq, Eq)]
pub(crate) enum Header {
    /// The slot isn't open.
    Closed,
    /// The slot is open, with this epoch.
    Open(u64),
    /// The slot is open, with an unknown version.
    OtherVersion,
    /// The slot is open, but no server writes such a header.
    Unreadable,
}

/// The headers of the four slots.
#[derive(Clone, Copy)]
pub(crate) struct Headers {
    pub(crate) image0: Header,
    pub(crate) image1: Header,
    pub(crate) segment0: Header,
    pub(crate) segment1: Header,
}

/// Returns true if a slot holds its whole header and its gate is open.
pub(crate) fn is_open(slot: &[u8], header: usize) -> bool
    ensures { IsTrue result ↔ IsOpen header slot.now }
{
    header <= slot.len() && slot.first() == Some(&OPEN_GATE)
}

/// Returns true if a slot is open and its version is unknown.
fn is_other_version(slot: &[u8], header: usize) -> bool
    requires { 2 ≤ header }
    ensures { IsTrue result ↔ HasOtherVersion header slot.now }
{
    if !is_open(slot, header) {
        return false;
    }
    version_in(slot).is_none()
}

/// Returns the version in a header, or `None` if it is unknown.
fn version_in(slot: &[u8]) -> Option<StoreVersion>
    requires { 2 ≤ length slot.now }
    ensures known { IfSome result (λ version. version_number version ≡ version_of slot.now) }
    ensures unknown { IfNone result (IsNoVersion (version_of slot.now)) }
{
    StoreVersion::from_number(slot[1])
}

/// Returns the bytes after the front of a header of this version, or `None` if the front isn't one.
fn after_version(slot: &[u8], version: StoreVersion) -> Option<&[u8]>
    ensures found { IfSome result (λ rest. slot.now ≡ version_front version ++ rest.now) }
    ensures none { IfNone result ((rest : List ℕ) → slot.now ≢ version_front version ++ rest) }
{
    let front = [OPEN_GATE, version.number(), 0, 0, 0, 0, 0, 0];
    slot.strip_prefix(&front)
}

/// Returns the bytes after the front of a header of either version, or `None` if the front isn't one.
fn after_front(slot: &[u8]) -> Option<&[u8]>
    ensures found { IfSome result
        (λ rest. (version : StoreVersion) × (slot.now ≡ version_front version ++ rest.now)) }
    ensures none { IfNone result ((version : StoreVersion) (rest : List ℕ) → slot.now ≢ version_front version ++ rest) }
{
    match after_version(slot, StoreVersion::One) {
        Some(rest) => Some(rest),
        None => after_version(slot, StoreVersion::Two),
    }
}

/// Returns the epoch in a header of either version, or `None` if it isn't one.
fn epoch_of(slot: &[u8]) -> Option<u64>
    ensures found { IfSome result (λ epoch. IsOfEpoch (epoch % 2) epoch slot.now) }
    ensures none { IfNone result (16 ≤ length slot.now → (number epoch : ℕ) → IsOfEpoch number epoch slot.now → ⊥) }
{
    let rest = after_front(slot)?;
    let (epoch, _) = take_long_word(rest)?;
    Some(epoch)
}

/// Decodes the header of `size` bytes at the front of these bytes.
fn header_in(slot: &[u8], size: usize) -> Header
    requires { 16 ≤ size }
    ensures { Says size slot.now result }
{
    if is_other_version(slot, size) {
        return Header::OtherVersion;
    }
    if !is_open(slot, size) {
        return Header::Closed;
    }
    match epoch_of(slot) {
        Some(epoch) => Header::Open(epoch),
        None => Header::Unreadable,
    }
}

/// Reads the header of a slot.
fn read_header<D: Disk>(disk: &mut D, slot: Slot, size: usize) -> Result<Header, DiskFault>
    requires least { 16 ≤ size }
    requires most { size ≤ 24 }
    ensures said { D.honest → IfOk result (Says size (slot_of (D.view disk.old).seen slot)) }
    ensures seen { D.honest → (D.view disk.new).seen ≡ (D.view disk.old).seen }
    ensures time { D.honest → Passes (D.view disk.old) (D.view disk.new) (MayLeave (D.view disk.old)) }
    ensures failures { CountsFailure (D.failed_calls disk.old) (D.failed_calls disk.new) result }
{
    let mut front = [0; IMAGE_HEADER];
    let count = disk.read(slot, 0, &mut front)?;
    Ok(header_in(&front[..count], size))
}

/// Reads the headers of the four slots.
pub(crate) fn read_headers<D: Disk>(disk: &mut D) -> Result<Headers, DiskFault>
    ensures said { D.honest → IfOk result (λ h. SayAll (D.view disk.old).seen h.image0 h.image1 h.segment0 h.segment1) }
    ensures seen { D.honest → (D.view disk.new).seen ≡ (D.view disk.old).seen }
    ensures time { D.honest → Passes (D.view disk.old) (D.view disk.new) (MayLeave (D.view disk.old)) }
    ensures failures { CountsFailure (D.failed_calls disk.old) (D.failed_calls disk.new) result }
{
    let image0 = read_header(disk, Slot::Image0, IMAGE_HEADER)?;
    let image1 = read_header(disk, Slot::Image1, IMAGE_HEADER)?;
    let segment0 = read_header(disk, Slot::Segment0, SEGMENT_HEADER)?;
    let segment1 = read_header(disk, Slot::Segment1, SEGMENT_HEADER)?;
    Ok(Headers {
        image0,
        image1,
        segment0,
        segment1,
    })
}

/// Reads the version of an open slot from its header. This is a second read, because few readers of headers need the
/// version.
///
/// `Damaged`: the version is unknown.
pub(crate) fn read_version<D: Disk>(disk: &mut D, slot: Slot) -> Result<StoreVersion, StoreFault>
    requires { D.honest → 16 ≤ length (slot_of (D.view disk.old).seen slot) }
    ensures says { D.honest → IfOk result
        (λ version. version_of (slot_of (D.view disk.old).seen slot) ≡ version_number version) }
    ensures damaged { D.honest → IsErrOf result StoreFault.Damaged
        → IsNoVersion (version_of (slot_of (D.view disk.old).seen slot)) }
    ensures reads_only { D.honest → ReadsOnly (D.view disk.old) (D.view disk.new) }
    ensures failures { CountsDevice (D.failed_calls disk.old) (D.failed_calls disk.new) result }
    ensures faults { OnlyReadingFaults result }
{
    let mut number = [0];
    disk.read(slot, 1, &mut number)?;
    match StoreVersion::from_number(number[0]) {
        Some(version) => Ok(version),
        None => Err(StoreFault::Damaged),
    }
}
