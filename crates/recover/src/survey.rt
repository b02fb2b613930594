// Classifies a store by the headers of its slots.
ghost use Rattle.std.specs.Prelude.{◌≡◌, ◌≢◌, ◌⊎◌, ◌+◌, ◌%◌, ◌^◌, ◌<◌, IsTrue, List, Some, None, IfOk, IfSome, IfNone, IsErrOf, OnOk, OnErr, MatchBool};
ghost use Rattle.disk.specs.Slots.{Slots};
ghost use Rattle.ipc_model.specs.declared.record.Record.{Record};
ghost use Rattle.ipc_model.specs.state.State.{State};
ghost use Rattle.ipc_model.specs.store.Recovery.{IsOtherVersion, Encodes};
ghost use Rattle.store_layout.specs.Standing.{as_written};
ghost use Rattle.recover.specs.Headers.{IsForeign, SayAll, TellAll};
ghost use Rattle.recover.specs.Surveyed.{Adjoins, FitsNext, IsLatestOf, Surveys};

use crate::headers::{Header, Headers};
use store_fault::StoreFault;

/// The kind of a store, by the headers of its slots.
#[derive(Clone, Copy)]
pub(crate) enum Survey {
    /// No image is open, and no segment except possibly one of epoch 0.
    New,
    /// The image and the segment of an epoch are open, and if `follows`, the next epoch's segment is too.
    InUse { epoch: u64, follows: bool },
}

/// Returns the epoch of a slot with this number, or `None` if it isn't open.
///
/// `Damaged`: the slot is open, but not with an epoch that belongs to this number.
fn epoch_in(header: Header, number: u64) -> Result<Option<u64>, StoreFault>
    ensures open { IfOk result (λ found. IfSome found (λ epoch. (header ≡ Header.Open epoch) × (epoch % 2 ≡ number))) }
    ensures closed { IfOk result (λ found. IfNone found (header ≡ Header.Closed)) }
    ensures foreign { OnErr result (IsForeign header number) }
    ensures faults { OnErr result (result ≡ Err StoreFault.Damaged) }
{
    match header {
        Header::Closed => Ok(None),
        Header::Open(epoch) if epoch % 2 == number => Ok(Some(epoch)),
        _ => Err(StoreFault::Damaged),
    }
}

/// Returns true if the next epoch's segment is open, given the epoch of the latest image. The epoch's own segment must
/// be open.
fn follows(epoch: u64, own: Option<u64>, other: Option<u64>) -> Result<bool, StoreFault>
    ensures own { OnOk result (own ≡ Some epoch) }
    ensures other { IfOk result (λ follows. MatchBool follows (other ≡ Some (epoch + 1)) (Adjoins epoch other)) }
    ensures fits { IfOk result (λ follows. IsTrue follows → epoch + 1 < 2 ^ 64) }
    ensures damaged { OnErr result ((own ≢ Some epoch) ⊎ ((other ≢ Some (epoch + 1)) × (Adjoins epoch other → ⊥))) }
    ensures faults { OnErr result (result ≡ Err StoreFault.Damaged) }
{
    if own != Some(epoch) {
        return Err(StoreFault::Damaged);
    }
    match other {
        None => Ok(false),
        Some(other) if epoch.checked_add(1) == Some(other) => Ok(true),
        Some(other) if other.checked_add(1) == Some(epoch) => Ok(false),
        Some(_) => Err(StoreFault::Damaged),
    }
}

/// The latest image of the two slots.
#[derive(Clone, Copy)]
pub(crate) enum Latest {
    /// No image is open.
    None,
    /// The image in slot 0, of this epoch.
    First(u64),
    /// The image in slot 1, of this epoch.
    Second(u64),
}

/// Returns the latest image, from the epochs of the two slots.
fn find_latest(first: Option<u64>, second: Option<u64>) -> Latest
    ensures { IsLatestOf first second result }
{
    match (first, second) {
        (None, None) => Latest::None,
        (Some(epoch), None) => Latest::First(epoch),
        (None, Some(epoch)) => Latest::Second(epoch),
        (Some(epoch), Some(other)) => {
            if other < epoch {
                Latest::First(epoch)
            } else {
                Latest::Second(other)
            }
        }
    }
}

/// Classifies a store without an image.
fn survey_new(segment0: Option<u64>, segment1: Option<u64>) -> Result<Survey, StoreFault>
    ensures new { IfOk result (λ survey. survey ≡ Survey.New) }
    ensures first { OnOk result ((segment0 ≡ None) ⊎ (segment0 ≡ Some 0)) }
    ensures second { OnOk result (segment1 ≡ None) }
    ensures damaged { OnErr result ((segment1 ≢ None) ⊎ ((segment0 ≢ None) × (segment0 ≢ Some 0))) }
    ensures faults { OnErr result (result ≡ Err StoreFault.Damaged) }
{
    match (segment0, segment1) {
        (None | Some(0), None) => Ok(Survey::New),
        _ => Err(StoreFault::Damaged),
    }
}

/// Classifies a store by the epochs of its open slots.
fn survey_open(
    image0: Option<u64>,
    image1: Option<u64>,
    segment0: Option<u64>,
    segment1: Option<u64>,
) -> Result<Survey, StoreFault>
    ensures surveyed { (slots : Slots) → TellAll slots image0 image1 segment0 segment1 → IfOk result (Surveys slots) }
    ensures damaged { (slots : Slots) → TellAll slots image0 image1 segment0 segment1
        → OnErr result ((base : State) → (records : List Record) → Encodes (as_written slots) base records → ⊥) }
    ensures fits { IfOk result FitsNext }
    ensures faults { OnErr result (result ≡ Err StoreFault.Damaged) }
{
    match find_latest(image0, image1) {
        Latest::First(epoch) => match follows(epoch, segment0, segment1) {
            Ok(follows) => Ok(Survey::InUse { epoch, follows }),
            Err(fault) => Err(fault),
        },
        Latest::Second(epoch) => match follows(epoch, segment1, segment0) {
            Ok(follows) => Ok(Survey::InUse { epoch, follows }),
            Err(fault) => Err(fault),
        },
        Latest::None => survey_new(segment0, segment1),
    }
}

/// Checks that no header has an unknown version.
fn have_one_version(headers: &Headers) -> Result<(), StoreFault>
    ensures none { OnOk result ((headers.now.image0 ≢ Header.OtherVersion) × (headers.now.image1 ≢ Header.OtherVersion)
        × (headers.now.segment0 ≢ Header.OtherVersion) × (headers.now.segment1 ≢ Header.OtherVersion)) }
    ensures some { OnErr result ((headers.now.image0 ≡ Header.OtherVersion)
        ⊎ ((headers.now.image1 ≡ Header.OtherVersion)
        ⊎ ((headers.now.segment0 ≡ Header.OtherVersion) ⊎ (headers.now.segment1 ≡ Header.OtherVersion)))) }
    ensures faults { OnErr result (result ≡ Err StoreFault.Version) }
{
    if headers.image0 == Header::OtherVersion {
        return Err(StoreFault::Version);
    }
    if headers.image1 == Header::OtherVersion {
        return Err(StoreFault::Version);
    }
    if headers.segment0 == Header::OtherVersion {
        return Err(StoreFault::Version);
    }
    if headers.segment1 == Header::OtherVersion {
        return Err(StoreFault::Version);
    }
    Ok(())
}

/// Classifies a store by the headers of its slots, none of which has an unknown version.
fn survey_headers(headers: &Headers) -> Result<Survey, StoreFault>
    ensures surveyed { (slots : Slots)
        → SayAll slots headers.now.image0 headers.now.image1 headers.now.segment0 headers.now.segment1
        → IfOk result (Surveys slots) }
    ensures damaged { (slots : Slots)
        → SayAll slots headers.now.image0 headers.now.image1 headers.now.segment0 headers.now.segment1
        → OnErr result ((base : State) → (records : List Record) → Encodes (as_written slots) base records → ⊥) }
    ensures fits { IfOk result FitsNext }
    ensures faults { OnErr result (result ≡ Err StoreFault.Damaged) }
{
    let image0 = epoch_in(headers.image0, 0)?;
    let image1 = epoch_in(headers.image1, 1)?;
    let segment0 = epoch_in(headers.segment0, 0)?;
    let segment1 = epoch_in(headers.segment1, 1)?;
    survey_open(image0, image1, segment0, segment1)
}

/// Classifies a store by the headers of its slots.
///
/// `Version`: an open slot has an unknown version. `Damaged`: the epoch of an open slot belongs to the other slot, or
/// the slots aren't as a server leaves them.
pub(crate) fn survey_store(headers: &Headers) -> Result<Survey, StoreFault>
    ensures surveyed { (slots : Slots)
        → SayAll slots headers.now.image0 headers.now.image1 headers.now.segment0 headers.now.segment1
        → IfOk result (Surveys slots) }
    ensures one_version { (slots : Slots)
        → SayAll slots headers.now.image0 headers.now.image1 headers.now.segment0 headers.now.segment1
        → OnOk result (IsOtherVersion (as_written slots) → ⊥) }
    ensures version { (slots : Slots)
        → SayAll slots headers.now.image0 headers.now.image1 headers.now.segment0 headers.now.segment1
        → IsErrOf result StoreFault.Version → IsOtherVersion (as_written slots) }
    ensures no_other { (slots : Slots)
        → SayAll slots headers.now.image0 headers.now.image1 headers.now.segment0 headers.now.segment1
        → IsErrOf result StoreFault.Damaged → IsOtherVersion (as_written slots) → ⊥ }
    ensures damaged { (slots : Slots)
        → SayAll slots headers.now.image0 headers.now.image1 headers.now.segment0 headers.now.segment1
        → IsErrOf result StoreFault.Damaged → (base : State) → (records : List Record)
        → Encodes (as_written slots) base records → ⊥ }
    ensures fits { IfOk result FitsNext }
    ensures faults { OnErr result ((result ≡ Err StoreFault.Version) ⊎ (result ≡ Err StoreFault.Damaged)) }
{
    have_one_version(headers)?;
    let survey = survey_headers(headers)?;
    Ok(survey)
}
