// The device calls of an image's steps, on one slot.
ghost use Rattle.std.specs.Prelude.{◌≡◌, ◌+◌, ◌<◌, ◌≤◌, ◌++◌, [], length, take, drop, OnOk};
ghost use Rattle.disk.specs.Slots.{slot_of, with_slot};
ghost use Rattle.disk.specs.Moments.{IsSynced, Passes, Follows, CountsFailure};
ghost use Rattle.ipc_model.specs.store.Store.{epoch_encoding, IsClosed};
ghost use Rattle.words.specs.Words.{long_word};
ghost use Rattle.checkpoint.specs.Images.{HoldsAfter, IsFinishing, first_pieces, open_image};
ghost use Rattle.ipc_model.specs.world.World.{pieces_of};
ghost use Rattle.slot_steps.specs.Steps.{IsClosing, IsRemade, IsShut, IsStillClosed};

use codes::StoreVersion;
use disk::{Disk, DiskFault, Slot};
use slot_steps::{
    IMAGE_HEADER, OPEN_GATE, close_slot, cut_after, sync_after, write_after, write_gate,
};

/// Maximum number of bytes of an encoded state that one write stores.
pub const PIECE: usize = 4096;

/// Returns the bytes between an image's gate and its encoded state: the version, six zero bytes, its epoch, and the
/// encoding's length.
fn image_start(epoch: u64, length: u64) -> [u8; 23]
    ensures { result ≡ epoch_encoding epoch ++ long_word length }
{
    let [a, b, c, d, e, f, g, h] = epoch.to_le_bytes();
    let [i, j, k, l, m, n, o, p] = length.to_le_bytes();
    let version = StoreVersion::current().number();
    [
        version, 0, 0, 0, 0, 0, 0, a, b, c, d, e, f, g, h, i, j, k, l, m, n, o, p,
    ]
}

/// Extends a closed slot that is too short for a header to a header's length, with zeros.
fn extend<D: Disk>(disk: &mut D, slot: Slot) -> Result<(), DiskFault>
    requires begun { D.honest → 0 < length (slot_of (D.view disk.old).seen slot) }
    requires short { D.honest → length (slot_of (D.view disk.old).seen slot) ≤ 24 }
    requires closed { D.honest → IsClosed (slot_of (D.view disk.old).seen slot) }
    ensures cleared { D.honest → OnOk result (HoldsAfter (slot_of (D.view disk.new).seen slot) []) }
    ensures others { D.honest → OnOk result
        ((D.view disk.new).seen ≡ with_slot (D.view disk.old).seen slot (slot_of (D.view disk.new).seen slot)) }
    ensures shut { D.honest → IsShut (D.view disk.old) slot → OnOk result (IsShut (D.view disk.new) slot) }
    ensures any_moment { D.honest → IsShut (D.view disk.old) slot
        → Passes (D.view disk.old) (D.view disk.new) (Follows (D.view disk.old) slot IsStillClosed) }
    ensures failures { CountsFailure (D.failed_calls disk.old) (D.failed_calls disk.new) result }
    ensures calls { D.calls disk.new ≤ D.calls disk.old + 1 }
{
    write_after(disk, slot, 1, &[0; 23])
}

/// Truncates or extends a closed slot to a header's length.
fn resize<D: Disk>(disk: &mut D, slot: Slot) -> Result<(), DiskFault>
    requires begun { D.honest → 0 < length (slot_of (D.view disk.old).seen slot) }
    requires closed { D.honest → IsClosed (slot_of (D.view disk.old).seen slot) }
    ensures cleared { D.honest → OnOk result (HoldsAfter (slot_of (D.view disk.new).seen slot) []) }
    ensures others { D.honest → OnOk result
        ((D.view disk.new).seen ≡ with_slot (D.view disk.old).seen slot (slot_of (D.view disk.new).seen slot)) }
    ensures shut { D.honest → IsShut (D.view disk.old) slot → OnOk result (IsShut (D.view disk.new) slot) }
    ensures any_moment { D.honest → IsShut (D.view disk.old) slot
        → Passes (D.view disk.old) (D.view disk.new) (Follows (D.view disk.old) slot IsStillClosed) }
    ensures failures { CountsFailure (D.failed_calls disk.old) (D.failed_calls disk.new) result }
    ensures calls { D.calls disk.new ≤ D.calls disk.old + 1 }
{
    if disk.length(slot) < IMAGE_HEADER as u64 {
        return extend(disk, slot);
    }
    cut_after(disk, slot, IMAGE_HEADER as u64)
}

/// Clears an image slot. It then has the length of a header, and its gate is closed.
pub(crate) fn clear<D: Disk>(disk: &mut D, slot: Slot) -> Result<(), DiskFault>
    ensures cleared { D.honest → OnOk result (HoldsAfter (slot_of (D.view disk.new).seen slot) []) }
    ensures others { D.honest → OnOk result
        ((D.view disk.new).seen ≡ with_slot (D.view disk.old).seen slot (slot_of (D.view disk.new).seen slot)) }
    ensures shut { D.honest → OnOk result (IsShut (D.view disk.new) slot) }
    ensures any_moment { D.honest → IsSynced (D.view disk.old) slot
        → Passes (D.view disk.old) (D.view disk.new) (Follows (D.view disk.old) slot (IsClosing 24)) }
    ensures failures { CountsFailure (D.failed_calls disk.old) (D.failed_calls disk.new) result }
    ensures calls { D.calls disk.new ≤ D.calls disk.old + 4 }
{
    close_slot(disk, slot, IMAGE_HEADER)?;
    resize(disk, slot)
}

/// Returns the number of pieces of an encoding.
pub(crate) fn pieces_in(encoding: &[u8]) -> u64
    ensures { result ≡ pieces_of encoding.now }
{
    encoding.len().div_ceil(PIECE) as u64
}

/// Returns the piece of an encoding with this index.
pub(crate) fn piece_at(encoding: &[u8], before: u64) -> &[u8]
    ensures { first_pieces before encoding.now ++ result.now ≡ first_pieces (before + 1) encoding.now }
{
    let from = (before as usize).saturating_mul(PIECE).min(encoding.len());
    let to = from.saturating_add(PIECE).min(encoding.len());
    &encoding[from..to]
}

/// Appends a piece of an encoded state to the slot.
pub(crate) fn push_piece<D: Disk>(disk: &mut D, slot: Slot, piece: &[u8]) -> Result<(), DiskFault>
    requires { D.honest → 0 < length (slot_of (D.view disk.old).seen slot) }
    ensures written { D.honest → OnOk result ((D.view disk.new).seen
        ≡ with_slot (D.view disk.old).seen slot (slot_of (D.view disk.old).seen slot ++ piece.now)) }
    ensures shut { D.honest → IsShut (D.view disk.old) slot → OnOk result (IsShut (D.view disk.new) slot) }
    ensures any_moment { D.honest → IsShut (D.view disk.old) slot
        → Passes (D.view disk.old) (D.view disk.new) (Follows (D.view disk.old) slot IsStillClosed) }
    ensures failures { CountsFailure (D.failed_calls disk.old) (D.failed_calls disk.new) result }
    ensures calls { D.calls disk.new ≤ D.calls disk.old + 1 }
{
    let end = disk.length(slot).max(1);
    write_after(disk, slot, end, piece)
}

/// Writes a whole encoding after the place of the header.
fn write_encoding<D: Disk>(disk: &mut D, slot: Slot, encoding: &[u8]) -> Result<(), DiskFault>
    requires { D.honest → HoldsAfter (slot_of (D.view disk.old).seen slot) [] }
    ensures held { D.honest → OnOk result (HoldsAfter (slot_of (D.view disk.new).seen slot) encoding.now) }
    ensures others { D.honest → OnOk result
        ((D.view disk.new).seen ≡ with_slot (D.view disk.old).seen slot (slot_of (D.view disk.new).seen slot)) }
    ensures shut { D.honest → IsShut (D.view disk.old) slot → OnOk result (IsShut (D.view disk.new) slot) }
    ensures any_moment { D.honest → IsShut (D.view disk.old) slot
        → Passes (D.view disk.old) (D.view disk.new) (Follows (D.view disk.old) slot IsStillClosed) }
    ensures failures { CountsFailure (D.failed_calls disk.old) (D.failed_calls disk.new) result }
{
    for piece in 0..pieces_in(encoding) {
        push_piece(disk, slot, piece_at(encoding, piece))?;
    }
    Ok(())
}

/// Writes an image's header after the gate, and syncs it.
fn write_header<D: Disk>(disk: &mut D, slot: Slot, epoch: u64, size: u64) -> Result<(), DiskFault>
    requires { D.honest → 24 ≤ length (slot_of (D.view disk.old).seen slot) }
    ensures written { D.honest → OnOk result ((D.view disk.new).seen ≡ with_slot (D.view disk.old).seen slot
        (take 1 (slot_of (D.view disk.old).seen slot) ++ ((epoch_encoding epoch ++ long_word size)
        ++ drop 24 (slot_of (D.view disk.old).seen slot)))) }
    ensures synced { D.honest → OnOk result (IsSynced (D.view disk.new) slot) }
    ensures any_moment { D.honest → IsShut (D.view disk.old) slot
        → Passes (D.view disk.old) (D.view disk.new) (Follows (D.view disk.old) slot IsStillClosed) }
    ensures failures { CountsFailure (D.failed_calls disk.old) (D.failed_calls disk.new) result }
    ensures calls { D.calls disk.new ≤ D.calls disk.old + 2 }
{
    write_after(disk, slot, 1, &image_start(epoch, size))?;
    sync_after(disk, slot)
}

/// Writes the header of an image whose whole encoding is in the slot, and opens the gate.
pub(crate) fn finish<D: Disk>(
    disk: &mut D,
    slot: Slot,
    epoch: u64,
    encoding: &[u8],
) -> Result<(), DiskFault>
    requires { D.honest → HoldsAfter (slot_of (D.view disk.old).seen slot) encoding.now }
    ensures made { D.honest → OnOk result
        ((D.view disk.new).seen ≡ with_slot (D.view disk.old).seen slot (open_image epoch encoding.now)) }
    ensures synced { D.honest → OnOk result (IsSynced (D.view disk.new) slot) }
    ensures any_moment { D.honest → IsShut (D.view disk.old) slot
        → Passes (D.view disk.old) (D.view disk.new) (Follows (D.view disk.old) slot (IsFinishing epoch encoding.now)) }
    ensures failures { CountsFailure (D.failed_calls disk.old) (D.failed_calls disk.new) result }
    ensures calls { D.calls disk.new ≤ D.calls disk.old + 4 }
{
    write_header(disk, slot, epoch, encoding.len() as u64)?;
    write_gate(disk, slot, OPEN_GATE)
}

/// Writes a whole image: closes its slot, writes the encoding and the header, and opens the gate.
pub(crate) fn write_all<D: Disk>(
    disk: &mut D,
    slot: Slot,
    epoch: u64,
    encoding: &[u8],
) -> Result<(), DiskFault>
    ensures made { D.honest → OnOk result
        ((D.view disk.new).seen ≡ with_slot (D.view disk.old).seen slot (open_image epoch encoding.now)) }
    ensures synced { D.honest → OnOk result (IsSynced (D.view disk.new) slot) }
    ensures any_moment { D.honest → IsSynced (D.view disk.old) slot
        → Passes (D.view disk.old) (D.view disk.new)
        (Follows (D.view disk.old) slot (IsRemade 24 (open_image epoch encoding.now))) }
    ensures failures { CountsFailure (D.failed_calls disk.old) (D.failed_calls disk.new) result }
{
    clear(disk, slot)?;
    write_encoding(disk, slot, encoding)?;
    finish(disk, slot, epoch, encoding)
}
