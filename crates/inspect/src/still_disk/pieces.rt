// Reads a slot from its front to its end.
ghost use Rattle.std.specs.Prelude.{◌≡◌, ◌≢◌, ◌+◌, ◌<◌, ◌≤◌, length, IfErr, IfOk, OnOk};
ghost use Rattle.disk.specs.Slots.{slot_of};
ghost use Rattle.inspect.specs.still_disk.Copying.{counted};
ghost use Rattle.inspect.specs.still_disk.Live.{Copied, IsCopy};

use crate::still_disk::{CopyFault, LiveSlots};
use disk::Slot;
use std::alloc::Global;

/// Reads the next piece of a slot, and returns its length.
fn read_on<S: LiveSlots>(
    live: &mut S,
    slot: Slot,
    piece: &mut [u8],
    bytes: &mut Vec<u8>,
) -> Result<usize, CopyFault>
    requires { 0 < length piece.old }
    ensures more { S.honest → (begun : S.Moment)
        → Copied S.later (λ m. slot_of (S.slots m) slot) begun (S.now live.old) bytes.old.items
        → OnOk result (Copied S.later (λ m. slot_of (S.slots m) slot) begun (S.now live.new) bytes.new.items) }
    ensures end { S.honest → IfOk result
        (λ n. n ≡ 0 → length (slot_of (S.slots (S.now live.new)) slot) ≤ length bytes.new.items) }
    ensures longer { IfOk result (λ n. length bytes.new.items ≡ length bytes.old.items + n) }
    ensures later { S.honest → S.later (S.now live.old) (S.now live.new) }
    ensures idle { IfErr result (λ fault. fault ≢ CopyFault.Busy) }
    ensures failures { S.failed live.new ≡ counted result (S.failed live.old) }
{
    let count = live.read_live(slot, bytes.len() as u64, piece)?;
    bytes.extend_from_slice(&piece[..count])?;
    Ok(count)
}

/// Reads all bytes of a slot into a buffer, piece by piece.
///
/// It reads until a read returns nothing, instead of up to the slot's length at the start. A server that appends to a
/// segment writes a whole batch before it opens the batch's gate. So if a gate was read open, the next read returns the
/// bytes after it, even beyond the former length.
pub(crate) fn read_slot<S: LiveSlots>(
    alloc: Global,
    live: &mut S,
    slot: Slot,
    piece: &mut [u8],
) -> Result<Vec<u8>, CopyFault>
    requires { 0 < length piece.old }
    ensures copied { S.honest → IfOk result
        (λ bytes. IsCopy S.later (λ m. slot_of (S.slots m) slot) (S.now live.old) (S.now live.new) bytes.items) }
    ensures later { S.honest → S.later (S.now live.old) (S.now live.new) }
    ensures idle { IfErr result (λ fault. fault ≢ CopyFault.Busy) }
    ensures failures { S.failed live.new ≡ counted result (S.failed live.old) }
{
    let mut bytes = Vec::new(alloc);
    loop {
        let count = read_on(live, slot, piece, &mut bytes)?;
        if count == 0 {
            return Ok(bytes);
        }
    }
}
