// Each contract states what a crash at any moment of the step may leave, whatever a crash before might have left in the
// other slots.
ghost use Rattle.std.specs.Prelude.{◌≡◌, ◌↔◌, ◌⊎◌, ◌≤◌, ◌<◌, ◌∷◌, [], length, take, drop, IsTrue, MatchBool, OnOk, IfOk, ◌+◌};
ghost use Rattle.disk.specs.Slots.{slot_of, with_slot, written_at};
ghost use Rattle.disk.specs.Moments.{CountsFailure, Follows, IsSynced, MayLeave, Passes, ReadsOnly};
ghost use Rattle.ipc_model.specs.store.Recovery.{IsNotOpen, IsOpen};
ghost use Rattle.ipc_model.specs.store.Store.{open_gate, IsClosed};
ghost use Rattle.slot_steps.specs.Steps.{ClearsSlot, FindsSlotClear, HasSomeGate, IsClosing, IsShut, IsStillClosed, shortened};

use crate::slots::{CLOSED_GATE, OPEN_GATE};
use disk::{Disk, DiskFault, Slot};

/// Writes the gate of a slot, and syncs it.
pub fn write_gate<D: Disk>(disk: &mut D, slot: Slot, gate: u8) -> Result<(), DiskFault>
    ensures written { D.honest → OnOk result ((D.view disk.new).seen
        ≡ with_slot (D.view disk.old).seen slot (gate ∷ drop 1 (slot_of (D.view disk.old).seen slot))) }
    ensures synced { D.honest → OnOk result (IsSynced (D.view disk.new) slot) }
    ensures any_moment { D.honest → Passes (D.view disk.old) (D.view disk.new)
        (Follows (D.view disk.old) slot HasSomeGate) }
    ensures failures { CountsFailure (D.failed_calls disk.old) (D.failed_calls disk.new) result }
    ensures calls { D.calls disk.new ≤ D.calls disk.old + 2 }
{
    disk.write_at(slot, 0, &[gate])?;
    disk.sync(slot)
}

/// Returns true if a slot's gate is open, or its header isn't complete.
fn needs_closing<D: Disk>(disk: &mut D, slot: Slot, header: usize) -> Result<bool, DiskFault>
    requires { 1 < header }
    ensures needs { D.honest → IfOk result
        (λ needs. IsTrue needs ↔ ((length (slot_of (D.view disk.old).seen slot) < header)
        ⊎ (take 1 (slot_of (D.view disk.old).seen slot) ≡ open_gate ∷ []))) }
    ensures seen { D.honest → (D.view disk.new).seen ≡ (D.view disk.old).seen }
    ensures time { D.honest → Passes (D.view disk.old) (D.view disk.new) (MayLeave (D.view disk.old)) }
    ensures failures { CountsFailure (D.failed_calls disk.old) (D.failed_calls disk.new) result }
    ensures calls { D.calls disk.new ≤ D.calls disk.old + 1 }
{
    if disk.length(slot) < header as u64 {
        return Ok(true);
    }
    let mut gate = [OPEN_GATE];
    disk.read(slot, 0, &mut gate)?;
    Ok(gate[0] == OPEN_GATE)
}

/// Ensures that a durable closed gate is at the front of a slot. A closed gate with a complete header isn't
/// overwritten, because a crash during that write could leave an open gate before an old header.
pub fn close_slot<D: Disk>(disk: &mut D, slot: Slot, header: usize) -> Result<(), DiskFault>
    requires { 1 < header }
    ensures begun { D.honest → OnOk result (0 < length (slot_of (D.view disk.new).seen slot)) }
    ensures closed { D.honest → OnOk result (IsClosed (slot_of (D.view disk.new).seen slot)) }
    ensures others { D.honest → OnOk result
        ((D.view disk.new).seen ≡ with_slot (D.view disk.old).seen slot (slot_of (D.view disk.new).seen slot)) }
    ensures synced { D.honest → OnOk result (IsSynced (D.view disk.new) slot) }
    ensures any_moment { D.honest → IsSynced (D.view disk.old) slot
        → Passes (D.view disk.old) (D.view disk.new) (Follows (D.view disk.old) slot (IsClosing header)) }
    ensures failures { CountsFailure (D.failed_calls disk.old) (D.failed_calls disk.new) result }
    ensures calls { D.calls disk.new ≤ D.calls disk.old + 3 }
{
    if needs_closing(disk, slot, header)? {
        return write_gate(disk, slot, CLOSED_GATE);
    }
    disk.sync(slot)
}

/// Writes bytes after a slot's gate.
pub fn write_after<D: Disk>(
    disk: &mut D,
    slot: Slot,
    at: u64,
    bytes: &[u8],
) -> Result<(), DiskFault>
    requires beyond { 0 < at }
    requires inside { D.honest → at ≤ length (slot_of (D.view disk.old).seen slot) }
    ensures written { D.honest → OnOk result ((D.view disk.new).seen
        ≡ with_slot (D.view disk.old).seen slot (written_at (slot_of (D.view disk.old).seen slot) at bytes.now)) }
    ensures shut { D.honest → IsShut (D.view disk.old) slot → OnOk result (IsShut (D.view disk.new) slot) }
    ensures any_moment { D.honest → IsShut (D.view disk.old) slot
        → Passes (D.view disk.old) (D.view disk.new) (Follows (D.view disk.old) slot IsStillClosed) }
    ensures failures { CountsFailure (D.failed_calls disk.old) (D.failed_calls disk.new) result }
    ensures calls { D.calls disk.new ≤ D.calls disk.old + 1 }
{
    disk.write_at(slot, at, bytes)
}

/// Truncates a slot after its gate.
pub fn cut_after<D: Disk>(disk: &mut D, slot: Slot, len: u64) -> Result<(), DiskFault>
    requires beyond { 0 < len }
    requires inside { D.honest → len ≤ length (slot_of (D.view disk.old).seen slot) }
    ensures cut { D.honest → OnOk result ((D.view disk.new).seen
        ≡ with_slot (D.view disk.old).seen slot (take len (slot_of (D.view disk.old).seen slot))) }
    ensures shut { D.honest → IsShut (D.view disk.old) slot → OnOk result (IsShut (D.view disk.new) slot) }
    ensures any_moment { D.honest → IsShut (D.view disk.old) slot
        → Passes (D.view disk.old) (D.view disk.new) (Follows (D.view disk.old) slot IsStillClosed) }
    ensures failures { CountsFailure (D.failed_calls disk.old) (D.failed_calls disk.new) result }
    ensures calls { D.calls disk.new ≤ D.calls disk.old + 1 }
{
    disk.cut(slot, len)
}

/// Syncs the bytes after a slot's gate.
pub fn sync_after<D: Disk>(disk: &mut D, slot: Slot) -> Result<(), DiskFault>
    ensures seen { D.honest → (D.view disk.new).seen ≡ (D.view disk.old).seen }
    ensures synced { D.honest → OnOk result (IsSynced (D.view disk.new) slot) }
    ensures any_moment { D.honest → IsShut (D.view disk.old) slot
        → Passes (D.view disk.old) (D.view disk.new) (Follows (D.view disk.old) slot IsStillClosed) }
    ensures failures { CountsFailure (D.failed_calls disk.old) (D.failed_calls disk.new) result }
    ensures calls { D.calls disk.new ≤ D.calls disk.old + 1 }
{
    disk.sync(slot)
}

/// Returns true if a slot has a complete header and an open gate.
fn has_open_gate<D: Disk>(disk: &mut D, slot: Slot, header: usize) -> Result<bool, DiskFault>
    requires { 1 < header }
    ensures open { D.honest → IfOk result (λ is_open. MatchBool is_open
        (IsOpen header (slot_of (D.view disk.old).seen slot)) (IsNotOpen header (slot_of (D.view disk.old).seen slot))) }
    ensures reads { D.honest → ReadsOnly (D.view disk.old) (D.view disk.new) }
    ensures failures { CountsFailure (D.failed_calls disk.old) (D.failed_calls disk.new) result }
    ensures calls { D.calls disk.new ≤ D.calls disk.old + 1 }
{
    if disk.length(slot) < header as u64 {
        return Ok(false);
    }
    let mut front = [CLOSED_GATE];
    disk.read(slot, 0, &mut front)?;
    Ok(front[0] == OPEN_GATE)
}

/// Returns the length of a slot after a truncation by at most `most` bytes that keeps its header.
fn length_after(length: u64, header: u64, most: u64) -> u64
    ensures { result ≡ shortened header most length }
{
    length.saturating_sub(most).max(header)
}

/// Truncates a slot after its gate, and syncs it.
fn cut_synced<D: Disk>(disk: &mut D, slot: Slot, len: u64) -> Result<(), DiskFault>
    requires beyond { 0 < len }
    requires inside { D.honest → len ≤ length (slot_of (D.view disk.old).seen slot) }
    ensures cut { D.honest → OnOk result ((D.view disk.new).seen
        ≡ with_slot (D.view disk.old).seen slot (take len (slot_of (D.view disk.old).seen slot))) }
    ensures synced { D.honest → OnOk result (IsSynced (D.view disk.new) slot) }
    ensures any_moment { D.honest → IsShut (D.view disk.old) slot
        → Passes (D.view disk.old) (D.view disk.new) (Follows (D.view disk.old) slot IsStillClosed) }
    ensures failures { CountsFailure (D.failed_calls disk.old) (D.failed_calls disk.new) result }
    ensures calls { D.calls disk.new ≤ D.calls disk.old + 2 }
{
    cut_after(disk, slot, len)?;
    sync_after(disk, slot)
}

/// Truncates a slot that isn't open by at most `most` bytes, but not below its header. Returns true if it was longer.
fn shorten<D: Disk>(disk: &mut D, slot: Slot, header: usize, most: u64) -> Result<bool, DiskFault>
    requires header { 1 < header }
    requires shut { D.honest → IsNotOpen header (slot_of (D.view disk.old).seen slot) }
    ensures done { D.honest → IfOk result (λ is_step. MatchBool is_step
        (ClearsSlot header most (D.view disk.old) (D.view disk.new) slot)
        (FindsSlotClear header (D.view disk.old) (D.view disk.new) slot)) }
    ensures any_moment { D.honest → IsSynced (D.view disk.old) slot
        → Passes (D.view disk.old) (D.view disk.new) (Follows (D.view disk.old) slot (IsClosing header)) }
    ensures failures { CountsFailure (D.failed_calls disk.old) (D.failed_calls disk.new) result }
    ensures calls { D.calls disk.new ≤ D.calls disk.old + 2 }
{
    let length = disk.length(slot);
    if length <= header as u64 {
        return Ok(false);
    }
    cut_synced(disk, slot, length_after(length, header as u64, most))?;
    Ok(true)
}

/// Takes one step to clear a slot: closes its gate, or truncates it by at most `most` bytes, but not below its header.
/// Returns true if there was a step. None is left if the slot isn't open and isn't longer than its header.
pub fn clear_slot<D: Disk>(
    disk: &mut D,
    slot: Slot,
    header: usize,
    most: u64,
) -> Result<bool, DiskFault>
    requires header { 1 < header }
    requires most { 0 < most }
    ensures done { D.honest → IfOk result (λ is_step. MatchBool is_step
        (ClearsSlot header most (D.view disk.old) (D.view disk.new) slot)
        (FindsSlotClear header (D.view disk.old) (D.view disk.new) slot)) }
    ensures any_moment { D.honest → IsSynced (D.view disk.old) slot
        → Passes (D.view disk.old) (D.view disk.new) (Follows (D.view disk.old) slot (IsClosing header)) }
    ensures failures { CountsFailure (D.failed_calls disk.old) (D.failed_calls disk.new) result }
    ensures calls { D.calls disk.new ≤ D.calls disk.old + 3 }
{
    if has_open_gate(disk, slot, header)? {
        write_gate(disk, slot, CLOSED_GATE)?;
        return Ok(true);
    }
    shorten(disk, slot, header, most)
}
