//! Steps that return a value of the caller, so that the caller needn't drop it if a step fails.
ghost use Rattle.std.specs.Prelude.{◌≡◌, ◌+◌, ◌<◌, ◌≤◌, ◌∷◌, ◌++◌, [], Ok, Err, length, take, IfErr, IfOk, OnOk};
ghost use Rattle.checkpoint.specs.Images.{open_image};
ghost use Rattle.disk.specs.Moments.{CountsFailure, Follows, IsSynced, Passes};
ghost use Rattle.disk.specs.Slots.{slot_of, with_slot};
ghost use Rattle.ipc_model.specs.store.Store.{closed_gate};
ghost use Rattle.recover.specs.AtRest.{IsAtRest};
ghost use Rattle.recover.specs.Making.{DiffersIn};
ghost use Rattle.slot_steps.specs.Steps.{IsRemade, image_slot as slot_of_epoch};

use crate::making::end_segment;
use checkpoint::Image;
use disk::{Disk, DiskFault, Slot};

/// Pairs a value with the value of a result. If the result is an error, the first value is dropped here.
pub(crate) fn both<T: Drop, U: Drop, E: Drop>(value: T, made: Result<U, E>) -> Result<(T, U), E>
    ensures ok { IfOk result (λ r. (r.0 ≡ value) × (made ≡ Ok r.1)) }
    ensures err { IfErr result (λ e. made ≡ Err e) }
{
    match made {
        Ok(other) => Ok((value, other)),
        Err(e) => Err(e),
    }
}

/// Writes an image, then returns `value`.
pub(crate) fn write_after<D: Disk, T: Drop>(
    disk: &mut D,
    image: &Image,
    value: T,
) -> Result<T, DiskFault>
    ensures value { IfOk result (λ v. v ≡ value) }
    ensures made { D.honest → OnOk result ((D.view disk.new).seen
        ≡ with_slot (D.view disk.old).seen (slot_of_epoch image.now.epoch)
        (open_image image.now.epoch image.now.encoding)) }
    ensures synced { D.honest → OnOk result (IsSynced (D.view disk.new) (slot_of_epoch image.now.epoch)) }
    ensures any_moment { D.honest → IsSynced (D.view disk.old) (slot_of_epoch image.now.epoch)
        → Passes (D.view disk.old) (D.view disk.new)
        (Follows (D.view disk.old) (slot_of_epoch image.now.epoch)
        (IsRemade 24 (open_image image.now.epoch image.now.encoding))) }
    ensures failures { CountsFailure (D.failed_calls disk.old) (D.failed_calls disk.new) result }
{
    let written = image.write(disk);
    value_after(value, written)
}

/// Ends a segment, then returns `value`.
pub(crate) fn end_after<D: Disk, T: Drop>(
    disk: &mut D,
    slot: Slot,
    end: u64,
    value: T,
) -> Result<T, DiskFault>
    requires { D.honest → end ≤ length (slot_of (D.view disk.old).seen slot) }
    ensures value { IfOk result (λ v. v ≡ value) }
    ensures ended { D.honest → OnOk result ((D.view disk.new).seen ≡ with_slot (D.view disk.old).seen slot
        (take (end + 1) (slot_of (D.view disk.old).seen slot ++ closed_gate ∷ []))) }
    ensures rest { D.honest → IsAtRest (D.view disk.old) → OnOk result (IsAtRest (D.view disk.new)) }
    ensures any_moment { D.honest → IsAtRest (D.view disk.old) → end < length (slot_of (D.view disk.old).seen slot)
        → Passes (D.view disk.old) (D.view disk.new) (DiffersIn (D.view disk.old).seen slot
        (λ after. take (end + 1) after ≡ take (end + 1) (slot_of (D.view disk.old).seen slot))) }
    ensures failures { CountsFailure (D.failed_calls disk.old) (D.failed_calls disk.new) result }
{
    let ended = end_segment(disk, slot, end);
    value_after(value, ended)
}

/// Returns `value` after a successful step. If the step failed, the value is dropped here.
pub(crate) fn value_after<T: Drop, E: Drop>(value: T, done: Result<(), E>) -> Result<T, E>
    ensures ok { IfOk result (λ v. (v ≡ value) × (done ≡ Ok tt)) }
    ensures err { IfErr result (λ e. done ≡ Err e) }
{
    match done {
        Ok(()) => Ok(value),
        Err(e) => Err(e),
    }
}
