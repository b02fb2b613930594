// A disk as the layers above see it: what a read returns, and what a crash may leave.
ghost use Rattle.std.specs.Prelude.{◌≡◌, ℕ, ◌+◌, ◌-◌, ◌≤◌, ◌++◌, length, take, drop, min, IfOk, OnOk};
ghost use Rattle.disk.specs.Slots.{slot_of, with_slot, written_at, TornWrite, TornCut};
ghost use Rattle.disk.specs.Moments.{View, MayLeave, Passes, Follows, IsSynced, CountsFailure, one_more};

use crate::Slot;

/// A device call failed. How much of its work it did isn't known.
#[derive(Clone, Copy, Debug, PartialEq, Eq)]
pub struct DiskFault;

// Counts a failed call, and returns the fault.
pub(crate) fn count_failure(failures: &mut u64) -> DiskFault
    ensures { failures.new ≡ one_more failures.old }
{
    *failures = failures.saturating_add(1);
    DiskFault
}

/// Four slots of bytes on a device that may crash at any moment.
///
/// What is said of contents has the premise `honest`: the device keeps the disk model. What is said of failures has no
/// premise.
pub trait Disk {
    /// The premise that the device keeps the disk model.
    ghost honest: { Type 0 };

    /// The disk over time.
    ghost view: { Self → View };

    /// How many calls have failed.
    ghost failed_calls: { Self → ℕ };

    /// How many calls have been made, by a count that each of them raises by one at most.
    ghost calls: { Self → ℕ };

    /// Returns how many calls have failed, as far as the count's range goes.
    fn failures(&self) -> u64
        ensures { result ≡ failed_calls self.now };

    /// The length of a slot in bytes. A slot that was never written is empty.
    fn length(&self, slot: Slot) -> u64
        ensures { honest → result ≡ length (slot_of (view self.now).seen slot) };

    /// Reads from `at` on into the buffer, and returns how many bytes came. It returns less than the buffer has room
    /// for only at the slot's end.
    fn read(&mut self, slot: Slot, at: u64, buffer: &mut [u8]) -> Result<usize, DiskFault>
        ensures count { honest → IfOk result
            (λ n. n ≡ min (length buffer.old) (length (slot_of (view self.old).seen slot) - at)) }
        ensures within { IfOk result (λ n. n ≤ length buffer.old) }
        ensures bytes { honest → IfOk result
            (λ n. buffer.new ≡ take n (drop at (slot_of (view self.old).seen slot)) ++ drop n buffer.old) }
        ensures seen { honest → (view self.new).seen ≡ (view self.old).seen }
        ensures time { honest → Passes (view self.old) (view self.new) (MayLeave (view self.old)) }
        ensures failures { CountsFailure (failed_calls self.old) (failed_calls self.new) result }
        ensures calls { calls self.new ≤ calls self.old + 1 };

    /// Writes over the bytes from `at` on, and past the end. Until the slot is synced, a crash may leave any bytes in
    /// that range.
    fn write_at(&mut self, slot: Slot, at: u64, bytes: &[u8]) -> Result<(), DiskFault>
        requires { honest → at ≤ length (slot_of (view self.old).seen slot) }
        ensures written { honest → OnOk result ((view self.new).seen
            ≡ with_slot (view self.old).seen slot (written_at (slot_of (view self.old).seen slot) at bytes.now)) }
        ensures time { honest → Passes (view self.old) (view self.new)
            (Follows (view self.old) slot (TornWrite at (length bytes.now))) }
        ensures failures { CountsFailure (failed_calls self.old) (failed_calls self.new) result }
        ensures calls { calls self.new ≤ calls self.old + 1 };

    /// Truncates a slot to a length.
    fn cut(&mut self, slot: Slot, len: u64) -> Result<(), DiskFault>
        requires { honest → len ≤ length (slot_of (view self.old).seen slot) }
        ensures cut { honest → OnOk result ((view self.new).seen
            ≡ with_slot (view self.old).seen slot (take len (slot_of (view self.old).seen slot))) }
        ensures time { honest → Passes (view self.old) (view self.new) (Follows (view self.old) slot (TornCut len)) }
        ensures failures { CountsFailure (failed_calls self.old) (failed_calls self.new) result }
        ensures calls { calls self.new ≤ calls self.old + 1 };

    /// Once this is done, a crash leaves of this slot what a read returns.
    fn sync(&mut self, slot: Slot) -> Result<(), DiskFault>
        ensures synced { honest → OnOk result (IsSynced (view self.new) slot) }
        ensures seen { honest → (view self.new).seen ≡ (view self.old).seen }
        ensures time { honest → Passes (view self.old) (view self.new) (MayLeave (view self.old)) }
        ensures failures { CountsFailure (failed_calls self.old) (failed_calls self.new) result }
        ensures calls { calls self.new ≤ calls self.old + 1 };

    /// What a read returns now is among what a crash may leave.
    ghost lasts: { honest → (disk : Self) → MayLeave (view disk) (view disk).seen };
}
