// Slots that may be written while they are read.
ghost use Rattle.std.specs.Prelude.{◌≡◌, ◌-◌, ◌≤◌, ◌++◌, ℕ, length, take, drop, min, IfOk};
ghost use Rattle.disk.specs.Moments.{CountsFailure};
ghost use Rattle.disk.specs.Slots.{Slots, slot_of};

use disk::{Disk, DiskFault, Slot};

/// The slots of a store, which may be written while they are read. Each read returns the contents of a slot at a moment
/// of its own.
pub trait LiveSlots {
    /// Premise: a read returns the contents of the slot.
    ghost honest: { Type 0 };

    /// The moments, ordered by `later`.
    ghost Moment: { Type 0 };

    ghost later: { Moment → Moment → Type 0 };

    ghost stays: { (m : Moment) → later m m };

    ghost joins: { (a b c : Moment) → later a b → later b c → later a c };

    /// The contents of the slots at a moment.
    ghost slots: { Moment → Slots };

    /// The moment of the last read.
    ghost now: { Self → Moment };

    /// Number of failed calls.
    ghost failed: { Self → ℕ };

    /// Reads from offset `at` on into the buffer, and returns the number of bytes. It is less than the length of the
    /// buffer only at the slot's end.
    fn read_live(&mut self, slot: Slot, at: u64, buffer: &mut [u8]) -> Result<usize, DiskFault>
        ensures later { honest → later (now self.old) (now self.new) }
        ensures count { honest → IfOk result
            (λ n. n ≡ min (length buffer.old) (length (slot_of (slots (now self.new)) slot) - at)) }
        ensures within { IfOk result (λ n. n ≤ length buffer.old) }
        ensures bytes { honest → IfOk result
            (λ n. buffer.new ≡ take n (drop at (slot_of (slots (now self.new)) slot)) ++ drop n buffer.old) }
        ensures failures { CountsFailure (failed self.old) (failed self.new) result };
}

/// If nobody else writes to a disk, its slots have the same contents at all moments.
impl<D: Disk> LiveSlots for D {
    ghost use Rattle.disk.proofs.Moments.{reads_nothing, reads_then};
    ghost use Rattle.disk.specs.Moments.{ReadsOnly};

    ghost honest = { D.honest };

    ghost Moment = { D };

    ghost later = { λ a b. ReadsOnly (D.view a) (D.view b) };

    ghost stays = { λ m. reads_nothing (D.view m) };

    ghost joins = { λ a b c first then. reads_then (D.view a) (D.view b) (D.view c) first then };

    ghost slots = { λ m. (D.view m).seen };

    ghost now = { λ d. d };

    ghost failed = { λ d. D.failed_calls d };

    fn read_live(&mut self, slot: Slot, at: u64, buffer: &mut [u8]) -> Result<usize, DiskFault> {
        self.read(slot, at, buffer)
    }
}
