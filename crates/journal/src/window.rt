// The piece of a slot that a reader holds in memory.
ghost use Rattle.std.specs.Prelude.{◌≡◌, ◌+◌, ◌≤◌, length, take, drop, IfOk, OnOk};
ghost use Rattle.disk.specs.Slots.{slot_of};
ghost use Rattle.disk.specs.Moments.{Passes, MayLeave, CountsFailure};
ghost use Rattle.journal.specs.Windows.{IsOver, IsFull};

use disk::{Disk, DiskFault, Slot};
use std::alloc::{AllocError, Global};
use std::marker::Model;

/// Maximum number of bytes that a reader takes from a segment in one step: a gate, a count and a length, then a
/// record's number, its space and two frames.
pub const LONGEST_STEP: usize = 1 + 4 + 8 + 8 + 4 + 2 * (4 + 65_532);

/// A piece of a slot, which moves from the slot's front to its end.
#[derive(Drop)]
pub(crate) struct Window {
    slot: Slot,

    // The bytes read are `buffer[from..to]`; in the slot they begin at offset `at`.
    buffer: Vec<u8>,
    from: usize,
    to: usize,
    at: u64,
    end: u64,
}

impl Model for Window {
    ghost use Rattle.std.specs.Prelude.{◌+◌, ◌-◌, ◌≤◌, length, take, drop};
    ghost use Rattle.journal.specs.Windows.{WindowValue};

    ghost Value = { WindowValue };

    ghost view = { λ w. record {
      slot = w.slot;
      at = w.at;
      front = drop w.from (take w.to w.buffer.items);
      room = length w.buffer.items;
      end = w.end;
    } };

    ghost invariant = { λ w. (w.from ≤ w.to) × (w.to ≤ length w.buffer.items) × (w.at + (w.to - w.from) ≤ w.end) };
}

impl Window {
    /// Creates a window over a slot from offset `at` on, without any bytes yet. It has room for `room` bytes, or for
    /// the whole slot if that is shorter.
    pub(crate) fn over<D: Disk>(
        alloc: Global,
        disk: &D,
        slot: Slot,
        at: u64,
        room: usize,
    ) -> Result<Window, AllocError>
        requires place { D.honest → at ≤ length (slot_of (D.view disk.now).seen slot) }
        requires room { LONGEST_STEP ≤ room }
        ensures over { D.honest → IfOk result (λ window. IsOver (slot_of (D.view disk.now).seen slot) window) }
        ensures place { D.honest → IfOk result (λ window. window.at ≡ at) }
        ensures slot { IfOk result (λ window. window.slot ≡ slot) }
    {
        let end = disk.length(slot);
        let room = (room as u64).min(end) as usize;
        let buffer = vec![in alloc; 0; room]?;
        Ok(Window {
            slot,
            buffer,
            from: 0,
            to: 0,
            at: at.min(end),
            end,
        })
    }

    /// Returns the bytes in the window.
    pub(crate) fn front(&self) -> &[u8]
        ensures { result.now ≡ self.now.front }
    {
        &self.buffer[self.from..self.to]
    }

    /// Returns the offset in the slot of the window's first byte.
    pub(crate) fn at(&self) -> u64
        ensures { result ≡ self.now.at }
    {
        self.at
    }

    /// Advances the window by `count` bytes.
    pub(crate) fn pass(&mut self, count: usize)
        requires { count ≤ length self.old.front }
        ensures at { self.new.at ≡ self.old.at + count }
        ensures front { self.new.front ≡ drop count self.old.front }
        ensures others { (self.new.slot ≡ self.old.slot) × (self.new.room ≡ self.old.room)
            × (self.new.end ≡ self.old.end) }
    {
        self.from += count;
        self.at += count as u64;
    }

    /// Fills the window by one read from its offset.
    fn read<D: Disk>(&mut self, disk: &mut D) -> Result<(), DiskFault>
        ensures shown { D.honest → IsOver (slot_of (D.view disk.old).seen self.old.slot) self.old
            → OnOk result (IsOver (slot_of (D.view disk.old).seen self.old.slot) self.new × IsFull self.new) }
        ensures place { (self.new.slot ≡ self.old.slot) × (self.new.at ≡ self.old.at) }
        ensures seen { D.honest → (D.view disk.new).seen ≡ (D.view disk.old).seen }
        ensures time { D.honest → Passes (D.view disk.old) (D.view disk.new) (MayLeave (D.view disk.old)) }
        ensures failures { CountsFailure (D.failed_calls disk.old) (D.failed_calls disk.new) result }
    {
        let count = disk.read(self.slot, self.at, &mut self.buffer)?;
        self.from = 0;
        self.to = (count as u64).min(self.end - self.at) as usize;
        Ok(())
    }

    /// Ensures that the window holds as many bytes as a reader's longest step needs, or all that remain. It reads only
    /// if the window holds fewer.
    pub(crate) fn fill<D: Disk>(&mut self, disk: &mut D) -> Result<(), DiskFault>
        ensures shown { D.honest → IsOver (slot_of (D.view disk.old).seen self.old.slot) self.old
            → OnOk result (IsOver (slot_of (D.view disk.old).seen self.old.slot) self.new × IsFull self.new) }
        ensures place { (self.new.slot ≡ self.old.slot) × (self.new.at ≡ self.old.at) }
        ensures seen { D.honest → (D.view disk.new).seen ≡ (D.view disk.old).seen }
        ensures time { D.honest → Passes (D.view disk.old) (D.view disk.new) (MayLeave (D.view disk.old)) }
        ensures failures { CountsFailure (D.failed_calls disk.old) (D.failed_calls disk.new) result }
    {
        let shown = self.to - self.from;
        if LONGEST_STEP <= shown {
            return Ok(());
        }
        if self.end - self.at <= shown as u64 {
            return Ok(());
        }
        self.read(disk)
    }
}
