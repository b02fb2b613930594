// A disk in memory that keeps the disk model. It has every call since it was made, and what it held then.
ghost use Rattle.std.specs.Prelude.{◌≡◌, ◌+◌, ◌-◌, ◌≤◌, ◌<◌, ◌++◌, length, take, drop, min, if◌then◌else◌, IfOk, OnOk};
ghost use Rattle.disk.specs.Slots.{Slots, empty_slots, slot_of, with_slot, written_at, TornWrite, TornCut};
ghost use Rattle.disk.specs.Moments.{Passes, Follows, IsSynced, MayLeave};
ghost use Rattle.disk.specs.Log.{slots_of, replayed};

use crate::crash::{front, overwritten, redo};
use crate::device::count_failure;
use crate::log::{Contents, LoggedCall};
use crate::plan::Plan;
use crate::{Disk, DiskFault, Slot, Torn};
use std::alloc::{AllocError, Global};

/// Four slots in memory. A crash leaves whatever the disk model allows.
///
/// It keeps each write since it was made. A call that runs out of memory fails and changes nothing.
pub struct MemDisk {
    alloc: Global,
    first: Contents,
    seen: Contents,
    log: Vec<LoggedCall>,
    plan: Plan,
    failures: u64,
    ghost is_replay: { slots_of seen ≡ replayed (slots_of first) log.items },
}

// Written out, so that proofs above know one function and not its parts.
impl Drop for MemDisk {
    fn drop(self) {
        let MemDisk {
            alloc: _,
            first,
            seen,
            log,
            plan: _,
            failures: _,
        } = self;
        drop(first);
        drop(seen);
        drop(log);
    }
}

fn fill(buffer: &mut [u8], bytes: &[u8], at: u64) -> usize
    ensures count { result ≡ min (length buffer.old) (length bytes.now - at) }
    ensures bytes { buffer.new ≡ take result (drop at bytes.now) ++ drop result buffer.old }
{
    let at = at as usize;
    if at >= bytes.len() {
        return 0;
    }
    let count = buffer.len().min(bytes.len() - at);
    buffer[..count].copy_from_slice(&bytes[at..at + count]);
    count
}

fn empty(alloc: Global) -> Contents
    ensures { slots_of result ≡ empty_slots }
{
    Contents {
        image0: Vec::new(alloc),
        image1: Vec::new(alloc),
        segment0: Vec::new(alloc),
        segment1: Vec::new(alloc),
    }
}

// Copies the four slots.
fn copy_of(alloc: Global, slots: &Contents) -> Result<Contents, AllocError>
    ensures { IfOk result (λ copy. slots_of copy ≡ slots_of slots.now) }
{
    Ok(Contents {
        image0: slots.image0.to_vec(alloc)?,
        image1: slots.image1.to_vec(alloc)?,
        segment0: slots.segment0.to_vec(alloc)?,
        segment1: slots.segment1.to_vec(alloc)?,
    })
}

impl MemDisk {
    ghost use Rattle.disk.specs.Memory.{memory_view, plan_of, IsAtRest, IsUnchanged};

    /// A disk whose slots are empty. It takes no memory.
    pub fn new(alloc: Global) -> MemDisk
        ensures at_rest { IsAtRest result empty_slots }
    {
        MemDisk {
            alloc,
            first: empty(alloc),
            seen: empty(alloc),
            log: Vec::new(alloc),
            plan: Plan::none(),
            failures: 0,
        }
    }

    /// A disk with these bytes in its slots, all of them on the disk. The error is that memory ran out.
    pub fn with_slots(
        alloc: Global,
        image0: &[u8],
        image1: &[u8],
        segment0: &[u8],
        segment1: &[u8],
    ) -> Result<MemDisk, AllocError>
        ensures at_rest { IfOk result (λ disk. IsAtRest disk
            record { image0 = image0.now; image1 = image1.now; segment0 = segment0.now; segment1 = segment1.now }) }
    {
        let first = Contents {
            image0: image0.to_vec(alloc)?,
            image1: image1.to_vec(alloc)?,
            segment0: segment0.to_vec(alloc)?,
            segment1: segment1.to_vec(alloc)?,
        };
        MemDisk::holding(alloc, first)
    }

    fn holding(alloc: Global, first: Contents) -> Result<MemDisk, AllocError>
        ensures { IfOk result (λ disk. IsAtRest disk (slots_of first)) }
    {
        Ok(MemDisk {
            alloc,
            seen: copy_of(alloc, &first)?,
            first,
            log: Vec::new(alloc),
            plan: Plan::none(),
            failures: 0,
        })
    }

    /// The bytes of a slot, as a read returns them.
    pub fn content(&self, slot: Slot) -> &[u8]
        ensures bytes { result.now ≡ slot_of (memory_view self.now).seen slot }

        // A crash may leave this, so a claim about everything that a crash may leave isn't vacuous.
        ensures may_be_left { MayLeave (memory_view self.now) (memory_view self.now).seen }
    {
        self.seen.slot(slot)
    }

    /// Plans failures of the device calls from now on, which count from 1: all but `length` and `failures`. At
    /// `stop_at` that call and all later ones fail, at `fail_at` only that one. A write or truncation that fails in
    /// this way has begun: `torn` says what a crash leaves of it.
    pub fn plan(&mut self, stop_at: Option<u64>, fail_at: Option<u64>, torn: Torn)
        ensures planned { plan_of self.new ≡ record { stop_at = stop_at; fail_at = fail_at; torn = torn; calls = 0 } }
        ensures unchanged { IsUnchanged self.old self.new }
    {
        self.plan = Plan {
            stop_at,
            fail_at,
            torn,
            calls: 0,
        };
    }

    /// The disk that a crash now leaves, as the plan says. All that it holds is on the disk, no failure is planned, and
    /// none is counted. The error is that memory ran out.
    pub fn after_crash(self) -> Result<MemDisk, AllocError>
        ensures left { IfOk result (λ disk. MayLeave (memory_view self) (memory_view disk).seen) }
        ensures at_rest { IfOk result (λ disk. IsAtRest disk (memory_view disk).seen) }
    {
        let alloc = self.alloc;
        let left = self.left_by_crash();
        drop(self);
        let left = left?;
        MemDisk::holding(alloc, left)
    }

    // What a crash now leaves in the slots, as the plan says.
    fn left_by_crash(&self) -> Result<Contents, AllocError>
        ensures { IfOk result (λ left. MayLeave (memory_view self.now) (slots_of left)) }
    {
        let mut seen = copy_of(self.alloc, &self.first)?;
        let mut left = copy_of(self.alloc, &self.first)?;
        for call in &self.log {
            redo(self.alloc, self.plan.torn, call, &mut seen, &mut left)?;
        }
        Ok(left)
    }

    // Notes a write as begun, and does it if asked to. At `Err` it has changed nothing.
    fn note_write(
        &mut self,
        slot: Slot,
        at: u64,
        bytes: &[u8],
        is_done: bool,
    ) -> Result<(), AllocError>
        requires { at ≤ length (slot_of (slots_of self.old.seen) slot) }
        ensures seen { OnOk result (slots_of self.new.seen ≡ (if is_done
            then with_slot (slots_of self.old.seen) slot
            (written_at (slot_of (slots_of self.old.seen) slot) at bytes.now)
            else slots_of self.old.seen)) }
        ensures time { Passes (memory_view self.old) (memory_view self.new)
            (Follows (memory_view self.old) slot (TornWrite at (length bytes.now))) }
        ensures whole { OnOk result ((c : Slots)
            → Follows (memory_view self.old) slot (TornWrite at (length bytes.now)) c
            → MayLeave (memory_view self.new) c) }
        ensures failures { self.new.failures ≡ self.old.failures }
        ensures plan { self.new.plan ≡ self.old.plan }
    {
        let written = overwritten(self.alloc, self.seen.slot(slot), at, bytes)?;
        let bytes = bytes.to_vec(self.alloc)?;
        self.log.push(LoggedCall::Write {
            slot,
            at,
            bytes,
            is_done,
        })?;
        if is_done {
            self.seen.set(slot, written);
        }
        Ok(())
    }

    // The same for a truncation.
    fn note_cut(&mut self, slot: Slot, len: u64, is_done: bool) -> Result<(), AllocError>
        ensures seen { OnOk result (slots_of self.new.seen ≡ (if is_done
            then with_slot (slots_of self.old.seen) slot (take len (slot_of (slots_of self.old.seen) slot))
            else slots_of self.old.seen)) }
        ensures time { Passes (memory_view self.old) (memory_view self.new)
            (Follows (memory_view self.old) slot (TornCut len)) }
        ensures whole { OnOk result ((c : Slots) → Follows (memory_view self.old) slot (TornCut len) c
            → MayLeave (memory_view self.new) c) }
        ensures failures { self.new.failures ≡ self.old.failures }
        ensures plan { self.new.plan ≡ self.old.plan }
    {
        let left = front(self.alloc, self.seen.slot(slot), len)?;
        self.log.push(LoggedCall::Cut { slot, len, is_done })?;
        if is_done {
            self.seen.set(slot, left);
        }
        Ok(())
    }

    fn note_sync(&mut self, slot: Slot) -> Result<(), AllocError>
        ensures synced { OnOk result (IsSynced (memory_view self.new) slot) }
        ensures seen { slots_of self.new.seen ≡ slots_of self.old.seen }
        ensures time { Passes (memory_view self.old) (memory_view self.new) (MayLeave (memory_view self.old)) }
        ensures whole { OnOk result ((c : Slots) → MayLeave (memory_view self.old) c
            → slot_of c slot ≡ slot_of (slots_of self.old.seen) slot → MayLeave (memory_view self.new) c) }
        ensures failures { self.new.failures ≡ self.old.failures }
        ensures plan { self.new.plan ≡ self.old.plan }
    {
        self.log.push(LoggedCall::Sync { slot })?;
        Ok(())
    }
}

impl Disk for MemDisk {
    ghost use Rattle.disk.specs.Lasting.{memory_lasts};
    ghost use Rattle.disk.specs.Memory.{memory_view};

    ghost honest = { Unit {0} };

    ghost view = { memory_view };

    ghost failed_calls = { λ disk. disk.failures };

    ghost calls = { λ disk. disk.plan.calls };

    fn failures(&self) -> u64 {
        self.failures
    }

    fn length(&self, slot: Slot) -> u64 {
        self.seen.slot(slot).len() as u64
    }

    fn read(&mut self, slot: Slot, at: u64, buffer: &mut [u8]) -> Result<usize, DiskFault> {
        if !self.plan.admit() {
            return Err(count_failure(&mut self.failures));
        }
        Ok(fill(buffer, self.seen.slot(slot), at))
    }

    fn write_at(&mut self, slot: Slot, at: u64, bytes: &[u8]) -> Result<(), DiskFault> {
        let is_done = self.plan.admit();
        match self.note_write(slot, at, bytes, is_done) {
            Ok(()) if is_done => Ok(()),
            _ => Err(count_failure(&mut self.failures)),
        }
    }

    fn cut(&mut self, slot: Slot, len: u64) -> Result<(), DiskFault> {
        let is_done = self.plan.admit();
        match self.note_cut(slot, len, is_done) {
            Ok(()) if is_done => Ok(()),
            _ => Err(count_failure(&mut self.failures)),
        }
    }

    fn sync(&mut self, slot: Slot) -> Result<(), DiskFault> {
        if !self.plan.admit() {
            return Err(count_failure(&mut self.failures));
        }
        match self.note_sync(slot) {
            Ok(()) => Ok(()),
            Err(_) => Err(count_failure(&mut self.failures)),
        }
    }

    ghost lasts = { memory_lasts };
}
