//! Disks, the stores on them and their cores, as the tests see them. Nothing has a clause, and everything is generic in
//! the disk, so that a test's proof carries nothing of a disk or of a core: what is known of one would be written out
//! at each exit of a function that owns it.

use crate::asking::{AskedRow, EPOCH_FULL, FAULT, NO_MEMORY, NOT_NOW, fill, unlike};
use disk::{Disk, MemDisk, Slot, Torn};
use ipc_model::{Call, PlainReply, Reply};
use std::alloc::Global;
use system::{Event, Opened, Outcome, SubmitFault, System, open};

/// Makes calls, stores them and replies. Answers are numbers, as in a row.
pub(crate) trait TriedCore {
    /// Makes a call of space 1.
    fn submit_call(&mut self, call: &Call) -> u64;

    fn take_waiting(&mut self) -> bool;

    fn append_taken(&mut self) -> u64;

    /// Delivers the oldest receipt.
    fn hand_in(&mut self) -> bool;

    fn replied(&mut self, ticket: u64) -> u64;

    /// Runs a list of events, if there is memory.
    fn run_all(&mut self, alloc: Global, events: &[Event]) -> Option<Vec<Outcome>>;
}

/// What a reply says: the new name, the type bits, or the code.
fn acknowledged(reply: &Reply) -> u64 {
    match reply {
        Reply::Plain(PlainReply::Allocate { name }) => u64::from(*name),
        Reply::Plain(PlainReply::Type { bits }) => u64::from(*bits),
        Reply::Plain(PlainReply::Refused { code, .. }) => u64::from(code.number()),
        _ => NOT_NOW,
    }
}

impl<D: Disk> TriedCore for System<D> {
    fn submit_call(&mut self, call: &Call) -> u64 {
        match self.submit(1, call) {
            Ok(number) => number,
            Err(SubmitFault::EpochFull) => EPOCH_FULL,
            Err(SubmitFault::NoMemory) => NO_MEMORY,
        }
    }

    fn take_waiting(&mut self) -> bool {
        self.take()
    }

    fn append_taken(&mut self) -> u64 {
        match self.append() {
            Ok(is_stored) => u64::from(is_stored),
            Err(fault) => FAULT + u64::from(fault.number()),
        }
    }

    fn hand_in(&mut self) -> bool {
        self.durable()
    }

    fn replied(&mut self, ticket: u64) -> u64 {
        match self.reply(ticket) {
            Some(reply) => acknowledged(&reply),
            None => NOT_NOW,
        }
    }

    fn run_all(&mut self, alloc: Global, events: &[Event]) -> Option<Vec<Outcome>> {
        self.run(alloc, events).ok()
    }
}

/// A disk that crashes as planned.
pub(crate) trait Store: Disk {
    /// An empty disk.
    fn empty(alloc: Global) -> Self;

    /// A disk whose slots hold what this one's do, all of it synced.
    fn copied(&self, alloc: Global) -> Option<Self>;

    /// A disk with these bytes in image 0, segment 0 and segment 1.
    fn holding(alloc: Global, image0: &[u8], segment0: &[u8], segment1: &[u8]) -> Option<Self>;

    /// The bytes of a slot.
    fn bytes(&self, slot: Slot) -> &[u8];

    /// A disk whose slots hold what this one's do, except for one byte of a slot.
    fn corrupted(&self, alloc: Global, slot: Slot, at: usize, byte: u8) -> Option<Self>;

    /// Plans failures of calls, as `MemDisk::plan` does.
    fn plan_faults(&mut self, stop_at: Option<u64>, fail_at: Option<u64>, torn: Torn);

    /// What a crash leaves.
    fn stop(self) -> Option<Self>;
}

/// One or the other.
fn either<'a>(is_one: bool, one: &'a [u8], other: &'a [u8]) -> &'a [u8] {
    if is_one { one } else { other }
}

impl Store for MemDisk {
    fn empty(alloc: Global) -> MemDisk {
        MemDisk::new(alloc)
    }

    fn copied(&self, alloc: Global) -> Option<MemDisk> {
        let copy = MemDisk::with_slots(
            alloc,
            self.content(Slot::Image0),
            self.content(Slot::Image1),
            self.content(Slot::Segment0),
            self.content(Slot::Segment1),
        );
        copy.ok()
    }

    fn holding(alloc: Global, image0: &[u8], segment0: &[u8], segment1: &[u8]) -> Option<MemDisk> {
        MemDisk::with_slots(alloc, image0, &[], segment0, segment1).ok()
    }

    fn bytes(&self, slot: Slot) -> &[u8] {
        self.content(slot)
    }

    fn corrupted(&self, alloc: Global, slot: Slot, at: usize, byte: u8) -> Option<MemDisk> {
        let mut own = Vec::from_slice(alloc, self.content(slot)).ok()?;
        *own.get_mut(at)? = byte;
        let copy = MemDisk::with_slots(
            alloc,
            either(slot == Slot::Image0, &own, self.content(Slot::Image0)),
            either(slot == Slot::Image1, &own, self.content(Slot::Image1)),
            either(slot == Slot::Segment0, &own, self.content(Slot::Segment0)),
            either(slot == Slot::Segment1, &own, self.content(Slot::Segment1)),
        );
        copy.ok()
    }

    fn plan_faults(&mut self, stop_at: Option<u64>, fail_at: Option<u64>, torn: Torn) {
        self.plan(stop_at, fail_at, torn);
    }

    fn stop(self) -> Option<MemDisk> {
        self.after_crash().ok()
    }
}

/// The disk of a store, which was opened or couldn't be, and how many records its segment has if it was.
pub(crate) fn reopened<D: Disk + Drop>(alloc: Global, disk: D) -> (D, Option<u64>) {
    match open(alloc, disk) {
        Ok(opened) => {
            let Opened {
                kernel,
                disk,
                segment,
            } = opened;
            drop(kernel);
            (disk, Some(segment.records))
        }
        Err((_, disk)) => (disk, None),
    }
}

/// The core of the store on a disk.
fn core_on<D: Disk + Drop>(alloc: Global, disk: D) -> Option<System<D>> {
    match open(alloc, disk) {
        Ok(opened) => Some(System::new(alloc, opened)),
        Err(_) => None,
    }
}

/// The first row that gets another answer from the core of a store, and the disk then.
pub(crate) fn asked<D: Disk + Drop>(
    alloc: Global,
    disk: D,
    rows: &[AskedRow],
) -> Option<(Option<(usize, u64)>, D)> {
    let mut core = core_on(alloc, disk)?;
    let unlike = unlike(&mut core, rows);
    Some((unlike, core.into_disk()))
}

/// The same after the epoch log was filled, and whether it could be.
pub(crate) fn asked_full<D: Disk + Drop>(
    alloc: Global,
    disk: D,
    rows: &[AskedRow],
) -> Option<(bool, Option<(usize, u64)>)> {
    let mut core = core_on(alloc, disk)?;
    let is_full = fill(&mut core);
    let unlike = unlike(&mut core, rows);
    drop(core);
    Some((is_full, unlike))
}

/// The answers to a list of events from the core of a store, if there is memory, and the disk then.
pub(crate) fn played<D: Disk + Drop>(
    alloc: Global,
    disk: D,
    events: &[Event],
) -> Option<(Option<Vec<Outcome>>, D)> {
    let mut core = core_on(alloc, disk)?;
    let outcomes = core.run_all(alloc, events);
    Some((outcomes, core.into_disk()))
}

/// A disk with a new store.
pub(crate) fn new_store<S: Store + Drop>(alloc: Global) -> Option<S> {
    let (disk, records) = reopened(alloc, S::empty(alloc));
    records?;
    Some(disk)
}

/// A new store whose device fails from this call on, or only at this call.
pub(crate) fn failing<S: Store + Drop>(
    alloc: Global,
    at: u64,
    once: bool,
    torn: Torn,
) -> Option<S> {
    let mut disk = new_store::<S>(alloc)?;
    if once {
        disk.plan_faults(None, Some(at), torn);
    } else {
        disk.plan_faults(Some(at), None, torn);
    }
    Some(disk)
}

/// Returns how many records a store has.
pub(crate) fn stored_records<D: Disk + Drop>(alloc: Global, disk: D) -> Option<u64> {
    let (_, records) = reopened(alloc, disk);
    records
}
