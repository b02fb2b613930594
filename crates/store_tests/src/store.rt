//! A disk in memory and its store, as the tests use them. The methods have no contracts, so that a test's proof needn't
//! carry the contracts of a disk or a kernel through each exit of a function that owns one.

use disk::{Disk, MemDisk, Slot, Torn};
use ipc_model::{PlainReply, Reply};
use journal::Segment;
use recover::{Opened, open};
use std::alloc::Global;
use store_fault::StoreFault;

/// The observed state of an opened store.
#[derive(Clone, Copy)]
pub(crate) struct Seen {
    pub(crate) epoch: u64,
    /// Number of records in its segment.
    pub(crate) records: u64,
    /// The type bits of four names of space 1, 0 for one that isn't in use.
    pub(crate) bits: [u32; 4],
}

/// The contents that a crash may leave of the writes since a slot's last sync.
pub(crate) static TORN: [Torn; 6] = [
    Torn::Old,
    Torn::New,
    Torn::Half,
    Torn::Fill(0),
    Torn::Fill(0x5a),
    Torn::Fill(0xff),
];

/// The type bits of a receive right.
const RECEIVE: u32 = 0x2_0000;

/// The result of opening a store.
pub(crate) type Opening = Result<Seen, StoreFault>;

/// The bytes of the slots: image 0, image 1, segment 0, segment 1.
pub(crate) type Slots<'a> = [&'a [u8]; 4];

/// A disk that may hold a store, and crashes as planned.
pub(crate) trait Store: Disk {
    /// Creates an empty disk.
    fn empty(alloc: Global) -> Self;

    /// Creates a disk whose slots hold these bytes.
    fn holding(alloc: Global, slots: Slots<'_>) -> Option<Self>;

    /// Plans failures of calls, as `MemDisk::plan` does.
    fn plan_faults(&mut self, stop_at: Option<u64>, fail_at: Option<u64>, torn: Torn);

    /// Returns the disk after a crash.
    fn stop(self) -> Option<Self>;

    /// Returns the bytes of a slot.
    fn bytes(&self, slot: Slot) -> &[u8];

    /// Opens the store, and returns the result for these names and the disk.
    fn open(self, alloc: Global, names: &[u32; 4]) -> (Opening, Self);

    /// Opens the store, and returns its disk and the segment in use.
    fn go_on(self, alloc: Global) -> Option<(Self, Segment)>;
}

fn type_bits<D: Disk>(opened: &Opened<D>, name: u32) -> u32 {
    match opened.kernel.port_type(1, name) {
        Reply::Plain(PlainReply::Type { bits }) => bits,
        _ => 0,
    }
}

fn see<D: Disk>(opened: &Opened<D>, names: &[u32; 4]) -> Seen {
    let [first, second, third, fourth] = *names;
    let bits = [
        type_bits(opened, first),
        type_bits(opened, second),
        type_bits(opened, third),
        type_bits(opened, fourth),
    ];
    Seen {
        epoch: opened.segment.epoch,
        records: opened.segment.records,
        bits,
    }
}

/// Opens the store, and returns the result and the disk. It is generic in the disk, because dropping a disk in memory
/// is expensive to prove.
fn see_on<D: Disk + Drop>(alloc: Global, disk: D, names: &[u32; 4]) -> (Opening, D) {
    match open(alloc, disk) {
        Ok(opened) => {
            let seen = see(&opened, names);
            let (disk, _) = parts_of(opened);
            (Ok(seen), disk)
        }
        Err((fault, disk)) => (Err(fault), disk),
    }
}

/// Returns the disk of an opened store, and the segment in use.
fn parts_of<D: Disk + Drop>(opened: Opened<D>) -> (D, Segment) {
    let Opened {
        kernel,
        disk,
        segment,
    } = opened;
    drop(kernel);
    (disk, segment)
}

impl Store for MemDisk {
    fn empty(alloc: Global) -> MemDisk {
        MemDisk::new(alloc)
    }

    fn holding(alloc: Global, slots: Slots<'_>) -> Option<MemDisk> {
        let [image0, image1, segment0, segment1] = slots;
        MemDisk::with_slots(alloc, image0, image1, segment0, segment1).ok()
    }

    fn plan_faults(&mut self, stop_at: Option<u64>, fail_at: Option<u64>, torn: Torn) {
        self.plan(stop_at, fail_at, torn);
    }

    fn stop(self) -> Option<MemDisk> {
        self.after_crash().ok()
    }

    fn bytes(&self, slot: Slot) -> &[u8] {
        self.content(slot)
    }

    fn open(self, alloc: Global, names: &[u32; 4]) -> (Opening, MemDisk) {
        see_on(alloc, self, names)
    }

    fn go_on(self, alloc: Global) -> Option<(MemDisk, Segment)> {
        open(alloc, self).ok().map(parts_of)
    }
}

/// Returns a flag for each that is the type bits of a receive right.
pub(crate) fn are_receive(bits: [u32; 4]) -> [bool; 4] {
    let [first, second, third, fourth] = bits;
    [
        first == RECEIVE,
        second == RECEIVE,
        third == RECEIVE,
        fourth == RECEIVE,
    ]
}

/// Creates a disk whose slots hold these bytes.
pub(crate) fn disk_of<S: Store>(alloc: Global, slots: &[Vec<u8>; 4]) -> Option<S> {
    let [image0, image1, segment0, segment1] = slots;
    S::holding(alloc, [image0, image1, segment0, segment1])
}

/// Creates a disk with these bytes in image 0 and segment 0.
pub(crate) fn disk_with<S: Store>(alloc: Global, image0: &[u8], segment0: &[u8]) -> Option<S> {
    S::holding(alloc, [image0, &[], segment0, &[]])
}

/// Returns a flag for each of a disk's slots that holds these bytes.
pub(crate) fn slots_are<S: Store>(disk: &S, wanted: &Slots<'_>) -> [bool; 4] {
    let [image0, image1, segment0, segment1] = *wanted;
    [
        disk.bytes(Slot::Image0) == image0,
        disk.bytes(Slot::Image1) == image1,
        disk.bytes(Slot::Segment0) == segment0,
        disk.bytes(Slot::Segment1) == segment1,
    ]
}

/// Returns the same for slots that were made.
pub(crate) fn keeps<S: Store>(disk: &S, slots: &[Vec<u8>; 4]) -> [bool; 4] {
    let [image0, image1, segment0, segment1] = slots;
    slots_are(disk, &[image0, image1, segment0, segment1])
}
