ghost use Rattle.std.specs.Prelude.{◌≡◌, ◌⊎◌, ◌+◌, ◌<◌, ◌≤◌, ◌++◌, ◌∷◌, ℕ, List, length, Err, OnOk, OnErr, IfOk, IfSome, IfNone, IsErrOf};
ghost use Rattle.codes.specs.declared.limits.TheConstants.{MAX_RECORDS};
ghost use Rattle.disk.specs.Slots.{slot_of};
ghost use Rattle.disk.specs.Moments.{Passes, MayLeave, one_more};
ghost use Rattle.ipc_model.specs.declared.record.Record.{Record};
ghost use Rattle.ipc_model.specs.encodings.Encodings.{record_encoding, IsRecord};
ghost use Rattle.ipc_model.specs.store.Store.{open_gate, IsClosed};
ghost use Rattle.journal.specs.Readers.{place_of};
ghost use Rattle.journal.specs.Reading.{Leads, IsLast, IsNothing, IsInBatch, IsAfterBatches};
ghost use Rattle.journal.specs.Windows.{IsOver, IsFull};

use crate::window::{LONGEST_STEP, Window};
use codes::MAX_RECORDS;
use disk::{Disk, Slot};
use ipc_model::Record;
use record::take_record;
use slot_steps::OPEN_GATE;
use std::alloc::{AllocError, Global};
use std::marker::Model;
use store_fault::StoreFault;
use words::{take_long_word, take_word};

/// Maximum number of bytes of a segment that a reader holds in memory.
pub const PIECE: usize = 1 << 20;

/// Returns the bytes after an open gate, or `None` if the bytes don't begin with one.
fn after_open_gate(bytes: &[u8]) -> Option<&[u8]>
    ensures open { IfSome result (λ beyond. bytes.now ≡ open_gate ∷ beyond.now) }
    ensures closed { IfNone result (IsClosed bytes.now) }
{
    match bytes {
        [OPEN_GATE, beyond @ ..] => Some(beyond),
        _ => None,
    }
}

/// Returns the number of records that remain in the current batch, their length in bytes, and the bytes from there on.
/// If the current batch has ended, it is the next batch, which begins with an open gate. Returns `None` if there is no
/// next batch.
///
/// `Damaged`: the batch has bytes after its last record, or no record, or the slot ends within its head.
fn batch_at(bytes: &[u8], left: u32, size: u64) -> Result<Option<(u32, u64, &[u8])>, StoreFault>
    ensures found { IfOk result (λ found. IfSome found (λ r. IsInBatch left size bytes.now r.0 r.1 r.2.now)) }
    ensures ended { IfOk result (λ found. IfNone found (IsAfterBatches left size bytes.now)) }
    ensures no_batch { OnErr result
        ((count length_of : ℕ) (content : List ℕ) → IsInBatch left size bytes.now count length_of content → ⊥) }
    ensures no_end { OnErr result (IsAfterBatches left size bytes.now → ⊥) }
    ensures faults { OnErr result (result ≡ Err StoreFault.Damaged) }
{
    if left != 0 {
        return Ok(Some((left, size, bytes)));
    }
    if size != 0 {
        return Err(StoreFault::Damaged);
    }
    let Some(head) = after_open_gate(bytes) else {
        return Ok(None);
    };
    let Some((count, rest)) = take_word(head) else {
        return Err(StoreFault::Damaged);
    };
    let Some((length, content)) = take_long_word(rest) else {
        return Err(StoreFault::Damaged);
    };
    if count == 0 {
        return Err(StoreFault::Damaged);
    }
    Ok(Some((count, length, content)))
}

/// Splits off the record with this number, which has at most `size` bytes.
///
/// `Damaged`: there is no such record, or a segment holds no record with this number. `NoMemory`: out of memory.
fn record_at(
    alloc: Global,
    bytes: &[u8],
    number: u64,
    size: u64,
) -> Result<(Record, &[u8]), StoreFault>
    ensures found { IfOk result (λ r. bytes.now ≡ record_encoding number r.0 ++ r.1.now) }
    ensures fits { IfOk result (λ r. IsRecord r.0 × (number < MAX_RECORDS)) }
    ensures within { IfOk result (λ r. length bytes.now ≤ size + length r.1.now) }
    ensures damaged { IsErrOf result StoreFault.Damaged → (entry : Record) (rest : List ℕ) → IsRecord entry
        → number < MAX_RECORDS
        → length bytes.now ≤ size + length rest → bytes.now ≡ record_encoding number entry ++ rest → ⊥ }
    ensures faults { OnErr result ((result ≡ Err StoreFault.Damaged) ⊎ (result ≡ Err StoreFault.NoMemory)) }
{
    let Some((found, entry, rest)) = take_record(alloc, bytes)? else {
        return Err(StoreFault::Damaged);
    };
    if found != number || number >= MAX_RECORDS {
        return Err(StoreFault::Damaged);
    }
    if size < (bytes.len() - rest.len()) as u64 {
        return Err(StoreFault::Damaged);
    }
    Ok((entry, rest))
}

/// Reads the records of a segment one after another. It starts at the first batch, and ends at the first gate that is
/// closed or missing. It holds a piece of the slot in memory.
#[derive(Drop)]
pub struct RecordReader {
    window: Window,
    number: u64,
    left: u32,
    size: u64,
    alloc: Global,
}

impl Model for RecordReader {
    ghost use Rattle.std.specs.Prelude.{◌≤◌};
    ghost use Rattle.codes.specs.declared.limits.TheConstants.{MAX_RECORDS};
    ghost use Rattle.journal.specs.Readers.{ReaderValue};

    ghost Value = { ReaderValue };

    ghost view = { λ r. record { window = r.window; number = r.number; left = r.left; size = r.size } };

    ghost invariant = { λ r. r.number ≤ MAX_RECORDS };
}

impl RecordReader {
    /// Creates a reader of a segment's slot, whose first batch begins at offset `at`. It holds at most `room` bytes.
    pub fn new<D: Disk>(
        alloc: Global,
        disk: &D,
        slot: Slot,
        at: u64,
        room: usize,
    ) -> Result<RecordReader, AllocError>
        requires place { D.honest → at ≤ length (slot_of (D.view disk.now).seen slot) }
        requires room { LONGEST_STEP ≤ room }
        ensures over { D.honest → IfOk result (λ reader. IsOver (slot_of (D.view disk.now).seen slot) reader.window) }
        ensures place { D.honest → IfOk result
            (λ reader. place_of reader ≡ record { at = at; number = 0; left = 0; size = 0 }) }
        ensures number { IfOk result (λ reader. reader.number ≡ 0) }
        ensures slot { IfOk result (λ reader. reader.window.slot ≡ slot) }
    {
        let window = Window::over(alloc, disk, slot, at, room)?;
        Ok(RecordReader {
            window,
            number: 0,
            left: 0,
            size: 0,
            alloc,
        })
    }

    /// Returns the offset in the slot after the last record that was read.
    pub fn at(&self) -> u64
        ensures { result ≡ self.now.window.at }
    {
        self.window.at()
    }

    /// Returns the number of records that were read.
    pub fn number(&self) -> u64
        ensures { result ≡ self.now.number }
    {
        self.number
    }

    /// Reads the next record from the window, which is full.
    fn take_next(&mut self) -> Result<Option<Record>, StoreFault>
        ensures leads { (bytes : List ℕ) → IsOver bytes self.old.window → IsFull self.old.window
            → IfOk result (λ found. IfSome found (λ entry. Leads bytes (place_of self.old) entry (place_of self.new))) }
        ensures last { (bytes : List ℕ) → IsOver bytes self.old.window → IsFull self.old.window
            → IfOk result (λ found. IfNone found (IsLast bytes (place_of self.old))) }
        ensures damaged { IsErrOf result StoreFault.Damaged → (bytes : List ℕ) → IsOver bytes self.old.window
            → IsFull self.old.window
            → IsNothing bytes (place_of self.old) }
        ensures over { (bytes : List ℕ) → IsOver bytes self.old.window → OnOk result (IsOver bytes self.new.window) }
        ensures stays { IfOk result (λ found. IfNone found (self.new ≡ self.old)) }
        ensures counted { IfOk result (λ found. IfSome found
            (λ _. (self.new.number ≡ self.old.number + 1) × (self.new.number ≤ MAX_RECORDS))) }
        ensures slot { self.new.window.slot ≡ self.old.window.slot }
        ensures faults { OnErr result ((result ≡ Err StoreFault.Damaged) ⊎ (result ≡ Err StoreFault.NoMemory)) }
    {
        let front = self.window.front();
        let Some((left, size, content)) = batch_at(front, self.left, self.size)? else {
            return Ok(None);
        };
        let (entry, beyond) = record_at(self.alloc, content, self.number, size)?;
        let taken = (content.len() - beyond.len()) as u64;
        let passed = front.len() - beyond.len();
        self.window.pass(passed);
        self.number += 1;
        self.left = left - 1;
        self.size = size - taken;
        Ok(Some(entry))
    }

    /// Reads the next record, or returns `None` after the last one.
    ///
    /// `Damaged`: the bytes from here on encode no batches. The batch isn't whole, isn't encoded as a batch, or doesn't
    /// continue the numbers of the one before, or there are more records than a segment may hold. `NoMemory`: out of
    /// memory. `Device`: the device failed.
    pub fn next<D: Disk>(&mut self, disk: &mut D) -> Result<Option<Record>, StoreFault>
        requires { D.honest → IsOver (slot_of (D.view disk.old).seen self.old.window.slot) self.old.window }
        ensures leads { D.honest → IfOk result (λ found. IfSome found (λ entry.
            Leads (slot_of (D.view disk.old).seen self.old.window.slot) (place_of self.old) entry
            (place_of self.new))) }
        ensures last { D.honest → IfOk result (λ found. IfNone found
            (IsLast (slot_of (D.view disk.old).seen self.old.window.slot) (place_of self.new))) }
        ensures stays { IfOk result (λ found. IfNone found (place_of self.new ≡ place_of self.old)) }
        ensures damaged { D.honest → IsErrOf result StoreFault.Damaged
            → IsNothing (slot_of (D.view disk.old).seen self.old.window.slot) (place_of self.old) }
        ensures over { D.honest → OnOk result
            (IsOver (slot_of (D.view disk.old).seen self.old.window.slot) self.new.window) }
        ensures counted { IfOk result (λ found. IfSome found
            (λ _. (self.new.number ≡ self.old.number + 1) × (self.new.number ≤ MAX_RECORDS))) }
        ensures slot { self.new.window.slot ≡ self.old.window.slot }
        ensures seen { D.honest → (D.view disk.new).seen ≡ (D.view disk.old).seen }
        ensures time { D.honest → Passes (D.view disk.old) (D.view disk.new) (MayLeave (D.view disk.old)) }
        ensures quiet { OnOk result (D.failed_calls disk.new ≡ D.failed_calls disk.old) }
        ensures still { OnErr result ((result ≡ Err StoreFault.Device)
            ⊎ (D.failed_calls disk.new ≡ D.failed_calls disk.old)) }
        ensures device { IsErrOf result StoreFault.Device
            → D.failed_calls disk.new ≡ one_more (D.failed_calls disk.old) }
        ensures faults { OnErr result ((result ≡ Err StoreFault.Device)
            ⊎ ((result ≡ Err StoreFault.Damaged) ⊎ (result ≡ Err StoreFault.NoMemory))) }
    {
        self.window.fill(disk)?;
        let found = self.take_next()?;
        Ok(found)
    }
}
