ghost use Rattle.std.specs.Prelude.{◌≡◌, ◌+◌, ◌-◌, ◌<◌, ◌≤◌, ◌^◌, ◌++◌, ◌∷◌, [], length, take, drop, vec_len, vec_capacity, IfOk, OnOk, OnErr};
ghost use Rattle.codes.specs.declared.limits.TheConstants.{MAX_FRAME_CONTENT};
ghost use Rattle.ipc_model.specs.encodings.Encodings.{call_encoding, reply_encoding, record_encoding};
ghost use Rattle.ipc_model.specs.store.Store.{closed_gate};
ghost use Rattle.words.specs.Words.{word, long_word};
ghost use Rattle.journal.specs.Batch.{content_of, empty_batch, padded, with_encoding, without_last};

use byteorder::{ByteOrder, LittleEndian};
use codes::MAX_FRAME_CONTENT;
use ipc_model::{Call, Reply};
use record::push_exchange;
use slot_steps::CLOSED_GATE;
use std::alloc::{AllocError, Global};
use std::marker::Model;

/// Length in bytes of a batch before its records: their number and the length of their encodings.
const HEADER: usize = 12;

/// Maximum length of a record in bytes: its number and its space, and the frames of its call and its reply.
const MOST_OF_RECORD: usize = 20 + 2 * (MAX_FRAME_CONTENT as usize);

/// Records that are stored together. Each is encoded when it is added, and the batch can be written at any time, so
/// that storing it allocates nothing.
#[derive(Drop)]
pub struct Batch {
    encoding: Vec<u8>,
    count: u32,
}

impl Model for Batch {
    ghost use Rattle.journal.specs.Batch.{BatchValue, IsWhole, batch_code, padded, value_of};

    ghost Value = { BatchValue };

    ghost coded = { batch_code };

    ghost view = { λ b. value_of b.count (padded b.encoding.items) };

    // A closed gate follows the records. If there are no records, there may be no bytes at all.
    ghost invariant = { λ b. IsWhole b.count (padded b.encoding.items) };
}

impl Batch {
    /// Creates an empty batch. It allocates nothing.
    pub fn new(alloc: Global) -> Self
        ensures { result ≡ empty_batch }
    {
        Batch {
            encoding: Vec::new(alloc),
            count: 0,
        }
    }

    /// Returns the number of records.
    pub fn count(&self) -> u32
        ensures { result ≡ self.now.count }
    {
        self.count
    }

    /// Adds a record: its number, the space of the task, the call in canonical form and the reply. Returns the length
    /// of the record's encoding in bytes. If an allocation fails, nothing changed.
    pub fn add_exchange(
        &mut self,
        number: u64,
        space: u32,
        call: &Call,
        reply: &Reply,
    ) -> Result<usize, AllocError>
        requires count { self.old.count < 2 ^ 32 - 1 }
        requires call { length (call_encoding call.now) ≤ MAX_FRAME_CONTENT }
        requires reply { length (reply_encoding reply.now) ≤ MAX_FRAME_CONTENT }
        ensures ok { OnOk result (self.new ≡ with_encoding self.old
            (record_encoding number (record { space = space; call = call.now; reply = reply.now }))) }
        ensures size { IfOk result (λ size. size
            ≡ length (record_encoding number (record { space = space; call = call.now; reply = reply.now }))) }
        ensures err { OnErr result (self.new ≡ self.old) }
    {
        write_front(&mut self.encoding)?;
        // The record's length is unknown until it is encoded. With room for the longest record no push can fail
        // halfway.
        self.encoding.reserve(MOST_OF_RECORD)?;
        let size = push_before_gate(&mut self.encoding, number, space, call, reply);
        self.count += 1;
        write_header(&mut self.encoding, self.count);
        Ok(size)
    }

    /// Removes the last record, whose encoding has `size` bytes. Its memory stays allocated.
    pub fn remove_last(&mut self, size: usize)
        requires some { 0 < self.old.count }
        requires within { size ≤ length self.old.body }
        ensures { self.new ≡ without_last self.old size }
    {
        let count = self.count();
        cut_before_gate(&mut self.encoding, size);
        self.count = count - 1;
        write_header(&mut self.encoding, count - 1);
    }

    /// Removes all records. Their memory stays allocated.
    pub fn clear(&mut self)
        ensures { self.new ≡ empty_batch }
    {
        self.encoding.clear();
        self.count = 0;
    }

    /// Returns the bytes that are written after the batch's gate. They end with a closed gate.
    pub(crate) fn encoding(&self) -> &[u8]
        requires { 0 < self.now.count }
        ensures { result.now ≡ content_of self.now ++ closed_gate ∷ [] }
    {
        let _count = self.count();
        self.encoding.as_slice()
    }
}

/// Appends the encoding of an empty batch if there are no bytes yet.
fn write_front(encoding: &mut Vec<u8>) -> Result<(), AllocError>
    ensures ok { OnOk result (encoding.new.items ≡ padded encoding.old.items) }
    ensures err { OnErr result (encoding.new.items ≡ encoding.old.items) }
{
    if !encoding.is_empty() {
        return Ok(());
    }
    encoding.extend_from_slice(&[0; HEADER + 1])
}

/// Inserts a record before the gate at the end, and returns the length of its encoding in bytes. There must be room for
/// the longest record.
fn push_before_gate(
    encoding: &mut Vec<u8>,
    number: u64,
    space: u32,
    call: &Call,
    reply: &Reply,
) -> usize
    requires some { 0 < length encoding.old.items }
    requires room { vec_len encoding.old + MOST_OF_RECORD ≤ vec_capacity encoding.old }
    requires call { length (call_encoding call.now) ≤ MAX_FRAME_CONTENT }
    requires reply { length (reply_encoding reply.now) ≤ MAX_FRAME_CONTENT }
    ensures encoding { encoding.new.items ≡ take (length encoding.old.items - 1) encoding.old.items
        ++ (record_encoding number (record { space = space; call = call.now; reply = reply.now }) ++ closed_gate ∷ []) }
    ensures size { result
        ≡ length (record_encoding number (record { space = space; call = call.now; reply = reply.now })) }
{
    let end = encoding.len() - 1;
    encoding.truncate(end);
    // There is room, so no allocation can fail.
    let _ = push_exchange(encoding, number, space, call, reply);
    let size = encoding.len() - end;
    encoding.push_reserved(CLOSED_GATE);
    size
}

/// Removes `size` bytes before the gate at the end.
fn cut_before_gate(encoding: &mut Vec<u8>, size: usize)
    requires { size < length encoding.old.items }
    ensures { encoding.new.items ≡ take (length encoding.old.items - 1 - size) encoding.old.items ++ closed_gate ∷ [] }
{
    let end = encoding.len() - 1 - size;
    encoding.truncate(end);
    encoding.push_reserved(CLOSED_GATE);
}

/// Writes the number and the length of the records into the first bytes of a batch.
fn write_header(encoding: &mut Vec<u8>, count: u32)
    requires { 13 ≤ length encoding.old.items }
    ensures { encoding.new.items ≡ word count
        ++ (long_word (length encoding.old.items - 13) ++ drop 12 encoding.old.items) }
{
    let length = encoding.len() - (HEADER + 1);
    let bytes = encoding.as_mut_slice();
    LittleEndian::write_u32(bytes, count);
    let (_, rest) = bytes.split_at_mut(4);
    LittleEndian::write_u64(rest, length as u64);
}
