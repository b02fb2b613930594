//! Entries and entry blocks of a history, for tests.

use history::{AddFault, Entry, EntryBlock, Founding, Past};
use ipc_model::{Call, PlainCall, PlainReply, Record, Reply};
use std::alloc::{AllocError, Global};
use std::sync::Arc;

/// An entry of session 1, of a call of a space.
fn entry_of(space: u32) -> Entry {
    let record = Record {
        space,
        call: Call::Plain(PlainCall::SpaceDestroy),
        reply: Reply::Plain(PlainReply::Done { number: 21 }),
    };
    Entry { session: 1, record }
}

/// Adds an entry, of a call of a space.
pub(crate) fn add<L: Founding>(past: &mut Past<L>, space: u32) -> Result<(), AddFault> {
    past.add(entry_of(space))
}

/// Adds an entry to two that have as many in as many entry blocks.
pub(crate) fn add_to_both<L: Founding>(
    past: &mut Past<L>,
    other: &mut Past<L>,
    space: u32,
) -> Option<Result<(), AddFault>> {
    if past.blocks() != other.blocks() {
        return None;
    }
    if past.len() != other.len() {
        return None;
    }
    Some(past.add_to_both(other, entry_of(space)))
}

/// Returns the space of the call at a place of the entry block, if it has one there.
pub(crate) fn space_at<L: Founding>(past: &mut Past<L>, at: usize) -> Option<u32> {
    let note = past.note(at)?;
    Some(past.record(at, note).space)
}

/// An entry block of `capacity` cells.
pub(crate) fn row_of(
    alloc: Global,
    capacity: usize,
) -> Result<Arc<EntryBlock, Global>, AllocError> {
    Ok(Arc::new(alloc, EntryBlock::new(alloc, capacity)?)?)
}

/// Goes on in a new entry block.
pub(crate) fn begin_block<L: Founding>(
    alloc: Global,
    past: &mut Past<L>,
    capacity: usize,
) -> Result<(), AddFault> {
    let row = row_of(alloc, capacity)?;
    past.begin_block(row)
}
