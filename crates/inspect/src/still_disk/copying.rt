// Copies a store's slots while no slot's front changes.
ghost use Rattle.std.specs.Prelude.{◌≡◌, ◌≢◌, ◌<◌, Err, IfErr, IfNone, IfOk, IfSome, IsErrOf, length};
ghost use Rattle.disk.specs.Moments.{ReadsOnly};
ghost use Rattle.inspect.specs.still_disk.Copying.{counted};
ghost use Rattle.inspect.specs.still_disk.Live.{HasChanged, IsReading, SlotsCopied};
ghost use Rattle.inspect.specs.still_disk.Still.{still_slots};

use crate::still_disk::fronts::read_fronts;
use crate::still_disk::pieces::read_slot;
use crate::still_disk::{CopyFault, LiveSlots, StillDisk};
use disk::{Disk, Slot};
use std::alloc::Global;

/// Maximum number of attempts.
const MOST_TRIES: u32 = 100;

/// Number of bytes that are read at a time.
const PIECE: usize = 65536;

/// Reads the contents of the four slots, one after another.
fn read_slots<S: LiveSlots>(
    alloc: Global,
    live: &mut S,
    piece: &mut [u8],
) -> Result<StillDisk, CopyFault>
    requires { 0 < length piece.old }
    ensures copied { S.honest → IfOk result
        (λ copy. SlotsCopied S.later S.slots (S.now live.old) (S.now live.new) (still_slots copy)) }
    ensures unfailed { IfOk result (λ copy. copy.failures ≡ 0) }
    ensures later { S.honest → S.later (S.now live.old) (S.now live.new) }
    ensures idle { IfErr result (λ fault. fault ≢ CopyFault.Busy) }
    ensures failures { S.failed live.new ≡ counted result (S.failed live.old) }
{
    Ok(StillDisk {
        image0: read_slot(alloc, live, Slot::Image0, piece)?,
        image1: read_slot(alloc, live, Slot::Image1, piece)?,
        segment0: read_slot(alloc, live, Slot::Segment0, piece)?,
        segment1: read_slot(alloc, live, Slot::Segment1, piece)?,
        failures: 0,
    })
}

/// Copies the slots. Returns `None` unless the fronts before and after the copy are the same as the copy's own.
fn try_copy<S: LiveSlots>(
    alloc: Global,
    live: &mut S,
    piece: &mut [u8],
) -> Result<Option<StillDisk>, CopyFault>
    requires { 0 < length piece.old }
    ensures reading { S.honest → IfOk result
        (λ found. IfSome found (λ copy. IsReading S.later S.slots (S.now live.old) (S.now live.new)
        (still_slots copy))) }
    ensures changed { S.honest → IfOk result
        (λ found. IfNone found (HasChanged S.later S.slots (S.now live.old) (S.now live.new))) }
    ensures unfailed { IfOk result (λ found. IfSome found (λ copy. copy.failures ≡ 0)) }
    ensures later { S.honest → S.later (S.now live.old) (S.now live.new) }
    ensures idle { IfErr result (λ fault. fault ≢ CopyFault.Busy) }
    ensures failures { S.failed live.new ≡ counted result (S.failed live.old) }
{
    let before = read_fronts(alloc, live)?;
    let copy = read_slots(alloc, live, piece)?;
    let after = read_fronts(alloc, live)?;
    let own = copy.fronts(alloc)?;
    if after.are(&before) && own.are(&before) {
        Ok(Some(copy))
    } else {
        Ok(None)
    }
}

/// Returns a copy, read piece by piece into a buffer, after up to `MOST_TRIES` attempts.
fn copy_by<S: LiveSlots>(
    alloc: Global,
    live: &mut S,
    piece: &mut [u8],
) -> Result<StillDisk, CopyFault>
    requires { 0 < length piece.old }
    ensures reading { S.honest → IfOk result
        (λ copy. (begun : S.Moment) × S.later (S.now live.old) begun
        × IsReading S.later S.slots begun (S.now live.new) (still_slots copy)) }
    ensures busy { S.honest → IsErrOf result CopyFault.Busy → (begun ended : S.Moment) × S.later (S.now live.old) begun
        × HasChanged S.later S.slots begun ended }
    ensures unfailed { IfOk result (λ copy. copy.failures ≡ 0) }
    ensures later { S.honest → S.later (S.now live.old) (S.now live.new) }
    ensures failures { S.failed live.new ≡ counted result (S.failed live.old) }
{
    for _ in 0..MOST_TRIES {
        if let Some(copy) = try_copy(alloc, live, piece)? {
            return Ok(copy);
        }
    }
    Err(CopyFault::Busy)
}

/// Copies a store's slots into memory, even while a server continues with the store. Nothing is written to the store.
///
/// A server writes to a slot in use only after its batches, and writes a whole batch before it opens the batch's gate.
/// So a copy that is read from the slot's front to its end has all batches whose gates were open at the start, and any
/// later batch in it is whole. A slot is overwritten only after its front has changed to another gate or epoch, and
/// epochs only grow. So if the fronts of all four slots are the same before and after the copy, the copy represents a
/// state that the store had meanwhile (`live_reading::copies_stand`, which assumes that at most one epoch ended
/// meanwhile).
///
/// `Device`: the device failed. `NoMemory`: out of memory. `Busy`: a front changed during each of a hundred attempts.
pub fn live_copy<S: LiveSlots>(alloc: Global, live: &mut S) -> Result<StillDisk, CopyFault>
    ensures reading { S.honest → IfOk result
        (λ copy. (begun : S.Moment) × S.later (S.now live.old) begun
        × IsReading S.later S.slots begun (S.now live.new) (still_slots copy)) }
    ensures busy { S.honest → IsErrOf result CopyFault.Busy → (begun ended : S.Moment) × S.later (S.now live.old) begun
        × HasChanged S.later S.slots begun ended }
    ensures unfailed { IfOk result (λ copy. ⟦<StillDisk as Disk>⟧.failed_calls copy ≡ 0) }
    ensures later { S.honest → S.later (S.now live.old) (S.now live.new) }
    ensures failures { S.failed live.new ≡ counted result (S.failed live.old) }
{
    let mut piece = vec![in alloc; 0; PIECE]?;
    copy_by(alloc, live, &mut piece)
}

/// Copies the slots of a disk that nobody else writes to. It is `live_copy`, but never returns `Busy`.
pub fn still_copy<D: Disk>(alloc: Global, disk: &mut D) -> Result<StillDisk, CopyFault>
    ensures slots { D.honest → IfOk result (λ copy. still_slots copy ≡ (D.view disk.old).seen) }
    ensures unfailed { IfOk result (λ copy. ⟦<StillDisk as Disk>⟧.failed_calls copy ≡ 0) }
    ensures still { D.honest → result ≢ Err CopyFault.Busy }
    ensures reads_only { D.honest → ReadsOnly (D.view disk.old) (D.view disk.new) }
    ensures failures { D.failed_calls disk.new ≡ counted result (D.failed_calls disk.old) }
{
    live_copy(alloc, disk)
}
