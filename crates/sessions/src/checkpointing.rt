//! The loop that makes images while calls go on.

use crate::gate::{Gate, LoopStep};
use crate::guarded::KernelGuarded;
use crate::shared::Shared;
use codes::MAX_RECORDS;
use disk::Disk;
use keepers::{End, EntryBlock, Founding, Latest, NotBegun};
use std::alloc::Global;
use std::sync::{Arc, MutexGuard, Wait};
use std::time::Clock;
use store_fault::StoreFault;
use store_half::Finished;

/// How many pieces of an image are written before a batch that waits is stored. They take about 2 ms.
const PIECES_IN_A_ROW: u64 = 256;

/// How many times the loop waits for sessions to leave a finished epoch's entry block, at most.
const MOST_PAUSES: u32 = 10;

/// The end of an epoch, with a handle to its entry block, so that no other thread frees the block under a lock.
#[derive(Drop)]
struct Ended<L: Founding> {
    end: End<L>,
    former: Latest<L>,
}

impl<L: Founding, D: Disk, G: Gate> Shared<L, D, G> {
    /// Makes an image each time that the epoch log has `records` records, until it is told to stop or the store fails.
    pub fn checkpointer<R: Wait + Clock>(&self, rt: &R, records: u64) {
        self.guarded.lock(rt).begin_images(records);
        for _ in rt.forever() {
            let Some(ended) = self.next_end(rt, records) else {
                return;
            };
            if !self.finish_epoch(rt, ended) {
                return;
            }
        }
    }

    /// Makes a checkpoint of an epoch's end, and frees what the epoch took on disk and in memory. Returns whether the
    /// checkpoint was made.
    fn finish_epoch<R: Wait + Clock>(&self, rt: &R, ended: Ended<L>) -> bool {
        let Ended { end, former } = ended;
        let made = self.checkpoint(rt, end) && self.clear(rt);
        if made {
            self.await_sessions(rt, &former);
        }
        drop(former);
        made
    }

    /// Waits a while until no session holds a finished epoch's entry block: it is then freed here, where no lock is
    /// held.
    fn await_sessions<R: Wait + Clock>(&self, rt: &R, former: &Latest<L>) {
        for _ in 0..MOST_PAUSES {
            if former.owns_block() {
                return;
            }
            self.pause(rt);
        }
    }

    /// The end of an epoch, once its log is long enough. `None` if the loop is to end.
    fn next_end<R: Wait + Clock>(&self, rt: &R, records: u64) -> Option<Ended<L>> {
        for _ in rt.forever() {
            if !self.await_records(rt, records) {
                return None;
            }
            self.gate.pass(rt, LoopStep::Cut);
            if let Some(ended) = self.cut(rt) {
                return Some(ended);
            }
            self.pause(rt);
        }
        None
    }

    /// Waits until the epoch log has `records` records. Returns whether the loop is to go on.
    fn await_records<R: Wait>(&self, rt: &R, records: u64) -> bool {
        let guarded = self.images_due.wait_while(
            rt,
            self.guarded.lock(rt),
            |guarded| guarded.is_short(records),
        );
        !guarded.is_ending()
    }

    /// Ends the epoch, if there is memory for it, and has the workers bring their sessions up to date.
    fn cut<R: Wait>(&self, rt: &R) -> Option<Ended<L>> {
        let block = EntryBlock::new(self.alloc, MAX_RECORDS as usize).ok()?;
        let block = Arc::new(self.alloc, block).ok()?;
        let (ended, latest) = end_epoch(self.guarded.lock(rt), block);
        self.epochs.notify_all();
        if let Some(latest) = latest {
            self.begin_epoch(rt, latest);
        }
        ended
    }

    /// Makes a checkpoint, and notifies the waiting calls. Returns whether it was made.
    fn checkpoint<R: Wait + Clock>(&self, rt: &R, end: End<L>) -> bool {
        match self.do_steps(rt, end) {
            Ok(finished) => {
                self.gate.pass(rt, LoopStep::Finished);
                self.guarded.lock(rt).keeper.finished(finished);
                self.records.notify_all();
                true
            }
            Err(fault) => {
                self.fail(rt, fault);
                false
            }
        }
    }

    /// Does all steps of a checkpoint.
    fn do_steps<R: Wait + Clock>(&self, rt: &R, end: End<L>) -> Result<Finished, StoreFault> {
        self.begin(rt, end)?;
        self.roll(rt)?;
        self.image(rt)
    }

    /// Passes the state to the store.
    fn begin<R: Wait + Clock>(&self, rt: &R, end: End<L>) -> Result<(), StoreFault> {
        let mut end = end;
        for _ in rt.forever() {
            match self.try_to_begin(rt, end)? {
                None => return Ok(()),
                Some(back) => end = back,
            }
            self.pause(rt);
        }
        Err(StoreFault::Failed)
    }

    /// Passes the state to the store. If memory is short, the end comes back.
    fn try_to_begin<R: Wait>(&self, rt: &R, end: End<L>) -> Result<Option<End<L>>, StoreFault> {
        match self.lock_store(rt).begin(end) {
            Ok(()) => Ok(None),
            Err((NotBegun::NoMemory, back)) => Ok(Some(back)),
            Err((NotBegun::NotNow, back)) => {
                drop(back);
                Err(StoreFault::Failed)
            }
        }
    }

    /// Makes the next segment, which is opened once the one before holds all of its records.
    fn roll<R: Wait + Clock>(&self, rt: &R) -> Result<(), StoreFault> {
        self.gate.pass(rt, LoopStep::RollClose);
        self.lock_store(rt).roll_close()?;
        self.gate.pass(rt, LoopStep::RollHead);
        self.lock_store(rt).roll_head()?;
        for _ in rt.forever() {
            self.await_stored(rt);
            self.gate.pass(rt, LoopStep::RollOpen);
            if self.lock_store(rt).roll_open()? {
                self.store_changed.notify_all();
                return Ok(());
            }
            self.pause(rt);
        }
        Err(StoreFault::Failed)
    }

    /// Waits until the segment in use holds all of its records.
    fn await_stored<R: Wait>(&self, rt: &R) {
        let store_keeper = self.store_changed.wait_while(
            rt,
            self.store_keeper.lock(rt),
            |store_keeper| store_keeper.is_after(),
        );
        drop(store_keeper);
    }

    /// Makes the image, piece by piece.
    fn image<R: Wait + Clock>(&self, rt: &R) -> Result<Finished, StoreFault> {
        self.close_image(rt)?;
        for piece in 0..u64::MAX {
            self.gate.pass(rt, LoopStep::Piece(piece));
            if !self.write_piece(rt, piece)? {
                break;
            }
        }
        self.gate.pass(rt, LoopStep::Finish);
        let finished = self.lock_store(rt).finish()?;
        finished.ok_or(StoreFault::Failed)
    }

    /// Writes a piece of the image. Returns whether one was left.
    fn write_piece<R: Wait>(&self, rt: &R, piece: u64) -> Result<bool, StoreFault> {
        if piece % PIECES_IN_A_ROW == 0 {
            return self.lock_store(rt).write_piece();
        }
        self.store_keeper.lock(rt).write_piece()
    }

    /// Truncates the slot of the segment before the one in use, so that the end of the next epoch doesn't wait for that.
    /// Returns whether the loop is to go on.
    fn clear<R: Wait>(&self, rt: &R) -> bool {
        for _ in 0..u64::MAX {
            self.gate.pass(rt, LoopStep::Clear);
            let cleared = self.lock_store(rt).clear();
            match cleared {
                Ok(true) => {}
                Ok(false) => return true,
                Err(fault) => {
                    self.fail(rt, fault);
                    return false;
                }
            }
        }
        true
    }

    /// Closes the image's slot, once there is memory for its encoding.
    fn close_image<R: Wait + Clock>(&self, rt: &R) -> Result<(), StoreFault> {
        for _ in rt.forever() {
            self.gate.pass(rt, LoopStep::ImageClose);
            let closed = self.lock_store(rt).close_image(self.alloc);
            match closed {
                Err(StoreFault::NoMemory) => self.pause(rt),
                Err(fault) => return Err(fault),
                Ok(_) => return Ok(()),
            }
        }
        Err(StoreFault::Failed)
    }
}

/// Ends the epoch under the kernel's lock, and returns the history up to the next one for sessions to catch up with.
fn end_epoch<L: Founding>(
    guarded: MutexGuard<'_, KernelGuarded<L>>,
    block: Arc<EntryBlock, Global>,
) -> (Option<Ended<L>>, Option<Latest<L>>) {
    let mut guarded = guarded;
    let Ok(former) = guarded.keeper.latest() else {
        return (None, None);
    };
    match guarded.keeper.cut(block) {
        Ok(Some(end)) => (Some(Ended { end, former }), guarded.keeper.latest().ok()),
        _ => (None, None),
    }
}
