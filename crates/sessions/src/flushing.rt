//! The loop that stores calls.

use crate::gate::{Gate, LoopStep};
use crate::guarded::KernelGuarded;
use crate::shared::{RETRY_MILLISECONDS, Shared};
use disk::Disk;
use keepers::{Founding, Load, NotStored};
use std::sync::{MutexGuard, Wait};
use std::time::{Clock, Duration};
use store_half::Receipt;

/// For how many microseconds a few records wait for calls that were just given their turn, so that these calls' records
/// are in the same batch.
const TURN_MICROSECONDS: u64 = 200;

impl<L: Founding, D: Disk, G: Gate> Shared<L, D, G> {
    /// Stores what calls make, batch by batch, until it is told to stop and nothing waits, or the store fails. It is
    /// for one thread. No call that is made after it ended is acknowledged.
    pub fn flusher<R: Wait + Clock>(&self, rt: &R) {
        let mut receipt = None;
        for _ in rt.forever() {
            let Some(load) = self.next_load(rt, receipt) else {
                break;
            };
            receipt = self.store(rt, load);
            if receipt.is_none() {
                break;
            }
        }
        self.end(rt);
    }

    /// Hands in the receipt of the load before, and takes the records that wait, once there are some: both under one
    /// hold of the kernel's lock, which is busy where many call. `None` if the loop is to end.
    fn next_load<R: Wait + Clock>(&self, rt: &R, receipt: Option<Receipt>) -> Option<Load<L>> {
        if receipt.is_some() {
            self.gate.pass(rt, LoopStep::Durable);
        }
        let mut receipt = receipt;
        for _ in rt.forever() {
            self.gate.pass(rt, LoopStep::Take);
            let guarded = self.await_load(rt, receipt.take());
            if guarded.is_over() {
                return None;
            }
            if let Some(load) = take_load(guarded) {
                return Some(load);
            }
            // Memory is short, or a load is out, which only a second loop of this kind meets.
            self.pause(rt);
        }
        None
    }

    /// Hands in a receipt, and waits until records wait, or the loop is to end.
    fn await_load<R: Wait + Clock>(
        &self,
        rt: &R,
        receipt: Option<Receipt>,
    ) -> MutexGuard<'_, KernelGuarded<L>> {
        let mut guarded = self.guarded.lock(rt);
        if let Some(receipt) = receipt {
            guarded.learn(receipt);
        }
        let guarded = self
            .records
            .wait_while(rt, guarded, |guarded| guarded.is_idle());
        let (guarded, _) = self.turns_taken.wait_timeout_while(
            rt,
            guarded,
            Duration::from_micros(TURN_MICROSECONDS),
            |guarded| guarded.may_soon_have_more(),
        );
        guarded
    }

    /// Stores a load, and returns its receipt. `None`: the store failed, and all waiting threads are notified.
    fn store<R: Wait + Clock>(&self, rt: &R, load: Load<L>) -> Option<Receipt> {
        let mut load = load;
        for _ in rt.forever() {
            match self.try_to_store(rt, load) {
                Ok(receipt) => return receipt,
                Err(back) => load = back,
            }
        }
        drop(load);
        None
    }

    /// Stores a load as `store` does, unless it comes back to be tried once more.
    fn try_to_store<R: Wait + Clock>(
        &self,
        rt: &R,
        load: Load<L>,
    ) -> Result<Option<Receipt>, Load<L>> {
        self.gate.pass(rt, LoopStep::Append);
        let appended = self.lock_store(rt).append(rt, &self.mark, load);
        match appended {
            Ok((receipt, stored)) => {
                self.store_changed.notify_all();
                // Replies needn't wait for the kernel's lock, which is busy where many call.
                self.replies.lock(rt).store(stored);
                self.wake_workers(rt);
                self.more_stored.notify_all();
                Ok(Some(receipt))
            }
            Err((why, back)) => self.put_off(rt, why, back),
        }
    }

    /// Returns a load that wasn't stored, once it may be tried again; or notifies all waiting threads that the store
    /// failed.
    fn put_off<R: Wait + Clock>(
        &self,
        rt: &R,
        why: NotStored,
        load: Load<L>,
    ) -> Result<Option<Receipt>, Load<L>> {
        let is_over = match why {
            NotStored::Store(fault) => {
                self.fail(rt, fault);
                true
            }
            NotStored::NoMemory => {
                self.pause(rt);
                false
            }
            NotStored::NotNow => {
                self.await_segment(rt, load.taken.epoch());
                self.fault(rt).is_some()
            }
        };
        if is_over {
            drop(load);
            return Ok(None);
        }
        Err(load)
    }

    /// Waits until the segment of an epoch is open, or for a while.
    fn await_segment<R: Wait + Clock>(&self, rt: &R, epoch: u64) {
        let _ = self.store_changed.wait_timeout_while(
            rt,
            self.store_keeper.lock(rt),
            Duration::from_millis(RETRY_MILLISECONDS),
            |store_keeper| store_keeper.epoch() != epoch && !store_keeper.has_failed(),
        );
    }
}

/// Takes the records that wait, and frees the lock.
fn take_load<L: Founding>(guarded: MutexGuard<'_, KernelGuarded<L>>) -> Option<Load<L>> {
    let mut guarded = guarded;
    guarded.take()
}
