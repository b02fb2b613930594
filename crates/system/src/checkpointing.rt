//! The steps of a checkpoint, by which a core goes over to the next epoch.
ghost use Rattle.std.specs.Prelude.{◌≡◌, true, false, MatchBool, IfOk, OnErr, ◌≤◌, ◌+◌};
ghost use Rattle.store_half.specs.Changes.{CanFinish, CloseImageDone, CloseImageFaults, FinishFaults, RollCloseDone, RollCloseFaults, RollHeadDone, RollHeadFaults, RollOpenDone, RollOpenFaults, WritePieceDone, WritePieceFaults};
ghost use Rattle.system.specs.Changes.{BeginsEpoch, FinishesImage};
ghost use Rattle.system.specs.Counting.{counted};
ghost use Rattle.system.specs.Halves.{CanCut};

use crate::system::System;
use disk::Disk;
use std::alloc::AllocError;
use store_fault::StoreFault;

impl<D: Disk> System<D> {
    /// Begins the next epoch, with a snapshot of the state after all calls, and a checkpoint that makes it the epoch's
    /// image. Returns whether it did: it doesn't until the receipt of the last checkpoint was delivered, nor in the
    /// last epoch. If an allocation fails, nothing changed.
    pub fn cut(&mut self) -> Result<bool, AllocError>
        ensures done { IfOk result
            (λ is_done. MatchBool is_done (BeginsEpoch self.old self.new)
            ((CanCut self.old.core → ⊥) × (self.new ≡ self.old))) }
        ensures err { OnErr result (CanCut self.old.core × (self.new ≡ self.old)) }
    {
        let Some(cut) = self.core.cut(self.alloc)? else {
            return Ok(false);
        };
        self.store.begin(cut);
        Ok(true)
    }

    /// Closes the slot of the next segment. Returns whether that was the next step.
    ///
    /// `Failed`: the device failed in an earlier step, and nothing changed. `Device`: the device failed.
    pub fn roll_close(&mut self) -> Result<bool, StoreFault>
        ensures done { RollCloseDone D.honest D.view self.old.store self.new.store result }
        ensures faults { RollCloseFaults D.honest D.view self.old.store self.new.store result }
        ensures failures { D.failed_calls self.new.store.disk ≡ counted result (D.failed_calls self.old.store.disk) }
        ensures calls { D.calls self.new.store.disk ≤ D.calls self.old.store.disk + 4 }
        ensures rest { self.new ≡ record self.old { store = self.new.store } }
    {
        self.store.roll_close()
    }

    /// Writes the header of the next segment. Returns whether that was the next step; its faults are those of
    /// `roll_close`.
    pub fn roll_head(&mut self) -> Result<bool, StoreFault>
        ensures done { RollHeadDone D.honest D.view self.old.store self.new.store result }
        ensures faults { RollHeadFaults D.honest D.view self.old.store self.new.store result }
        ensures failures { D.failed_calls self.new.store.disk ≡ counted result (D.failed_calls self.old.store.disk) }
        ensures calls { D.calls self.new.store.disk ≤ D.calls self.old.store.disk + 4 }
        ensures rest { self.new ≡ record self.old { store = self.new.store } }
    {
        self.store.roll_head()
    }

    /// Opens the next segment. Returns whether that was the next step, and the segment in use holds its whole epoch
    /// log; its faults are those of `roll_close`.
    pub fn roll_open(&mut self) -> Result<bool, StoreFault>
        ensures done { RollOpenDone D.honest D.view self.old.store self.new.store result }
        ensures faults { RollOpenFaults D.honest D.view self.old.store self.new.store result }
        ensures failures { D.failed_calls self.new.store.disk ≡ counted result (D.failed_calls self.old.store.disk) }
        ensures calls { D.calls self.new.store.disk ≤ D.calls self.old.store.disk + 4 }
        ensures rest { self.new ≡ record self.old { store = self.new.store } }
    {
        self.store.roll_open()
    }

    /// Makes the next image in memory, and closes its slot. Returns whether that was the image's next step.
    ///
    /// `NoMemory`: an allocation failed, and nothing changed. Its other faults are those of `roll_close`.
    pub fn close_image(&mut self) -> Result<bool, StoreFault>
        ensures done { CloseImageDone D.honest D.view self.old.store self.new.store result }
        ensures faults { CloseImageFaults D.honest D.view self.old.store self.new.store result }
        ensures failures { D.failed_calls self.new.store.disk ≡ counted result (D.failed_calls self.old.store.disk) }
        ensures calls { D.calls self.new.store.disk ≤ D.calls self.old.store.disk + 4 }
        ensures rest { self.new ≡ record self.old { store = self.new.store } }
    {
        self.store.close_image(self.alloc)
    }

    /// Writes the next piece of the image. Returns whether one was left and the image was closed; its faults are those
    /// of `roll_close`.
    pub fn write_piece(&mut self) -> Result<bool, StoreFault>
        ensures done { WritePieceDone D.honest D.view self.old.store self.new.store result }
        ensures faults { WritePieceFaults D.honest D.view self.old.store self.new.store result }
        ensures failures { D.failed_calls self.new.store.disk ≡ counted result (D.failed_calls self.old.store.disk) }
        ensures calls { D.calls self.new.store.disk ≤ D.calls self.old.store.disk + 4 }
        ensures rest { self.new ≡ record self.old { store = self.new.store } }
    {
        self.store.write_piece()
    }

    /// Finishes the image, whose receipt is then out. Returns whether all of it was written and the next segment is
    /// open; its faults are those of `roll_close`.
    pub fn finish(&mut self) -> Result<bool, StoreFault>
        ensures done { IfOk result (λ is_done. MatchBool is_done (FinishesImage D.honest D.view self.old self.new)
            ((self.old.store.failed ≡ false) × (CanFinish self.old.store.checkpoint → ⊥) × (self.new ≡ self.old))) }
        ensures faults { FinishFaults D.honest D.view self.old.store self.new.store result }
        ensures failures { D.failed_calls self.new.store.disk ≡ counted result (D.failed_calls self.old.store.disk) }
        ensures calls { D.calls self.new.store.disk ≤ D.calls self.old.store.disk + 4 }
        ensures rest { OnErr result (self.new ≡ record self.old { store = self.new.store }) }
    {
        let Some(finished) = self.store.finish()? else {
            return Ok(false);
        };
        self.finished_first = self.receipt.is_none();
        drop(self.finished.replace(finished));
        Ok(true)
    }
}
