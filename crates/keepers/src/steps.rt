//! The steps of a checkpoint, and those that clear the next segment's slot before it. A crash at any moment of each of
//! them leaves what is stored.
ghost use Rattle.std.specs.Prelude.{◌+◌, ◌≡◌, ◌≤◌};
ghost use Rattle.keepers.specs.Storing.{LosesNothing};
ghost use Rattle.store_half.specs.Changes.{CanOpen, ClearDone, ClearFaults, CloseImageDone, CloseImageFaults, FinishDone, FinishFaults, FinishNotNow, IsDoneIf, RollCloseDone, RollCloseFaults, RollHeadDone, RollHeadFaults, RollOpenDone, RollOpenFaults, RollsOpen, WritePieceDone, WritePieceFaults};
ghost use Rattle.store_half.specs.Counting.{counted};

use crate::StoreKeeper;
use disk::Disk;
use history::Founding;
use std::alloc::Global;
use store_fault::StoreFault;
use store_half::Finished;

impl<L: Founding, D: Disk> StoreKeeper<L, D> {
    /// Takes the next step to clear the slot of the next epoch's segment. Returns whether there was one: none is left
    /// once the slot isn't open and is as short as its header, and none is taken while a checkpoint is under way.
    ///
    /// `Failed`: the device failed in an earlier step, and nothing changed. `Device`: the device failed.
    pub fn clear(&mut self) -> Result<bool, StoreFault>
        ensures done { ClearDone D.honest D.view self.old.store self.new.store result }
        ensures faults { ClearFaults D.honest D.view self.old.store self.new.store result }
        ensures failures { D.failed_calls self.new.store.disk ≡ counted result (D.failed_calls self.old.store.disk) }
        ensures calls { D.calls self.new.store.disk ≤ D.calls self.old.store.disk + 4 }
        ensures rest { self.new ≡ record self.old { store = self.new.store } }
        ensures any_moment { D.honest → LosesNothing D.view L.base self.old self.new }
    {
        self.store.clear()
    }

    /// Closes the slot of the next segment. Returns whether that was the next step.
    ///
    /// `Failed`: the device failed in an earlier step, and nothing changed. `Device`: the device failed.
    pub fn roll_close(&mut self) -> Result<bool, StoreFault>
        ensures done { RollCloseDone D.honest D.view self.old.store self.new.store result }
        ensures faults { RollCloseFaults D.honest D.view self.old.store self.new.store result }
        ensures failures { D.failed_calls self.new.store.disk ≡ counted result (D.failed_calls self.old.store.disk) }
        ensures calls { D.calls self.new.store.disk ≤ D.calls self.old.store.disk + 4 }
        ensures rest { self.new ≡ record self.old { store = self.new.store } }
        ensures any_moment { D.honest → LosesNothing D.view L.base self.old self.new }
    {
        self.store.roll_close()
    }

    /// Writes the header of the next segment. Returns whether that was the next step; its faults are those of
    /// `roll_close`.
    pub fn roll_head(&mut self) -> Result<bool, StoreFault>
        ensures done { RollHeadDone D.honest D.view self.old.store self.new.store result }
        ensures faults { RollHeadFaults D.honest D.view self.old.store self.new.store result }
        ensures failures { D.failed_calls self.new.store.disk ≡ counted result (D.failed_calls self.old.store.disk) }
        ensures calls { D.calls self.new.store.disk ≤ D.calls self.old.store.disk + 4 }
        ensures rest { self.new ≡ record self.old { store = self.new.store } }
        ensures any_moment { D.honest → LosesNothing D.view L.base self.old self.new }
    {
        self.store.roll_head()
    }

    /// Opens the next segment. Returns whether that was the next step, and all records are stored that led to the
    /// checkpoint's state; its faults are those of `roll_close`.
    pub fn roll_open(&mut self) -> Result<bool, StoreFault>
        ensures done { IsDoneIf self.old.store
            (CanOpen self.old.store self.old.store.checkpoint × (self.old.stored ≡ self.old.earlier))
            (RollsOpen D.honest D.view self.old.store self.new.store) self.new.store result }
        ensures faults { RollOpenFaults D.honest D.view self.old.store self.new.store result }
        ensures failures { D.failed_calls self.new.store.disk ≡ counted result (D.failed_calls self.old.store.disk) }
        ensures calls { D.calls self.new.store.disk ≤ D.calls self.old.store.disk + 4 }
        ensures rest { self.new ≡ record self.old { store = self.new.store } }
        ensures any_moment { D.honest → LosesNothing D.view L.base self.old self.new }
    {
        if self.store.has_failed() {
            return Err(StoreFault::Failed);
        }
        if self.stored.count() != self.earlier {
            return Ok(false);
        }
        self.open_next()
    }

    /// Opens the next segment, if all is stored that the segment before has to hold.
    fn open_next(&mut self) -> Result<bool, StoreFault>
        requires { self.old.stored ≡ self.old.earlier }
        ensures done { RollOpenDone D.honest D.view self.old.store self.new.store result }
        ensures faults { RollOpenFaults D.honest D.view self.old.store self.new.store result }
        ensures failures { D.failed_calls self.new.store.disk ≡ counted result (D.failed_calls self.old.store.disk) }
        ensures calls { D.calls self.new.store.disk ≤ D.calls self.old.store.disk + 4 }
        ensures rest { self.new ≡ record self.old { store = self.new.store } }
        ensures any_moment { D.honest → LosesNothing D.view L.base self.old self.new }
    {
        self.store.roll_open()
    }

    /// Makes the next image in memory, and closes its slot. Returns whether that was the image's next step.
    ///
    /// `NoMemory`: an allocation failed, and nothing changed. Its other faults are those of `roll_close`.
    pub fn close_image(&mut self, alloc: Global) -> Result<bool, StoreFault>
        ensures done { CloseImageDone D.honest D.view self.old.store self.new.store result }
        ensures faults { CloseImageFaults D.honest D.view self.old.store self.new.store result }
        ensures failures { D.failed_calls self.new.store.disk ≡ counted result (D.failed_calls self.old.store.disk) }
        ensures calls { D.calls self.new.store.disk ≤ D.calls self.old.store.disk + 4 }
        ensures rest { self.new ≡ record self.old { store = self.new.store } }
        ensures any_moment { D.honest → LosesNothing D.view L.base self.old self.new }
    {
        self.store.close_image(alloc)
    }

    /// Writes the next piece of the image. Returns whether one was left and the image was closed; its faults are those
    /// of `roll_close`.
    pub fn write_piece(&mut self) -> Result<bool, StoreFault>
        ensures done { WritePieceDone D.honest D.view self.old.store self.new.store result }
        ensures faults { WritePieceFaults D.honest D.view self.old.store self.new.store result }
        ensures failures { D.failed_calls self.new.store.disk ≡ counted result (D.failed_calls self.old.store.disk) }
        ensures calls { D.calls self.new.store.disk ≤ D.calls self.old.store.disk + 4 }
        ensures rest { self.new ≡ record self.old { store = self.new.store } }
        ensures any_moment { D.honest → LosesNothing D.view L.base self.old self.new }
    {
        self.store.write_piece()
    }

    /// Finishes the image, once all of it is written and the next segment is open. The checkpoint is then over, and the
    /// receipt says so. Its faults are those of `roll_close`.
    pub fn finish(&mut self) -> Result<Option<Finished>, StoreFault>
        ensures done { FinishDone D.honest D.view self.old.store self.new.store result }
        ensures not_now { FinishNotNow self.old.store self.new.store result }
        ensures faults { FinishFaults D.honest D.view self.old.store self.new.store result }
        ensures failures { D.failed_calls self.new.store.disk ≡ counted result (D.failed_calls self.old.store.disk) }
        ensures calls { D.calls self.new.store.disk ≤ D.calls self.old.store.disk + 4 }
        ensures rest { self.new ≡ record self.old { store = self.new.store } }
        ensures any_moment { D.honest → LosesNothing D.view L.base self.old self.new }
    {
        self.store.finish()
    }
}
