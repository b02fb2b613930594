ghost use Rattle.std.specs.Prelude.{◌≡◌, ◌↔◌, ◌⊎◌, ◌+◌, ◌<◌, ◌≤◌, true, false, length, None, Some, IfOk, IfErr, MatchBool, MatchResult, OnOk, is_some};
ghost use Rattle.codes.specs.declared.limits.TheConstants.{MAX_RECORDS};
ghost use Rattle.disk.specs.Moments.{IsSynced, one_more};
ghost use Rattle.disk.specs.Slots.{slot_of};
ghost use Rattle.slot_steps.specs.Steps.{segment_slot};
ghost use Rattle.store_half.specs.Changes.{CanClear, ClearDone, ClearFaults, CloseImageDone, CloseImageFaults, FinishDone, FinishFaults, FinishNotNow, IsAppended, PassesAppend, RollCloseDone, RollCloseFaults, RollHeadDone, RollHeadFaults, RollOpenDone, RollOpenFaults, WritePieceDone, WritePieceFaults};
ghost use Rattle.store_half.specs.Counting.{counted, counted_fault};
ghost use Rattle.store_half.specs.Values.{begun};

use crate::clearing::clear_segment;
use crate::epoch_log::Taken;
use crate::receipt::{Finished, Receipt};
use crate::under_way::{Checkpoint, Cut, Making};
use checkpoint::Image;
use disk::Disk;
use journal::{Segment, roll_close, roll_head, roll_open};
use std::alloc::Global;
use std::marker::Model;
use store_fault::StoreFault;

/// The store half of the core. It knows nothing of calls besides batches and snapshots.
pub struct StoreHalf<D: Disk> {
    disk: D,
    segment: Segment,
    failed: bool,
    checkpoint: Option<Checkpoint>,
}

// Written by hand, so that proofs of the crates above depend on one function instead of its parts.
impl<D: Disk + Drop> Drop for StoreHalf<D> {
    fn drop(self) {
        let StoreHalf {
            disk,
            segment: _,
            failed: _,
            checkpoint,
        } = self;
        drop(disk);
        drop(checkpoint);
    }
}

impl<D: Disk> Model for StoreHalf<D> {
    ghost use Rattle.std.specs.Prelude.{◌≡◌, false};
    ghost use Rattle.store_half.specs.Values.{AreEpochs, HasShape, StoreValue, store_code};

    ghost Value = { StoreValue D };

    ghost coded = { store_code D.code };

    ghost view = { λ s. record { disk = s.disk; segment = s.segment; failed = s.failed; checkpoint = s.checkpoint } };

    ghost invariant = { λ s. AreEpochs s.segment s.checkpoint
        × (s.failed ≡ false → D.honest → HasShape (D.view s.disk) s.segment s.checkpoint) };
}

impl<D: Disk> StoreHalf<D> {
    /// Continues with the disk of an opened store and its segment in use.
    pub fn new(disk: D, segment: Segment) -> Self
        requires { D.honest → 0 < length (slot_of (D.view disk).seen (segment_slot segment.epoch)) }
        ensures { result ≡ record { disk = disk; segment = segment; failed = false; checkpoint = None } }
    {
        StoreHalf {
            disk,
            segment,
            failed: false,
            checkpoint: None,
        }
    }

    /// Returns the disk of the store.
    pub fn into_disk(self) -> D
        ensures { result ≡ self.disk }
    {
        let StoreHalf {
            disk,
            segment: _,
            failed: _,
            checkpoint: _,
        } = self;
        disk
    }

    /// Returns true if the device failed, so that the store must be opened again.
    pub fn has_failed(&self) -> bool
        ensures { result ≡ self.now.failed }
    {
        self.failed
    }

    /// Returns the epoch whose batches are stored now.
    pub fn epoch(&self) -> u64
        ensures { result ≡ self.now.segment.epoch }
    {
        self.segment.epoch
    }

    /// Returns the number of records in the segment in use.
    pub fn records(&self) -> u64
        ensures { result ≡ self.now.segment.records }
    {
        self.segment.records
    }

    /// Returns true if a checkpoint is under way.
    pub fn is_checkpointing(&self) -> bool
        ensures { result ≡ is_some self.now.checkpoint }
    {
        self.checkpoint.is_some()
    }

    /// Stores a batch of the epoch in use, which an epoch log released: all of it or nothing. At `Ok` it is durable. It
    /// allocates nothing. A fault returns the batch.
    ///
    /// `Failed`: the device failed in an earlier call; the store must be opened again. `Full`: the segment would hold
    /// more than `MAX_RECORDS` records; nothing changed. `Device`: the device failed; only opening the store again can
    /// tell if the batch is stored.
    pub fn append(&mut self, taken: Taken) -> Result<Receipt, (StoreFault, Taken)>
        requires { 0 < taken.batch.count }
        ensures stored { D.honest → OnOk result
            (IsAppended self.old.segment.epoch (D.view self.old.disk).seen (D.view self.new.disk).seen taken.batch) }
        ensures synced { D.honest → OnOk result
            (IsSynced (D.view self.new.disk) (segment_slot self.old.segment.epoch)) }
        ensures any_moment { D.honest → IsSynced (D.view self.old.disk) (segment_slot self.old.segment.epoch)
            → PassesAppend self.old.segment.epoch (D.view self.old.disk) (D.view self.new.disk) taken.batch }
        ensures counted { IfOk result (λ receipt. (receipt ≡ taken.batch.count)
            × (self.new.segment ≡ record self.old.segment { records = self.old.segment.records + taken.batch.count })
            × (self.new.failed ≡ false)) }
        ensures under_way { self.new.checkpoint ≡ self.old.checkpoint }
        ensures open { OnOk result ((self.old.failed ≡ false)
            × (self.old.segment.records + taken.batch.count ≤ MAX_RECORDS)) }
        ensures back { IfErr result (λ fault. fault.1 ≡ taken) }
        ensures failures { MatchResult result (λ _. D.failed_calls self.new.disk ≡ D.failed_calls self.old.disk)
            (λ fault. D.failed_calls self.new.disk ≡ counted_fault fault.0 (D.failed_calls self.old.disk)) }
        ensures calls { D.calls self.new.disk ≤ D.calls self.old.disk + 4 }

        ensures failed { IfErr result (λ fault. fault.0 ≡ StoreFault.Failed ↔ (self.old.failed ≡ true)) }
        ensures full { IfErr result (λ fault. fault.0 ≡ StoreFault.Full
            ↔ ((self.old.failed ≡ false) × (MAX_RECORDS < self.old.segment.records + taken.batch.count))) }
        ensures device { IfErr result (λ fault. fault.0 ≡ StoreFault.Device
            → (self.new.failed ≡ true) × (D.failed_calls self.new.disk ≡ one_more (D.failed_calls self.old.disk))
            × (self.new.segment ≡ self.old.segment)) }
        ensures faults { IfErr result (λ fault. (fault.0 ≡ StoreFault.Device)
            ⊎ (((fault.0 ≡ StoreFault.Failed) ⊎ (fault.0 ≡ StoreFault.Full)) × (self.new ≡ self.old))) }
    {
        if self.failed {
            return Err((StoreFault::Failed, taken));
        }
        match self.segment.append(&mut self.disk, taken.batch()) {
            Ok(()) => Ok(Receipt { taken }),
            Err(StoreFault::Full) => Err((StoreFault::Full, taken)),
            Err(_) => {
                self.failed = true;
                Err((StoreFault::Device, taken))
            }
        }
    }

    /// Takes the next step to clear the slot of the next epoch's segment. Returns true if there was one. None is left
    /// once the slot isn't open and isn't longer than its header, and none is taken while a checkpoint is under way.
    ///
    /// `Failed`: the device failed in an earlier call, and nothing changed. `Device`: the device failed.
    pub fn clear(&mut self) -> Result<bool, StoreFault>
        ensures done { ClearDone D.honest D.view self.old self.new result }
        ensures faults { ClearFaults D.honest D.view self.old self.new result }
        ensures failures { D.failed_calls self.new.disk ≡ counted result (D.failed_calls self.old.disk) }
        ensures calls { D.calls self.new.disk ≤ D.calls self.old.disk + 4 }
    {
        if self.failed {
            return Err(StoreFault::Failed);
        }
        if !self.can_clear() {
            return Ok(false);
        }
        let Ok(is_step) = clear_segment(&mut self.disk, self.segment.epoch + 1) else {
            self.failed = true;
            return Err(StoreFault::Device);
        };
        Ok(is_step)
    }

    /// Returns true if no checkpoint is under way and there is a next epoch.
    fn can_clear(&self) -> bool
        ensures { MatchBool result (CanClear self.now) (CanClear self.now → ⊥) }
    {
        !self.is_checkpointing() && self.segment.epoch < u64::MAX
    }

    /// Begins a checkpoint with the state at the end of the epoch in use. It allocates nothing.
    pub fn begin(&mut self, cut: Cut)
        requires none { self.old.checkpoint ≡ None }
        requires next { cut.epoch ≡ self.old.segment.epoch + 1 }
        ensures { self.new ≡ record self.old { checkpoint = Some (begun cut) } }
    {
        self.checkpoint = Some(Checkpoint::new(cut));
    }

    /// Closes the slot of the next segment. Returns true if that was the checkpoint's next step of rotating, and false
    /// if nothing was done.
    ///
    /// `Failed`: the device failed in an earlier call, and nothing changed. `Device`: the device failed.
    pub fn roll_close(&mut self) -> Result<bool, StoreFault>
        ensures done { RollCloseDone D.honest D.view self.old self.new result }
        ensures faults { RollCloseFaults D.honest D.view self.old self.new result }
        ensures failures { D.failed_calls self.new.disk ≡ counted result (D.failed_calls self.old.disk) }
        ensures calls { D.calls self.new.disk ≤ D.calls self.old.disk + 4 }
    {
        if self.failed {
            return Err(StoreFault::Failed);
        }
        let Some(checkpoint) = &mut self.checkpoint else {
            return Ok(false);
        };
        if checkpoint.rolled != 0 {
            return Ok(false);
        }
        if roll_close(&mut self.disk, checkpoint.epoch).is_err() {
            self.failed = true;
            return Err(StoreFault::Device);
        }
        checkpoint.rolled = 1;
        Ok(true)
    }

    /// Writes the header of the next segment. Returns and fails like `roll_close`.
    pub fn roll_head(&mut self) -> Result<bool, StoreFault>
        ensures done { RollHeadDone D.honest D.view self.old self.new result }
        ensures faults { RollHeadFaults D.honest D.view self.old self.new result }
        ensures failures { D.failed_calls self.new.disk ≡ counted result (D.failed_calls self.old.disk) }
        ensures calls { D.calls self.new.disk ≤ D.calls self.old.disk + 4 }
    {
        if self.failed {
            return Err(StoreFault::Failed);
        }
        let Some(checkpoint) = &mut self.checkpoint else {
            return Ok(false);
        };
        if checkpoint.rolled != 1 {
            return Ok(false);
        }
        if roll_head(&mut self.disk, checkpoint.epoch).is_err() {
            self.failed = true;
            return Err(StoreFault::Device);
        }
        checkpoint.rolled = 2;
        Ok(true)
    }

    /// Opens the next segment, once the one in use holds its whole epoch log. From then on the next epoch's batches are
    /// stored there. Returns and fails like `roll_close`.
    pub fn roll_open(&mut self) -> Result<bool, StoreFault>
        ensures done { RollOpenDone D.honest D.view self.old self.new result }
        ensures faults { RollOpenFaults D.honest D.view self.old self.new result }
        ensures failures { D.failed_calls self.new.disk ≡ counted result (D.failed_calls self.old.disk) }
        ensures calls { D.calls self.new.disk ≤ D.calls self.old.disk + 4 }
    {
        if self.failed {
            return Err(StoreFault::Failed);
        }
        let Some(checkpoint) = &mut self.checkpoint else {
            return Ok(false);
        };
        if checkpoint.rolled != 2 || self.segment.records != checkpoint.log {
            return Ok(false);
        }
        let Ok(segment) = roll_open(&mut self.disk, checkpoint.epoch) else {
            self.failed = true;
            return Err(StoreFault::Device);
        };
        self.segment = segment;
        checkpoint.rolled = 3;
        Ok(true)
    }

    /// Encodes the next image in memory, and closes and clears its slot. Returns true if that was the image's next
    /// step, and false if nothing was done.
    ///
    /// `NoMemory`: an allocation failed, and nothing changed. The other faults are those of `roll_close`.
    pub fn close_image(&mut self, alloc: Global) -> Result<bool, StoreFault>
        ensures done { CloseImageDone D.honest D.view self.old self.new result }
        ensures faults { CloseImageFaults D.honest D.view self.old self.new result }
        ensures failures { D.failed_calls self.new.disk ≡ counted result (D.failed_calls self.old.disk) }
        ensures calls { D.calls self.new.disk ≤ D.calls self.old.disk + 4 }
    {
        if self.failed {
            return Err(StoreFault::Failed);
        }
        let Some(checkpoint) = &mut self.checkpoint else {
            return Ok(false);
        };
        let Making::Cut(snapshot) = &checkpoint.making else {
            return Ok(false);
        };
        let Ok(image) = Image::of(alloc, checkpoint.epoch, snapshot) else {
            return Err(StoreFault::NoMemory);
        };
        if image.close(&mut self.disk).is_err() {
            self.failed = true;
            return Err(StoreFault::Device);
        }
        checkpoint.making = Making::Image(image);
        Ok(true)
    }

    /// Writes the next piece of the image. Returns true if the image's slot was closed and a piece was left, and false
    /// if nothing was done. Fails like `roll_close`.
    pub fn write_piece(&mut self) -> Result<bool, StoreFault>
        ensures done { WritePieceDone D.honest D.view self.old self.new result }
        ensures faults { WritePieceFaults D.honest D.view self.old self.new result }
        ensures failures { D.failed_calls self.new.disk ≡ counted result (D.failed_calls self.old.disk) }
        ensures calls { D.calls self.new.disk ≤ D.calls self.old.disk + 4 }
    {
        if self.failed {
            return Err(StoreFault::Failed);
        }
        let Some(checkpoint) = &mut self.checkpoint else {
            return Ok(false);
        };
        let Making::Image(image) = &mut checkpoint.making else {
            return Ok(false);
        };
        if image.written() >= image.pieces() {
            return Ok(false);
        }
        if image.write_piece(&mut self.disk).is_err() {
            self.failed = true;
            return Err(StoreFault::Device);
        }
        Ok(true)
    }

    /// Opens the gate of the image, once its whole encoding is written and the next segment is open. The checkpoint is
    /// then over, which the returned value proves. Fails like `roll_close`.
    pub fn finish(&mut self) -> Result<Option<Finished>, StoreFault>
        ensures done { FinishDone D.honest D.view self.old self.new result }
        ensures not_now { FinishNotNow self.old self.new result }
        ensures faults { FinishFaults D.honest D.view self.old self.new result }
        ensures failures { D.failed_calls self.new.disk ≡ counted result (D.failed_calls self.old.disk) }
        ensures calls { D.calls self.new.disk ≤ D.calls self.old.disk + 4 }
    {
        if self.failed {
            return Err(StoreFault::Failed);
        }
        let Some(checkpoint) = &self.checkpoint else {
            return Ok(None);
        };
        let Making::Image(image) = &checkpoint.making else {
            return Ok(None);
        };
        if checkpoint.rolled != 3 || image.written() != image.pieces() {
            return Ok(None);
        }
        let epoch = checkpoint.epoch;
        // The contract of `size` says that the length of the encoding fits the header.
        let _ = image.size();
        if image.finish(&mut self.disk).is_err() {
            self.failed = true;
            return Err(StoreFault::Device);
        }
        self.checkpoint = None;
        Ok(Some(Finished { epoch }))
    }
}
