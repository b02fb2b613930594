ghost use Rattle.std.specs.Prelude.{◌≡◌, ◌↔◌, ◌⊎◌, ◌+◌, ◌-◌, ◌<◌, ◌≤◌, ◌++◌, ◌∷◌, length, take, OnOk, OnErr, IsErrOf};
ghost use Rattle.codes.specs.declared.limits.TheConstants.{MAX_RECORDS};
ghost use Rattle.disk.specs.Slots.{slot_of, with_slot};
ghost use Rattle.disk.specs.Moments.{IsSynced, Passes, Follows, one_more, CountsFailure};
ghost use Rattle.ipc_model.specs.store.Store.{with_batch, open_gate, IsMidAppend};
ghost use Rattle.journal.specs.Batch.{content_of};
ghost use Rattle.journal.specs.Storing.{IsMidStore};
ghost use Rattle.slot_steps.specs.Steps.{segment_slot as slot_of_epoch};

use crate::Batch;
use codes::MAX_RECORDS;
use disk::{Disk, DiskFault, Slot};
use slot_steps::{OPEN_GATE, segment_slot};
use store_fault::StoreFault;

/// The segment in use: its epoch and the number of its records. A closed gate follows them.
#[derive(Clone, Copy, PartialEq, Eq)]
pub struct Segment {
    pub epoch: u64,
    pub records: u64,
}

/// Writes a batch after a slot's last gate, and opens that gate once the batch is durable.
fn store<D: Disk>(disk: &mut D, slot: Slot, encoding: &[u8]) -> Result<(), DiskFault>
    requires { D.honest → 0 < length (slot_of (D.view disk.old).seen slot) }
    ensures stored { D.honest → OnOk result ((D.view disk.new).seen ≡ with_slot (D.view disk.old).seen slot
        (take (length (slot_of (D.view disk.old).seen slot) - 1) (slot_of (D.view disk.old).seen slot)
        ++ (open_gate ∷ encoding.now))) }
    ensures synced { D.honest → OnOk result (IsSynced (D.view disk.new) slot) }
    ensures any_moment { D.honest → IsSynced (D.view disk.old) slot
        → Passes (D.view disk.old) (D.view disk.new) (Follows (D.view disk.old) slot (IsMidStore encoding.now)) }
    ensures failures { CountsFailure (D.failed_calls disk.old) (D.failed_calls disk.new) result }
    ensures calls { D.calls disk.new ≤ D.calls disk.old + 4 }
{
    let gate = disk.length(slot).saturating_sub(1);
    disk.write_at(slot, gate + 1, encoding)?;
    disk.sync(slot)?;
    disk.write_at(slot, gate, &[OPEN_GATE])?;
    disk.sync(slot)
}

impl Segment {
    /// Stores a batch, which is durable at `Ok`. It allocates nothing.
    ///
    /// `Full`: the segment would hold more than `MAX_RECORDS` records; nothing changed. `Device`: the device failed.
    /// The whole batch is stored, or nothing of it; only opening the store again can tell.
    pub fn append<D: Disk>(&mut self, disk: &mut D, batch: &Batch) -> Result<(), StoreFault>
        requires some { 0 < batch.now.count }
        requires gate { D.honest → 0 < length (slot_of (D.view disk.old).seen (slot_of_epoch self.old.epoch)) }
        ensures stored { D.honest → OnOk result
            ((D.view disk.new).seen ≡ with_slot (D.view disk.old).seen (slot_of_epoch self.old.epoch)
            (with_batch (slot_of (D.view disk.old).seen (slot_of_epoch self.old.epoch)) (content_of batch.now))) }
        ensures synced { D.honest → OnOk result (IsSynced (D.view disk.new) (slot_of_epoch self.old.epoch)) }
        // A crash at any moment of the call leaves the other slots unchanged. It leaves the segment with any bytes
        // appended, or with the batch after a gate that is open or closed.
        ensures any_moment { D.honest → IsSynced (D.view disk.old) (slot_of_epoch self.old.epoch)
            → Passes (D.view disk.old) (D.view disk.new) (Follows (D.view disk.old) (slot_of_epoch self.old.epoch)
            (λ before after. IsMidAppend before (content_of batch.now) after)) }
        ensures counted { OnOk result (self.new ≡ record self.old { records = self.old.records + batch.now.count }) }
        ensures room { OnOk result (self.old.records + batch.now.count ≤ MAX_RECORDS) }
        ensures quiet { OnOk result (D.failed_calls disk.new ≡ D.failed_calls disk.old) }
        ensures calls { D.calls disk.new ≤ D.calls disk.old + 4 }

        ensures full { IsErrOf result StoreFault.Full ↔ (MAX_RECORDS < self.old.records + batch.now.count) }
        ensures unchanged { IsErrOf result StoreFault.Full → disk.new ≡ disk.old }
        ensures device { IsErrOf result StoreFault.Device
            → D.failed_calls disk.new ≡ one_more (D.failed_calls disk.old) }
        ensures faults { OnErr result ((result ≡ Err StoreFault.Device) ⊎ (result ≡ Err StoreFault.Full)) }
        ensures kept { OnErr result (self.new ≡ self.old) }
    {
        let count = u64::from(batch.count());
        if MAX_RECORDS.saturating_sub(self.records) < count {
            return Err(StoreFault::Full);
        }
        store(disk, segment_slot(self.epoch), batch.encoding())?;
        self.records += count;
        Ok(())
    }
}
