ghost use Rattle.std.specs.Prelude.{◌≡◌, ◌+◌, ◌^◌, ◌<◌, ◌≤◌, [], length, IfOk, OnOk, OnErr};
ghost use Rattle.disk.specs.Slots.{slot_of, with_slot};
ghost use Rattle.disk.specs.Moments.{IsSynced, Passes, Follows, CountsFailure};
ghost use Rattle.image.specs.Rows.{snapshot_encoding};
ghost use Rattle.ipc_model.specs.world.World.{pieces_of};
ghost use Rattle.checkpoint.specs.Images.{HoldsAfter, IsFinishing, first_pieces, one_more, open_image, unwritten};
ghost use Rattle.slot_steps.specs.Steps.{IsClosing, IsRemade, IsShut, IsStillClosed, image_slot as slot_of_epoch};

use crate::steps;
use disk::{Disk, DiskFault};
use image::write_into;
use slot_steps::image_slot;
use snapshot::Snapshot;
use std::alloc::{AllocError, Global};
use std::marker::Model;

/// An epoch's image: its encoding, and the number of pieces that were written to the slot.
#[derive(Drop)]
pub struct Image {
    epoch: u64,
    encoding: Vec<u8>,
    written: u64,
}

impl Model for Image {
    ghost use Rattle.std.specs.Prelude.{◌≤◌};
    ghost use Rattle.ipc_model.specs.world.World.{pieces_of};
    ghost use Rattle.checkpoint.specs.Images.{ImageValue, image_code};

    ghost Value = { ImageValue };

    ghost coded = { image_code };

    ghost view = { λ i. record { epoch = i.epoch; encoding = i.encoding.items; written = i.written } };

    ghost invariant = { λ i. i.written ≤ pieces_of i.encoding.items };
}

impl Image {
    /// Encodes the image with which an epoch begins, in memory.
    pub fn of(alloc: Global, epoch: u64, snapshot: &Snapshot) -> Result<Image, AllocError>
        ensures { IfOk result (λ image. image ≡ unwritten epoch (snapshot_encoding snapshot.now)) }
    {
        let mut encoding = Vec::new(alloc);
        write_into(snapshot, &mut encoding)?;
        Ok(Image {
            epoch,
            encoding,
            written: 0,
        })
    }

    /// Returns the length of the encoding in bytes.
    pub fn size(&self) -> u64
        ensures size { result ≡ length self.now.encoding }
        ensures fits { length self.now.encoding < 2 ^ 64 }
    {
        self.encoding.len() as u64
    }

    /// Returns the number of pieces of the encoding.
    pub fn pieces(&self) -> u64
        ensures { result ≡ pieces_of self.now.encoding }
    {
        steps::pieces_in(&self.encoding)
    }

    /// Returns the number of pieces that were written.
    pub fn written(&self) -> u64
        ensures written { result ≡ self.now.written }
        ensures within { result ≤ pieces_of self.now.encoding }
    {
        self.written
    }

    /// Closes and clears the image's slot.
    pub fn close<D: Disk>(&self, disk: &mut D) -> Result<(), DiskFault>
        ensures cleared { D.honest → OnOk result
            (HoldsAfter (slot_of (D.view disk.new).seen (slot_of_epoch self.now.epoch)) []) }
        ensures others { D.honest → OnOk result
            ((D.view disk.new).seen ≡ with_slot (D.view disk.old).seen (slot_of_epoch self.now.epoch)
            (slot_of (D.view disk.new).seen (slot_of_epoch self.now.epoch))) }
        ensures shut { D.honest → OnOk result (IsShut (D.view disk.new) (slot_of_epoch self.now.epoch)) }
        ensures any_moment { D.honest → IsSynced (D.view disk.old) (slot_of_epoch self.now.epoch)
            → Passes (D.view disk.old) (D.view disk.new)
            (Follows (D.view disk.old) (slot_of_epoch self.now.epoch) (IsClosing 24)) }
        ensures failures { CountsFailure (D.failed_calls disk.old) (D.failed_calls disk.new) result }
        ensures calls { D.calls disk.new ≤ D.calls disk.old + 4 }
    {
        steps::clear(disk, image_slot(self.epoch))
    }

    /// Appends the next piece to the slot.
    pub fn write_piece<D: Disk>(&mut self, disk: &mut D) -> Result<(), DiskFault>
        requires more { self.old.written < pieces_of self.old.encoding }
        requires holds { D.honest → HoldsAfter (slot_of (D.view disk.old).seen (slot_of_epoch self.old.epoch))
            (first_pieces self.old.written self.old.encoding) }
        ensures ok { OnOk result (self.new ≡ one_more self.old) }
        ensures err { OnErr result (self.new ≡ self.old) }
        ensures held { D.honest → OnOk result
            (HoldsAfter (slot_of (D.view disk.new).seen (slot_of_epoch self.old.epoch))
            (first_pieces (self.old.written + 1) self.old.encoding)) }
        ensures others { D.honest → OnOk result
            ((D.view disk.new).seen ≡ with_slot (D.view disk.old).seen (slot_of_epoch self.old.epoch)
            (slot_of (D.view disk.new).seen (slot_of_epoch self.old.epoch))) }
        ensures shut { D.honest → IsShut (D.view disk.old) (slot_of_epoch self.old.epoch)
            → OnOk result (IsShut (D.view disk.new) (slot_of_epoch self.old.epoch)) }
        ensures any_moment { D.honest → IsShut (D.view disk.old) (slot_of_epoch self.old.epoch)
            → Passes (D.view disk.old) (D.view disk.new)
            (Follows (D.view disk.old) (slot_of_epoch self.old.epoch) IsStillClosed) }
        ensures failures { CountsFailure (D.failed_calls disk.old) (D.failed_calls disk.new) result }
        ensures calls { D.calls disk.new ≤ D.calls disk.old + 1 }
    {
        let piece = steps::piece_at(&self.encoding, self.written);
        steps::push_piece(disk, image_slot(self.epoch), piece)?;
        self.written += 1;
        Ok(())
    }

    /// Opens the image's gate, once its whole encoding and its header are durable.
    pub fn finish<D: Disk>(&self, disk: &mut D) -> Result<(), DiskFault>
        requires all { self.now.written ≡ pieces_of self.now.encoding }
        requires holds { D.honest → HoldsAfter (slot_of (D.view disk.old).seen (slot_of_epoch self.now.epoch))
            (first_pieces self.now.written self.now.encoding) }
        ensures made { D.honest → OnOk result ((D.view disk.new).seen
            ≡ with_slot (D.view disk.old).seen (slot_of_epoch self.now.epoch)
            (open_image self.now.epoch self.now.encoding)) }
        ensures synced { D.honest → OnOk result (IsSynced (D.view disk.new) (slot_of_epoch self.now.epoch)) }
        ensures any_moment { D.honest → IsShut (D.view disk.old) (slot_of_epoch self.now.epoch)
            → Passes (D.view disk.old) (D.view disk.new)
            (Follows (D.view disk.old) (slot_of_epoch self.now.epoch)
            (IsFinishing self.now.epoch self.now.encoding)) }
        ensures failures { CountsFailure (D.failed_calls disk.old) (D.failed_calls disk.new) result }
        ensures calls { D.calls disk.new ≤ D.calls disk.old + 4 }
    {
        steps::finish(disk, image_slot(self.epoch), self.epoch, &self.encoding)
    }

    /// Writes the whole image: closes its slot, writes the encoding and the header, and opens the gate.
    pub fn write<D: Disk>(&self, disk: &mut D) -> Result<(), DiskFault>
        ensures made { D.honest → OnOk result ((D.view disk.new).seen
            ≡ with_slot (D.view disk.old).seen (slot_of_epoch self.now.epoch)
            (open_image self.now.epoch self.now.encoding)) }
        ensures synced { D.honest → OnOk result (IsSynced (D.view disk.new) (slot_of_epoch self.now.epoch)) }
        ensures any_moment { D.honest → IsSynced (D.view disk.old) (slot_of_epoch self.now.epoch)
            → Passes (D.view disk.old) (D.view disk.new)
            (Follows (D.view disk.old) (slot_of_epoch self.now.epoch)
            (IsRemade 24 (open_image self.now.epoch self.now.encoding))) }
        ensures failures { CountsFailure (D.failed_calls disk.old) (D.failed_calls disk.new) result }
    {
        steps::write_all(disk, image_slot(self.epoch), self.epoch, &self.encoding)
    }
}
