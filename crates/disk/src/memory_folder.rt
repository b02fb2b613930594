// The slots of a disk in memory as the files of a folder.
ghost use Rattle.std.specs.Prelude.{◌≡◌};
ghost use Rattle.disk.specs.Folders.{slot_named};

use crate::{Disk, Folder, FolderFault, MemDisk, Slot};

/// A folder in memory, with the four files of a store and no others. A crash leaves of them what it leaves of a disk in
/// memory, and their names.
#[derive(Drop)]
pub struct MemFolder {
    /// The disk whose slots are the files.
    pub disk: MemDisk,
}

// The slot that the file of this name keeps.
fn slot_of_name(name: &str) -> Option<Slot>
    ensures { result ≡ slot_named name.now }
{
    if name == "image0" {
        return Some(Slot::Image0);
    }
    if name == "image1" {
        return Some(Slot::Image1);
    }
    if name == "segment0" {
        return Some(Slot::Segment0);
    }
    if name == "segment1" {
        return Some(Slot::Segment1);
    }
    None
}

impl Folder for MemFolder {
    ghost use Rattle.disk.specs.Folders.{folder_of};
    ghost use Rattle.disk.specs.Memory.{memory_view};
    ghost use Rattle.disk.specs.Lasting.{folder_lasts, folder_returns_none};

    ghost honest = { Unit {0} };

    ghost view = { λ folder. folder_of (memory_view folder.disk) };

    fn has(&self, name: &str) -> bool {
        slot_of_name(name).is_some()
    }

    fn length(&self, name: &str) -> u64 {
        match slot_of_name(name) {
            None => 0,
            Some(slot) => self.disk.length(slot),
        }
    }

    fn read(&mut self, name: &str, at: u64, buffer: &mut [u8]) -> Result<usize, FolderFault> {
        let Some(slot) = slot_of_name(name) else {
            return Ok(0);
        };
        match self.disk.read(slot, at, buffer) {
            Ok(count) => Ok(count),
            Err(_) => Err(FolderFault),
        }
    }

    fn create(&mut self, _name: &str) -> Result<(), FolderFault> {
        Err(FolderFault)
    }

    fn write_at(&mut self, name: &str, at: u64, bytes: &[u8]) -> Result<(), FolderFault> {
        let Some(slot) = slot_of_name(name) else {
            return Err(FolderFault);
        };
        match self.disk.write_at(slot, at, bytes) {
            Ok(()) => Ok(()),
            Err(_) => Err(FolderFault),
        }
    }

    fn cut(&mut self, name: &str, len: u64) -> Result<(), FolderFault> {
        let Some(slot) = slot_of_name(name) else {
            return Err(FolderFault);
        };
        match self.disk.cut(slot, len) {
            Ok(()) => Ok(()),
            Err(_) => Err(FolderFault),
        }
    }

    fn sync(&mut self, name: &str) -> Result<(), FolderFault> {
        let Some(slot) = slot_of_name(name) else {
            return Ok(());
        };
        match self.disk.sync(slot) {
            Ok(()) => Ok(()),
            Err(_) => Err(FolderFault),
        }
    }

    fn sync_names(&mut self) -> Result<(), FolderFault> {
        Ok(())
    }

    ghost lasts = { folder_lasts };

    ghost returns_none = { folder_returns_none };
}
