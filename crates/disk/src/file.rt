// A disk in four files of a folder.
ghost use Rattle.std.specs.Prelude.{◌≡◌, ◌≤◌, true, false, is_some, length, take, IfOk, OnOk};
ghost use Rattle.std.specs.String.{string_bytes};
ghost use Rattle.disk.specs.Folders.{AreNamesSynced, disk_of};
ghost use Rattle.disk.specs.Moments.{Follows, IsSynced, MayLeave, Passes};
ghost use Rattle.disk.specs.Slots.{Slots, TornCut, TornWrite, file_name, slot_of, with_slot, written_at};

use crate::device::count_failure;
use crate::{Disk, DiskFault, Folder, FolderFault, HostFolder, Slot};
use std::alloc::Global;
use std::rt::Files;

/// A slot in each of the files `image0`, `image1`, `segment0` and `segment1` of a folder. A file that isn't there is an
/// empty slot; the first write to the slot, or the first truncation, makes it.
///
/// It keeps the disk model for any folder that keeps its files as the clauses of `Folder` say.
pub struct FileDisk<F: Folder> {
    folder: F,

    // Whether a crash leaves all files that are there. At first that isn't known, since an earlier run may have made
    // them.
    are_names_synced: bool,

    // Whether a sync failed. The system may have dropped what it could not write, so later syncs would prove nothing.
    is_sync_lost: bool,
    failures: u64,
    ghost synced_names: { are_names_synced ≡ true → F.honest → AreNamesSynced (F.view folder) },
    ghost lost: { is_sync_lost ≡ false → F.honest → (F.view folder).has_lost ≡ false },
}

// Written out, so that proofs above know one function and not its parts.
impl<F: Folder + Drop> Drop for FileDisk<F> {
    fn drop(self) {
        let FileDisk {
            folder,
            are_names_synced: _,
            is_sync_lost: _,
            failures: _,
        } = self;
        drop(folder);
    }
}

impl<F: Folder> FileDisk<F> {
    /// The disk in the files of a folder in which no sync has failed yet.
    pub fn new(folder: F) -> FileDisk<F>
        requires { F.honest → (F.view folder).has_lost ≡ false }
        ensures seen { (⟦<FileDisk<F> as Disk>⟧.view result).seen ≡ (disk_of (F.view folder)).seen }
        ensures left { (c : Slots) → MayLeave (⟦<FileDisk<F> as Disk>⟧.view result) c
            → MayLeave (disk_of (F.view folder)) c }
        ensures failures { ⟦<FileDisk<F> as Disk>⟧.failed_calls result ≡ 0 }
        ensures folder { result.folder ≡ folder }
    {
        FileDisk {
            folder,
            are_names_synced: false,
            is_sync_lost: false,
            failures: 0,
        }
    }
}

impl<R: Files + Drop> FileDisk<HostFolder<R>> {
    /// The disk in a folder of the operating system. Its files are opened for reading only. The error is that the
    /// folder doesn't exist or isn't a folder, that something in it can't be opened as a file, or that memory ran out.
    pub fn at(alloc: Global, files: R, folder: &str) -> Result<FileDisk<HostFolder<R>>, DiskFault>
        ensures failures { IfOk result (λ disk. ⟦<FileDisk<HostFolder<R>> as Disk>⟧.failed_calls disk ≡ 0) }
        ensures path { IfOk result (λ disk. string_bytes disk.folder.path ≡ folder.now) }
    {
        let names = [
            Slot::Image0.file_name(),
            Slot::Image1.file_name(),
            Slot::Segment0.file_name(),
            Slot::Segment1.file_name(),
        ];
        match HostFolder::open(alloc, files, folder, &names) {
            Ok(folder) => Ok(FileDisk::new(folder)),
            Err(_) => Err(DiskFault),
        }
    }
}

// Makes the file of a slot, if it isn't there. Its slot is empty before and after.
fn make_file<F: Folder>(folder: &mut F, slot: Slot) -> Result<(), FolderFault>
    ensures made { F.honest → OnOk result (is_some ((F.view folder.new).seen (file_name slot)) ≡ true) }
    ensures same { F.honest → OnOk result ((disk_of (F.view folder.new)).seen ≡ (disk_of (F.view folder.old)).seen) }
    ensures time { F.honest → Passes (disk_of (F.view folder.old)) (disk_of (F.view folder.new))
        (MayLeave (disk_of (F.view folder.old))) }
    ensures has_lost { F.honest → (F.view folder.new).has_lost ≡ (F.view folder.old).has_lost }
    ensures names { F.honest → is_some ((F.view folder.old).seen (file_name slot)) ≡ true
        → folder.new ≡ folder.old }
{
    let name = slot.file_name();
    if folder.has(name) {
        return Ok(());
    }
    folder.create(name)
}

// Writes to the file of a slot, which is made if it isn't there.
fn write_file<F: Folder>(
    folder: &mut F,
    slot: Slot,
    at: u64,
    bytes: &[u8],
) -> Result<(), FolderFault>
    requires { F.honest → at ≤ length (slot_of (disk_of (F.view folder.old)).seen slot) }
    ensures written { F.honest → OnOk result ((disk_of (F.view folder.new)).seen
        ≡ with_slot (disk_of (F.view folder.old)).seen slot
        (written_at (slot_of (disk_of (F.view folder.old)).seen slot) at bytes.now)) }
    ensures time { F.honest → Passes (disk_of (F.view folder.old)) (disk_of (F.view folder.new))
        (Follows (disk_of (F.view folder.old)) slot (TornWrite at (length bytes.now))) }
    ensures has_lost { F.honest → (F.view folder.new).has_lost ≡ (F.view folder.old).has_lost }
    ensures names { F.honest → is_some ((F.view folder.old).seen (file_name slot)) ≡ true
        → AreNamesSynced (F.view folder.old) → AreNamesSynced (F.view folder.new) }
{
    make_file(folder, slot)?;
    folder.write_at(slot.file_name(), at, bytes)
}

// Truncates the file of a slot, which is made if it isn't there.
fn cut_file<F: Folder>(folder: &mut F, slot: Slot, len: u64) -> Result<(), FolderFault>
    requires { F.honest → len ≤ length (slot_of (disk_of (F.view folder.old)).seen slot) }
    ensures cut { F.honest → OnOk result ((disk_of (F.view folder.new)).seen
        ≡ with_slot (disk_of (F.view folder.old)).seen slot
        (take len (slot_of (disk_of (F.view folder.old)).seen slot))) }
    ensures time { F.honest → Passes (disk_of (F.view folder.old)) (disk_of (F.view folder.new))
        (Follows (disk_of (F.view folder.old)) slot (TornCut len)) }
    ensures has_lost { F.honest → (F.view folder.new).has_lost ≡ (F.view folder.old).has_lost }
    ensures names { F.honest → is_some ((F.view folder.old).seen (file_name slot)) ≡ true
        → AreNamesSynced (F.view folder.old) → AreNamesSynced (F.view folder.new) }
{
    make_file(folder, slot)?;
    folder.cut(slot.file_name(), len)
}

// Syncs the file of a slot, which is there, and the names, unless they are known to be synced.
fn sync_file<F: Folder>(
    folder: &mut F,
    slot: Slot,
    are_names_synced: bool,
) -> Result<(), FolderFault>
    requires kept { F.honest → (F.view folder.old).has_lost ≡ false }
    requires there { F.honest → is_some ((F.view folder.old).seen (file_name slot)) ≡ true }
    requires names { are_names_synced ≡ true → F.honest → AreNamesSynced (F.view folder.old) }
    ensures synced { F.honest → OnOk result (IsSynced (disk_of (F.view folder.new)) slot) }
    ensures seen { F.honest → (disk_of (F.view folder.new)).seen ≡ (disk_of (F.view folder.old)).seen }
    ensures time { F.honest → Passes (disk_of (F.view folder.old)) (disk_of (F.view folder.new))
        (MayLeave (disk_of (F.view folder.old))) }
    ensures kept { F.honest → OnOk result ((F.view folder.new).has_lost ≡ false) }
    ensures names { F.honest → OnOk result (AreNamesSynced (F.view folder.new)) }
    ensures still { are_names_synced ≡ true → F.honest → AreNamesSynced (F.view folder.new) }
{
    folder.sync(slot.file_name())?;
    if are_names_synced {
        return Ok(());
    }
    folder.sync_names()
}

impl<F: Folder> FileDisk<F> {
    // From here on a crash may leave the store without this file, if it isn't there yet.
    fn expect_file(&mut self, slot: Slot)
        ensures folder { self.new.folder ≡ self.old.folder }
        ensures failures { self.new.failures ≡ self.old.failures }
        ensures there { F.honest → self.new.are_names_synced ≡ true
            → is_some ((F.view self.new.folder).seen (file_name slot)) ≡ true }
    {
        let is_there = self.folder.has(slot.file_name());
        self.are_names_synced = self.are_names_synced && is_there;
    }

    fn try_sync(&mut self, slot: Slot) -> Result<(), FolderFault>
        ensures synced { F.honest → OnOk result (IsSynced (disk_of (F.view self.new.folder)) slot) }
        ensures seen { F.honest → (disk_of (F.view self.new.folder)).seen ≡ (disk_of (F.view self.old.folder)).seen }
        ensures time { F.honest → Passes (disk_of (F.view self.old.folder)) (disk_of (F.view self.new.folder))
            (MayLeave (disk_of (F.view self.old.folder))) }
        ensures failures { self.new.failures ≡ self.old.failures }
    {
        if self.is_sync_lost {
            return Err(FolderFault);
        }
        if !self.folder.has(slot.file_name()) {
            return Ok(());
        }
        self.is_sync_lost = true;
        sync_file(&mut self.folder, slot, self.are_names_synced)?;
        self.is_sync_lost = false;
        self.are_names_synced = true;
        Ok(())
    }
}

impl<F: Folder> Disk for FileDisk<F> {
    ghost use Rattle.std.specs.Prelude.{refl};
    ghost use Rattle.disk.specs.Folders.{disk_of};

    ghost honest = { F.honest };

    ghost view = { λ disk. disk_of (F.view disk.folder) };

    ghost failed_calls = { λ disk. disk.failures };

    ghost calls = { λ disk. 0 };

    fn failures(&self) -> u64 {
        self.failures
    }

    fn length(&self, slot: Slot) -> u64 {
        self.folder.length(slot.file_name())
    }

    fn read(&mut self, slot: Slot, at: u64, buffer: &mut [u8]) -> Result<usize, DiskFault> {
        match self.folder.read(slot.file_name(), at, buffer) {
            Ok(count) => Ok(count),
            Err(_) => Err(count_failure(&mut self.failures)),
        }
    }

    fn write_at(&mut self, slot: Slot, at: u64, bytes: &[u8]) -> Result<(), DiskFault> {
        self.expect_file(slot);
        match write_file(&mut self.folder, slot, at, bytes) {
            Ok(()) => Ok(()),
            Err(_) => Err(count_failure(&mut self.failures)),
        }
    }

    fn cut(&mut self, slot: Slot, len: u64) -> Result<(), DiskFault> {
        self.expect_file(slot);
        match cut_file(&mut self.folder, slot, len) {
            Ok(()) => Ok(()),
            Err(_) => Err(count_failure(&mut self.failures)),
        }
    }

    fn sync(&mut self, slot: Slot) -> Result<(), DiskFault> {
        match self.try_sync(slot) {
            Ok(()) => Ok(()),
            Err(_) => Err(count_failure(&mut self.failures)),
        }
    }

    ghost lasts = { λ honest disk. ((F.view disk.folder).seen, F.lasts honest disk.folder, refl) };
}
