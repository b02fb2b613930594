// A folder of files as a disk sees it: what a read returns, and what a crash may leave.
ghost use Rattle.std.specs.Prelude.{◌≡◌, ◌-◌, ◌≤◌, ◌++◌, [], None, ℕ, List, true, false, is_some, length, take, drop, min, IfOk, OnOk};
ghost use Rattle.disk.specs.Folders.{AreNamesSynced, AreSame, FilesCreate, FilesFollow, Files, FilesMayLeave, FilesPass, FolderView, HasWritten, HaveSameNames, IsFileSynced, OnlyReads, bytes_of};
ghost use Rattle.disk.specs.Slots.{TornCut, TornWrite, written_at};

/// A call on a file or its folder failed. How much of its work it did isn't known.
#[derive(Clone, Copy, Debug, PartialEq, Eq)]
pub struct FolderFault;

/// The files of a folder, on a machine that may crash at any moment. What is said of contents has the premise `honest`.
pub trait Folder {
    /// The premise that the machine keeps files as the clauses say.
    ghost honest: { Type 0 };

    /// The folder over time.
    ghost view: { Self → FolderView };

    /// Returns whether there is a file of this name.
    fn has(&self, name: &str) -> bool
        ensures { honest → result ≡ is_some ((view self.now).seen name.now) };

    /// The length of a file in bytes; 0 where there is none.
    fn length(&self, name: &str) -> u64
        ensures { honest → result ≡ length (bytes_of (view self.now).seen name.now) };

    /// Reads from `at` on into the buffer, and returns how many bytes came: less than the buffer has room for only at
    /// the file's end, and none where there is no file.
    fn read(&mut self, name: &str, at: u64, buffer: &mut [u8]) -> Result<usize, FolderFault>
        ensures count { honest → IfOk result
            (λ n. n ≡ min (length buffer.old) (length (bytes_of (view self.old).seen name.now) - at)) }
        ensures within { IfOk result (λ n. n ≤ length buffer.old) }
        ensures bytes { honest → IfOk result
            (λ n. buffer.new ≡ take n (drop at (bytes_of (view self.old).seen name.now)) ++ drop n buffer.old) }
        ensures reads { honest → OnlyReads (view self.old) (view self.new) };

    /// Makes an empty file. Until the names are synced, a crash may leave the folder without it.
    fn create(&mut self, name: &str) -> Result<(), FolderFault>
        requires { honest → (view self.old).seen name.now ≡ None }
        ensures created { honest → OnOk result (HasWritten (view self.old).seen name.now [] (view self.new).seen) }
        ensures time { honest → FilesPass (view self.old) (view self.new) (FilesCreate (view self.old) name.now) }
        ensures has_lost { honest → (view self.new).has_lost ≡ (view self.old).has_lost };

    /// Writes over the bytes from `at` on, and past the end. Until the file is synced, a crash may leave any bytes in
    /// that range.
    fn write_at(&mut self, name: &str, at: u64, bytes: &[u8]) -> Result<(), FolderFault>
        requires { honest → (is_some ((view self.old).seen name.now) ≡ true)
            × (at ≤ length (bytes_of (view self.old).seen name.now)) }
        ensures written { honest → OnOk result (HasWritten (view self.old).seen name.now
            (written_at (bytes_of (view self.old).seen name.now) at bytes.now) (view self.new).seen) }
        ensures names { honest → HaveSameNames (view self.new).seen (view self.old).seen }
        ensures time { honest → FilesPass (view self.old) (view self.new)
            (FilesFollow (view self.old) name.now (TornWrite at (length bytes.now))) }
        ensures has_lost { honest → (view self.new).has_lost ≡ (view self.old).has_lost };

    /// Truncates a file to a length.
    fn cut(&mut self, name: &str, len: u64) -> Result<(), FolderFault>
        requires { honest → (is_some ((view self.old).seen name.now) ≡ true)
            × (len ≤ length (bytes_of (view self.old).seen name.now)) }
        ensures cut { honest → OnOk result (HasWritten (view self.old).seen name.now
            (take len (bytes_of (view self.old).seen name.now)) (view self.new).seen) }
        ensures names { honest → HaveSameNames (view self.new).seen (view self.old).seen }
        ensures time { honest → FilesPass (view self.old) (view self.new)
            (FilesFollow (view self.old) name.now (TornCut len)) }
        ensures has_lost { honest → (view self.new).has_lost ≡ (view self.old).has_lost };

    /// Once this is done, a crash leaves of this file what a read returns, if it leaves the file. That isn't so after a
    /// sync that failed, since the system may have dropped what it could not write.
    fn sync(&mut self, name: &str) -> Result<(), FolderFault>
        ensures synced { honest → (view self.old).has_lost ≡ false
            → OnOk result (IsFileSynced (view self.new) name.now) }
        ensures seen { honest → AreSame (view self.new).seen (view self.old).seen }
        ensures time { honest → FilesPass (view self.old) (view self.new) (FilesMayLeave (view self.old)) }
        ensures has_lost { honest → OnOk result ((view self.new).has_lost ≡ (view self.old).has_lost) };

    /// Once this is done, a crash leaves each file that is there now.
    fn sync_names(&mut self) -> Result<(), FolderFault>
        ensures synced { honest → (view self.old).has_lost ≡ false → OnOk result (AreNamesSynced (view self.new)) }
        ensures seen { honest → AreSame (view self.new).seen (view self.old).seen }
        ensures time { honest → FilesPass (view self.old) (view self.new) (FilesMayLeave (view self.old)) }
        ensures has_lost { honest → OnOk result ((view self.new).has_lost ≡ (view self.old).has_lost) };

    /// A crash may leave what is there now.
    ghost lasts: { honest → (folder : Self) → FilesMayLeave (view folder) (view folder).seen };

    /// A crash leaves no file that isn't there now.
    ghost returns_none: { honest → (folder : Self) (c : Files) → FilesMayLeave (view folder) c → (name : List ℕ)
        → (view folder).seen name ≡ None → c name ≡ None };
}
