// The program `machcp`, which copies a store.
ghost use Rattle.std.specs.Prelude.{◌≡◌, ◌⊎◌, ℕ, List, ◌++◌, codes, map, option_map, IfErr, OnErr, OnOk};
ghost use Rattle.std.specs.Io.KnownBytes.{Appends};
ghost use Rattle.std.specs.String.{string_bytes};
ghost use Rattle.inspect.specs.Copied.{CopiesFolder, CopiesInto, EndsForWords, IsPartOf, copy_line_of, copy_status_of, copy_words_of};
ghost use Rattle.wire.specs.Writing.{AppendsPart};

use crate::copying::{CopyStoreFault, copy};
use crate::program::write_line;
use disk::{Disk, FileDisk, HostFolder};
use std::alloc::Global;
use std::fs::{self, File, OpenFile};
use std::io::{self, ErrorKind, Write};
use std::path::Path;
use std::rt::Files;
use store_fault::StoreFault;
use wire::WireFault;

/// The outcome of a run of `machcp`.
#[derive(Clone, Copy, Debug, PartialEq, Eq)]
pub enum CopyEnd {
    /// The store was copied.
    Copied,
    /// There aren't exactly two arguments, or they can't be read.
    CommandLine,
    /// The store can't be copied.
    Fault(CopyStoreFault),
}

impl CopyEnd {
    /// Returns the exit status: 0 without a fault, 1 after a fault, 2 if there aren't exactly two arguments or they
    /// can't be read.
    pub fn status(self) -> u8
        ensures { result ≡ copy_status_of self }
    {
        match self {
            CopyEnd::Copied => 0,
            CopyEnd::Fault(_) => 1,
            CopyEnd::CommandLine => 2,
        }
    }

    /// Returns the error message after the program's name, or the empty string if the store was copied.
    pub fn words(self) -> &'static str
        ensures { result.now ≡ copy_words_of self }
    {
        match self {
            CopyEnd::Copied => "",
            CopyEnd::CommandLine => "command line\n",
            CopyEnd::Fault(CopyStoreFault::Store(fault)) => fault.line(),
            CopyEnd::Fault(CopyStoreFault::Busy) => "store busy\n",
            CopyEnd::Fault(CopyStoreFault::Exists) => "copy exists\n",
            CopyEnd::Fault(CopyStoreFault::Write) => "copy not written\n",
        }
    }

    /// Writes the error message, if there is one. `Device`: the writer failed, and a prefix of the message may have
    /// been written.
    pub fn tell<E: Write>(self, errors: &mut E) -> Result<(), WireFault>
        ensures ok { OnOk result (Appends (E.contents errors.old) (E.contents errors.new) (copy_line_of self)) }
        ensures part { OnErr result (AppendsPart (E.contents errors.old) (E.contents errors.new) (copy_line_of self)) }
        ensures err { IfErr result (λ fault. fault ≡ WireFault.Device) }
    {
        match self {
            CopyEnd::Copied => Ok(()),
            CopyEnd::CommandLine => write_line(errors, "machcp: ", self.words()),
            CopyEnd::Fault(_) => write_line(errors, "machcp: ", self.words()),
        }
    }
}

/// Runs `machcp` with its arguments, or `None` if they can't be read as text, and its error stream. Returns the exit
/// status.
///
/// The first argument is the store's folder, whose files are opened only for reading. The second one is the folder of
/// the copy, which must not exist. 0: the copy was made, and is durable. 1: a fault, with an error message. 2: there
/// aren't exactly two arguments or they can't be read, with an error message.
pub fn copy_store<'a, F: Files, E: Write>(
    alloc: Global,
    files: &'a F,
    words: Option<&[String]>,
    errors: &mut E,
) -> u8
    ensures ended { (end : CopyEnd) × (result ≡ copy_status_of end)
        × AppendsPart (E.contents errors.old) (E.contents errors.new) (copy_line_of end)
        × EndsForWords ⟦<FileDisk<HostFolder<&'a F>> as Disk>⟧.honest ⟦<FileDisk<HostFolder<&'a F>> as Disk>⟧.view
        (λ disk. string_bytes disk.folder.path) (option_map (λ texts. map string_bytes texts.now) words.entry) end }
{
    let end = run_copy(alloc, files, words);
    let _ = end.tell(errors);
    end.status()
}

/// Does everything that `copy_store` does, except for the error message.
pub fn run_copy<'a, F: Files>(alloc: Global, files: &'a F, words: Option<&[String]>) -> CopyEnd
    ensures { EndsForWords ⟦<FileDisk<HostFolder<&'a F>> as Disk>⟧.honest ⟦<FileDisk<HostFolder<&'a F>> as Disk>⟧.view
        (λ disk. string_bytes disk.folder.path) (option_map (λ texts. map string_bytes texts.now) words.entry) result }
{
    let Some([store, copy]) = words else {
        return CopyEnd::CommandLine;
    };
    match copy_folder(alloc, files, store.as_str(), copy.as_str()) {
        Ok(()) => CopyEnd::Copied,
        Err(fault) => CopyEnd::Fault(fault),
    }
}

/// Copies the store in a folder into a new folder. The copy is made under another name, and renamed once all of it is
/// durable.
fn copy_folder<'a, F: Files>(
    alloc: Global,
    files: &'a F,
    store: &str,
    path: &str,
) -> Result<(), CopyStoreFault>
    ensures { OnOk result ((part : List ℕ) × IsPartOf path.now part
        × CopiesFolder ⟦<FileDisk<HostFolder<&'a F>> as Disk>⟧.honest ⟦<FileDisk<HostFolder<&'a F>> as Disk>⟧.view
        (λ disk. string_bytes disk.folder.path) store.now part) }
{
    let path = without_slash(path);
    let Ok(part) = format!(in alloc; "{path}.part") else {
        return Err(CopyStoreFault::Store(StoreFault::NoMemory));
    };
    copy_as(alloc, files, store, path, part.as_str())
}

/// Returns a path without the slash at its end, if there is one.
fn without_slash(path: &str) -> &str
    ensures { (result.now ≡ path.now) ⊎ (result.now ++ codes "/" ≡ path.now) }
{
    path.strip_suffix("/").unwrap_or(path)
}

/// Copies the store in a folder into a new folder, at the path `part`, and renames that to `path`.
fn copy_as<'a, F: Files>(
    alloc: Global,
    files: &'a F,
    store: &str,
    path: &str,
    part: &str,
) -> Result<(), CopyStoreFault>
    ensures { OnOk result (CopiesFolder ⟦<FileDisk<HostFolder<&'a F>> as Disk>⟧.honest
        ⟦<FileDisk<HostFolder<&'a F>> as Disk>⟧.view (λ disk. string_bytes disk.folder.path) store.now part.now) }
{
    let Ok(mut from) = FileDisk::at(alloc, files, store) else {
        return Err(CopyStoreFault::Store(StoreFault::Device));
    };
    make_folder(files, path, part)?;
    if let Err(fault) = copy_into(alloc, files, &mut from, part) {
        // The folder is empty if the store couldn't be read.
        let _ = fs::remove_dir(files, part);
        return Err(fault);
    }
    match name_copy(files, part, path) {
        Ok(()) => Ok(()),
        Err(_) => Err(CopyStoreFault::Write),
    }
}

/// Creates the folder `part`, unless it exists or `path` does.
fn make_folder<F: Files>(files: &F, path: &str, part: &str) -> Result<(), CopyStoreFault> {
    if !is_free(files, path) || !is_free(files, part) {
        return Err(CopyStoreFault::Exists);
    }
    fs::create_dir(files, part).or(Err(CopyStoreFault::Write))
}

/// Returns true if no file has this name.
fn is_free<F: Files>(files: &F, path: &str) -> bool {
    match fs::symlink_metadata(files, path) {
        Ok(_) => false,
        Err(error) => error.kind() == ErrorKind::NotFound,
    }
}

/// Copies a store into an empty folder.
fn copy_into<'a, D: Disk, F: Files>(
    alloc: Global,
    files: &'a F,
    from: &mut D,
    folder: &str,
) -> Result<(), CopyStoreFault>
    ensures { OnOk result (CopiesInto D.honest ⟦<FileDisk<HostFolder<&'a F>> as Disk>⟧.honest (D.view from.old).seen
        ⟦<FileDisk<HostFolder<&'a F>> as Disk>⟧.view (λ disk. string_bytes disk.folder.path) folder.now) }
{
    let Ok(mut to) = FileDisk::at(alloc, files, folder) else {
        return Err(CopyStoreFault::Write);
    };
    copy(alloc, from, &mut to)
}

/// Renames the folder to the name of the copy, and syncs the rename.
fn name_copy<F: Files>(files: &F, part: &str, path: &str) -> io::Result<()> {
    fs::rename(files, part, path)?;
    let parent = match Path::new(path).parent() {
        Some(parent) if parent != Path::new("") => parent,
        _ => Path::new("."),
    };
    File::open(files, parent)?.sync_all()
}
