ghost use Rattle.std.specs.Prelude.{◌≡◌, ◌∷◌, [], ◌++◌, Some, map, codes, option_map, IfErr, IfSome, OnErr, OnOk};
ghost use Rattle.std.specs.Io.KnownBytes.{Appends};
ghost use Rattle.std.specs.String.{string_bytes};
ghost use Rattle.server.specs.Program.{EndsAlone, IsRun, RunsInFolder, ServesFrom, line_of, status_of, words_of};
ghost use Rattle.wire.specs.Writing.{AppendsPart};

use crate::{Alone, LockFile, ServeFault, lock_folder, serve};
use disk::{Disk, FileDisk, HostFolder};
use std::alloc::Global;
use std::io::{Read, Write};
use std::rt::Files;
use store_fault::StoreFault;
use system::{Opened, open};
use wire::{WireFault, write_bytes};

/// How a run of the program for one connection ends.
#[derive(Clone, Copy, Debug, PartialEq, Eq)]
pub enum LoneEnd {
    /// The input was served to its end.
    Served,
    /// There isn't exactly one word, or the words can't be read.
    CommandLine,
    /// Another server has the store.
    InUse,
    /// The system can't lock the store's folder.
    Unlockable,
    /// The store or the connection failed.
    Fault(ServeFault),
}

impl LoneEnd {
    /// The status to end with: 0 without a fault, 1 after a fault, 2 if there isn't exactly one word or the words can't
    /// be read.
    pub fn status(self) -> u8
        ensures { result ≡ status_of self }
    {
        match self {
            LoneEnd::Served => 0,
            LoneEnd::InUse | LoneEnd::Unlockable | LoneEnd::Fault(_) => 1,
            LoneEnd::CommandLine => 2,
        }
    }

    /// What follows the program's name on the line of errors: nothing if all was served.
    pub fn words(self) -> &'static str
        ensures { result.now ≡ words_of self }
    {
        match self {
            LoneEnd::Served => "",
            LoneEnd::CommandLine => "command line\n",
            LoneEnd::InUse => "store in use\n",
            LoneEnd::Unlockable => "store can't be locked\n",
            LoneEnd::Fault(ServeFault::Wire(fault)) => fault.line(),
            LoneEnd::Fault(ServeFault::Store(fault)) => fault.line(),
        }
    }

    /// Writes the line of errors, if there is one. `Device`: the writer failed, and some first bytes of the line may
    /// have been written.
    pub fn tell<E: Write>(self, errors: &mut E) -> Result<(), WireFault>
        ensures ok { OnOk result (Appends (E.contents errors.old) (E.contents errors.new) (line_of self)) }
        ensures part { OnErr result (AppendsPart (E.contents errors.old) (E.contents errors.new) (line_of self)) }
        ensures err { IfErr result (λ fault. fault ≡ WireFault.Device) }
    {
        match self {
            LoneEnd::Served => Ok(()),
            LoneEnd::CommandLine => write_line(errors, self.words()),
            LoneEnd::InUse => write_line(errors, self.words()),
            LoneEnd::Unlockable => write_line(errors, self.words()),
            LoneEnd::Fault(_) => write_line(errors, self.words()),
        }
    }
}

/// Writes the program's name, followed by these words.
fn write_line<E: Write>(errors: &mut E, words: &str) -> Result<(), WireFault>
    ensures ok { OnOk result (Appends (E.contents errors.old) (E.contents errors.new)
        (codes "machipcd: " ++ words.now)) }
    ensures part { OnErr result (AppendsPart (E.contents errors.old) (E.contents errors.new)
        (codes "machipcd: " ++ words.now)) }
    ensures err { IfErr result (λ fault. fault ≡ WireFault.Device) }
{
    write_bytes(errors, b"machipcd: ")?;
    write_bytes(errors, words.as_bytes())
}

/// The whole program for one connection: the words of its command line, or none if they can't be read as text, its
/// input, output and errors. It returns the status to end with.
///
/// The one word is the store's folder, which is locked as long as the run lasts. 0: the input was served to its end. 1:
/// after a fault, or if another process holds the lock or it can't be taken, with a line of errors. 2: there isn't
/// exactly one word or the words can't be read, with a line of errors too.
pub fn lone<'a, F: Files, I: Read, O: Write, E: Write>(
    alloc: Global,
    files: &'a F,
    words: Option<&[String]>,
    input: &mut I,
    output: &mut O,
    errors: &mut E,
) -> u8
where
    F::File: LockFile,
    // The status and the line of errors are those of how the run ended. A writer of errors that fails has a part of the
    // line.
    ensures ended { IfSome (I.remaining input.old) (λ bytes. IfSome (O.contents output.old) (λ before.
        (end : LoneEnd) × (result ≡ status_of end) × AppendsPart (E.contents errors.old) (E.contents errors.new)
        (line_of end)
        × EndsAlone ⟦<FileDisk<HostFolder<&'a F>> as Disk>⟧.honest ⟦<FileDisk<HostFolder<&'a F>> as Disk>⟧.view bytes
        before (I.remaining input.new) (O.contents output.new) (λ disk. string_bytes disk.folder.path)
        (option_map (λ texts. map string_bytes texts.now) words.entry) end)) }
{
    let end = run_alone(alloc, files, words, input, output);
    let _ = end.tell(errors);
    end.status()
}

/// What `lone` does except for its line of errors.
pub fn run_alone<'a, F: Files, I: Read, O: Write>(
    alloc: Global,
    files: &'a F,
    words: Option<&[String]>,
    input: &mut I,
    output: &mut O,
) -> LoneEnd
where
    F::File: LockFile,
    ensures ended { IfSome (I.remaining input.old) (λ bytes. IfSome (O.contents output.old) (λ before.
        EndsAlone ⟦<FileDisk<HostFolder<&'a F>> as Disk>⟧.honest ⟦<FileDisk<HostFolder<&'a F>> as Disk>⟧.view bytes
        before (I.remaining input.new) (O.contents output.new) (λ disk. string_bytes disk.folder.path)
        (option_map (λ texts. map string_bytes texts.now) words.entry) result)) }
{
    let Some([store]) = words else {
        return LoneEnd::CommandLine;
    };
    match lock_folder(files, store.as_str()) {
        Ok(lock) => {
            let end = serve_locked(alloc, files, store.as_str(), input, output);
            drop(lock);
            end
        }
        Err(fault) => fault.lone_end(),
    }
}

/// Serves one connection on the store in a folder that is locked.
fn serve_locked<'a, F: Files, I: Read, O: Write>(
    alloc: Global,
    files: &'a F,
    folder: &str,
    input: &mut I,
    output: &mut O,
) -> LoneEnd
    ensures ended { IfSome (I.remaining input.old) (λ bytes. IfSome (O.contents output.old) (λ before.
        EndsAlone ⟦<FileDisk<HostFolder<&'a F>> as Disk>⟧.honest ⟦<FileDisk<HostFolder<&'a F>> as Disk>⟧.view bytes
        before (I.remaining input.new) (O.contents output.new) (λ disk. string_bytes disk.folder.path)
        (Some (folder.now ∷ [])) result)) }
{
    match serve_folder(alloc, files, folder, input, output) {
        Ok(()) => LoneEnd::Served,
        Err(fault) => LoneEnd::Fault(fault),
    }
}

/// Opens the store in a folder, and serves one connection on it.
fn serve_folder<'a, F: Files, I: Read, O: Write>(
    alloc: Global,
    files: &'a F,
    folder: &str,
    input: &mut I,
    output: &mut O,
) -> Result<(), ServeFault>
    ensures run { IfSome (I.remaining input.old) (λ bytes. IfSome (O.contents output.old) (λ before.
        RunsInFolder ⟦<FileDisk<HostFolder<&'a F>> as Disk>⟧.honest ⟦<FileDisk<HostFolder<&'a F>> as Disk>⟧.view bytes
        before (I.remaining input.new) (O.contents output.new) (λ disk. string_bytes disk.folder.path) folder.now result)) }
{
    let Ok(disk) = FileDisk::at(alloc, files, folder) else {
        return Err(ServeFault::Store(StoreFault::Device));
    };
    let (served, disk) = serve_disk(alloc, disk, input, output);
    drop(disk);
    served
}

/// Opens the store on a disk, and serves one connection on it: what `lone` does once it has locked the store's folder
/// and opened its files. The disk comes back.
///
/// The state is the one that the disk's slots stood for. `Store`: the store can't be opened (`recover::open` says why),
/// and then nothing is read or written; or it failed. `Wire`: the connection failed.
pub fn serve_disk<D: Disk, I: Read, O: Write>(
    alloc: Global,
    disk: D,
    input: &mut I,
    output: &mut O,
) -> (Result<(), ServeFault>, D)
    ensures run { IfSome (I.remaining input.old) (λ bytes. IfSome (O.contents output.old) (λ before.
        IsRun D.honest D.view bytes before (I.remaining input.new) (O.contents output.new) disk result.1 result.0)) }
{
    match open(alloc, disk) {
        Ok(opened) => serve_opened(alloc, opened, input, output),
        Err((fault, disk)) => (Err(ServeFault::Store(fault)), disk),
    }
}

/// Serves one connection on an opened store, and returns its disk.
fn serve_opened<D: Disk, I: Read, O: Write>(
    alloc: Global,
    opened: Opened<D>,
    input: &mut I,
    output: &mut O,
) -> (Result<(), ServeFault>, D)
    ensures run { IfSome (I.remaining input.old) (λ bytes. IfSome (O.contents output.old) (λ before.
        ServesFrom D.honest D.view bytes before (I.remaining input.new) (O.contents output.new) opened result.1
        result.0)) }
{
    let mut caller = Alone::new(alloc, opened);
    let served = serve(alloc, input, output, &mut caller);
    (served, caller.into_disk())
}
