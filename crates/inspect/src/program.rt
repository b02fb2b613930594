ghost use Rattle.std.specs.Prelude.{◌≡◌, ◌++◌, map, codes, option_map, IfErr, OnErr, OnOk};
ghost use Rattle.std.specs.Io.KnownBytes.{Appends};
ghost use Rattle.std.specs.String.{string_bytes};
ghost use Rattle.inspect.specs.Printed.{PrintsText, drawing_of, listing_of};
ghost use Rattle.inspect.specs.Program.{IsOfDisk, Prints, line_of, status_of, words_of};
ghost use Rattle.wire.specs.Writing.{AppendsPart};

use crate::ListFault;
use crate::printing::{Drawing, Form, Lines, print};
use disk::{Disk, FileDisk, HostFolder};
use std::alloc::Global;
use std::io::Write;
use std::rt::Files;
use store_fault::StoreFault;
use wire::{WireFault, write_bytes};

/// The outcome of a run of an inspector.
#[derive(Clone, Copy, Debug, PartialEq, Eq)]
pub enum ShowEnd {
    /// The store was printed.
    Shown,
    /// There isn't exactly one argument, or the arguments can't be read.
    CommandLine,
    /// The store couldn't be read, or the output couldn't be written.
    Fault(ListFault),
}

impl ShowEnd {
    /// Returns the exit status: 0 without a fault, 1 after a fault, 2 if there isn't exactly one argument or the
    /// arguments can't be read.
    pub fn status(self) -> u8
        ensures { result ≡ status_of self }
    {
        match self {
            ShowEnd::Shown => 0,
            ShowEnd::Fault(_) => 1,
            ShowEnd::CommandLine => 2,
        }
    }

    /// Returns the error message after the program's name, or the empty string if the store was printed.
    pub fn words(self) -> &'static str
        ensures { result.now ≡ words_of self }
    {
        match self {
            ShowEnd::Shown => "",
            ShowEnd::CommandLine => "command line\n",
            ShowEnd::Fault(ListFault::Store(fault)) => fault.line(),
            ShowEnd::Fault(ListFault::Busy) => "store busy\n",
            ShowEnd::Fault(ListFault::Write) => WireFault::Device.line(),
        }
    }

    /// Writes the error message after this program name, if there is one. `Device`: the writer failed, and a prefix of
    /// the message may have been written.
    pub fn tell<E: Write>(self, name: &str, errors: &mut E) -> Result<(), WireFault>
        ensures ok { OnOk result (Appends (E.contents errors.old) (E.contents errors.new) (line_of name.now self)) }
        ensures part { OnErr result (AppendsPart (E.contents errors.old) (E.contents errors.new)
            (line_of name.now self)) }
        ensures err { IfErr result (λ fault. fault ≡ WireFault.Device) }
    {
        match self {
            ShowEnd::Shown => Ok(()),
            ShowEnd::CommandLine => write_line(errors, name, self.words()),
            ShowEnd::Fault(_) => write_line(errors, name, self.words()),
        }
    }
}

/// Writes a name, followed by words.
pub(crate) fn write_line<E: Write>(errors: &mut E, name: &str, words: &str) -> Result<(), WireFault>
    ensures ok { OnOk result (Appends (E.contents errors.old) (E.contents errors.new) (name.now ++ words.now)) }
    ensures part { OnErr result (AppendsPart (E.contents errors.old) (E.contents errors.new) (name.now ++ words.now)) }
    ensures err { IfErr result (λ fault. fault ≡ WireFault.Device) }
{
    write_bytes(errors, name.as_bytes())?;
    write_bytes(errors, words.as_bytes())
}

/// Runs `machls` with its arguments, or `None` if they can't be read as text, its output and its error stream. Returns
/// the exit status.
///
/// The argument is the store's folder; its files are opened only for reading. 0: its lines were written. 1: a fault,
/// with an error message. 2: there isn't exactly one argument or the arguments can't be read, with an error message.
pub fn show<'a, F: Files, W: Write, E: Write>(
    alloc: Global,
    files: &'a F,
    words: Option<&[String]>,
    output: &mut W,
    errors: &mut E,
) -> u8
    ensures ended { (end : ShowEnd) × (result ≡ status_of end)
        × AppendsPart (E.contents errors.old) (E.contents errors.new) (line_of (codes "machls: ") end)
        × Prints (IsOfDisk listing_of ⟦<FileDisk<HostFolder<&'a F>> as Disk>⟧.honest
        ⟦<FileDisk<HostFolder<&'a F>> as Disk>⟧.view (λ disk. string_bytes disk.folder.path))
        (option_map (λ texts. map string_bytes texts.now) words.entry)
        (W.contents output.old) (W.contents output.new) end }
{
    let end = run_show(alloc, files, words, output);
    let _ = end.tell("machls: ", errors);
    end.status()
}

/// Does everything that `show` does, except for the error message.
pub fn run_show<'a, F: Files, W: Write>(
    alloc: Global,
    files: &'a F,
    words: Option<&[String]>,
    output: &mut W,
) -> ShowEnd
    ensures ended { Prints (IsOfDisk listing_of ⟦<FileDisk<HostFolder<&'a F>> as Disk>⟧.honest
        ⟦<FileDisk<HostFolder<&'a F>> as Disk>⟧.view (λ disk. string_bytes disk.folder.path))
        (option_map (λ texts. map string_bytes texts.now) words.entry)
        (W.contents output.old) (W.contents output.new) result }
{
    run(alloc, files, words, &Lines, output)
}

/// Runs `machmap`, which is `machls` with a drawing in place of the lines.
pub fn show_drawing<'a, F: Files, W: Write, E: Write>(
    alloc: Global,
    files: &'a F,
    words: Option<&[String]>,
    output: &mut W,
    errors: &mut E,
) -> u8
    ensures ended { (end : ShowEnd) × (result ≡ status_of end)
        × AppendsPart (E.contents errors.old) (E.contents errors.new) (line_of (codes "machmap: ") end)
        × Prints (IsOfDisk drawing_of ⟦<FileDisk<HostFolder<&'a F>> as Disk>⟧.honest
        ⟦<FileDisk<HostFolder<&'a F>> as Disk>⟧.view (λ disk. string_bytes disk.folder.path))
        (option_map (λ texts. map string_bytes texts.now) words.entry)
        (W.contents output.old) (W.contents output.new) end }
{
    let end = run_drawing(alloc, files, words, output);
    let _ = end.tell("machmap: ", errors);
    end.status()
}

/// Does everything that `show_drawing` does, except for the error message.
pub fn run_drawing<'a, F: Files, W: Write>(
    alloc: Global,
    files: &'a F,
    words: Option<&[String]>,
    output: &mut W,
) -> ShowEnd
    ensures ended { Prints (IsOfDisk drawing_of ⟦<FileDisk<HostFolder<&'a F>> as Disk>⟧.honest
        ⟦<FileDisk<HostFolder<&'a F>> as Disk>⟧.view (λ disk. string_bytes disk.folder.path))
        (option_map (λ texts. map string_bytes texts.now) words.entry)
        (W.contents output.old) (W.contents output.new) result }
{
    run(alloc, files, words, &Drawing, output)
}

/// Prints the store in the folder that the one argument names.
fn run<'a, F: Files, P: Form, W: Write>(
    alloc: Global,
    files: &'a F,
    words: Option<&[String]>,
    form: &P,
    output: &mut W,
) -> ShowEnd
    ensures ended { Prints (IsOfDisk P.text_of ⟦<FileDisk<HostFolder<&'a F>> as Disk>⟧.honest
        ⟦<FileDisk<HostFolder<&'a F>> as Disk>⟧.view (λ disk. string_bytes disk.folder.path))
        (option_map (λ texts. map string_bytes texts.now) words.entry)
        (W.contents output.old) (W.contents output.new) result }
{
    let Some([store]) = words else {
        return ShowEnd::CommandLine;
    };
    match print_folder(alloc, files, store.as_str(), form, output) {
        Ok(()) => ShowEnd::Shown,
        Err(fault) => ShowEnd::Fault(fault),
    }
}

/// Prints the store in a folder.
fn print_folder<'a, F: Files, P: Form, W: Write>(
    alloc: Global,
    files: &'a F,
    folder: &str,
    form: &P,
    output: &mut W,
) -> Result<(), ListFault>
    ensures prints { PrintsText (IsOfDisk P.text_of ⟦<FileDisk<HostFolder<&'a F>> as Disk>⟧.honest
        ⟦<FileDisk<HostFolder<&'a F>> as Disk>⟧.view (λ disk. string_bytes disk.folder.path) folder.now)
        (W.contents output.old) (W.contents output.new) result }
{
    let Ok(mut disk) = FileDisk::at(alloc, files, folder) else {
        return Err(ListFault::Store(StoreFault::Device));
    };
    print(alloc, &mut disk, form, output)
}
