ghost use Rattle.std.specs.Prelude.{◌≡◌, ◌≤◌, ◌↔◌, ◌++◌, ◌∷◌, [], Some, codes, map, option_map, OnOk, OnErr};
ghost use Rattle.std.specs.Io.KnownBytes.{Appends};
ghost use Rattle.std.specs.String.{string_bytes};
ghost use Rattle.command_line.specs.About.{printed, version_lines};
ghost use Rattle.wire.specs.Writing.{AppendsPart};

use crate::one_word;
use std::io::Write;
use wire::{WireFault, write_bytes};

/// A question to a program about itself.
#[derive(Clone, Copy, Debug, PartialEq, Eq)]
pub enum Question {
    /// Its usage.
    Help,
    /// Its version, and the toolchain that it was proved with.
    Version,
}

/// Returns the question in the arguments: `--help` or `--version`, if it is the only argument. A folder with such a
/// name can be given as `./--help`.
pub fn question_in(words: Option<&[String]>) -> Option<Question>
    ensures help { (result ≡ Some Question.Help) ↔ (option_map (λ texts. map string_bytes texts.now) words.entry
        ≡ Some (codes "--help" ∷ [])) }
    ensures version { (result ≡ Some Question.Version) ↔
        (option_map (λ texts. map string_bytes texts.now) words.entry ≡ Some (codes "--version" ∷ [])) }
{
    match one_word(words)? {
        "--help" => Some(Question::Help),
        "--version" => Some(Question::Version),
        _ => None,
    }
}

/// Writes the answer of a program with this name and help, and flushes it. Returns the exit status: 0, or 1 if the
/// output couldn't be written; then a prefix may have been written.
pub fn tell_about<W: Write>(question: Question, name: &str, help: &str, output: &mut W) -> u8
    ensures ok { result ≡ 0 → Appends (W.contents output.old) (W.contents output.new)
        (printed name.now help.now question) }
    ensures part { AppendsPart (W.contents output.old) (W.contents output.new) (printed name.now help.now question) }
    ensures status { result ≤ 1 }
{
    let written = match question {
        Question::Help => send(output, help),
        Question::Version => send_version(output, name),
    };
    match written {
        Ok(()) => 0,
        Err(_) => 1,
    }
}

/// Writes a whole text, and flushes it. If the writer fails, a prefix may have been written.
fn send<W: Write>(output: &mut W, text: &str) -> Result<(), WireFault>
    ensures ok { OnOk result (Appends (W.contents output.old) (W.contents output.new) text.now) }
    ensures part { OnErr result (AppendsPart (W.contents output.old) (W.contents output.new) text.now) }
{
    write_bytes(output, text.as_bytes())?;
    if output.flush().is_err() {
        return Err(WireFault::Device);
    }
    Ok(())
}

fn send_version<W: Write>(output: &mut W, name: &str) -> Result<(), WireFault>
    ensures ok { OnOk result (Appends (W.contents output.old) (W.contents output.new) (name.now ++ version_lines)) }
    ensures part { OnErr result (AppendsPart (W.contents output.old) (W.contents output.new)
        (name.now ++ version_lines)) }
{
    write_bytes(output, name.as_bytes())?;
    send(
        output,
        " 0.1.0\nproved with Rattle logic dac8208d650f15bf\n",
    )
}
