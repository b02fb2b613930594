ghost use Rattle.std.specs.Prelude.{◌≡◌, ◌&&◌, [], false, IfOk, IfSome, IfNone, OnErr, OnOk};
ghost use Rattle.std.specs.Io.{StopsAt};
ghost use Rattle.std.specs.Io.BufRead.{strip_last};
ghost use Rattle.std.specs.Io.Buffered.{writer_buffer, writer_contents};
ghost use Rattle.std.specs.Io.KnownBytes.{Appends, Consumes};
ghost use Rattle.relay.specs.Relaying.{TakesAll, side};
ghost use Rattle.relay.specs.shell.Turns.{Does, DoesPart, Stops, TalksAll};
ghost use Rattle.wire.specs.Writing.{AppendsPart};

use crate::shell::turn::{Place, hear};
use codes::FIRST_SPACE;
use std::alloc::Global;
use std::io::{BufRead, BufWriter, ErrorKind, Read, Write};
use wire::{WireFault, write_bytes};

/// The outcome of a line.
#[derive(Clone, Copy)]
pub struct Turn {
    /// True if the line could be read, and its call got the expected reply, if one is expected.
    pub is_well: bool,
    /// The space that the task is attached to after this line.
    pub space: u32,
}

/// Reads the next line of the input, with its end if it has one, or returns `None` at the end of the input. `NoMemory`:
/// out of memory for it. `Device`: the reader failed within the line, which is lost.
fn next_line<I: BufRead>(alloc: Global, input: &mut I) -> Result<Option<Vec<u8>>, WireFault>
    ensures line { IfOk result (λ found. IfSome found
        (λ line. Consumes (I.remaining input.old) (I.remaining input.new) line.items)) }
    ensures one { IfOk result (λ found. IfSome found (λ line. StopsAt line.items 10)) }
    ensures end { IfOk result (λ found. IfNone found (TakesAll (I.remaining input.old) (I.remaining input.new))) }
{
    let mut line = Vec::new(alloc);
    match input.read_until(b'\n', &mut line) {
        Ok(0) => Ok(None),
        Ok(_) => Ok(Some(line)),
        Err(fault) => Err(read_fault(fault.kind())),
    }
}

/// Returns the fault for an error of a reader.
fn read_fault(kind: ErrorKind) -> WireFault {
    if kind == ErrorKind::OutOfMemory {
        WireFault::NoMemory
    } else {
        WireFault::Device
    }
}

/// Returns a line without its end.
fn without_end(line: &[u8]) -> &[u8]
    ensures { result.now ≡ strip_last 10 line.now }
{
    match line.split_last() {
        Some((b'\n', rest)) => rest,
        _ => line,
    }
}

/// Writes a text, and flushes it. `Device`: the writer failed, and a prefix of the text may have been written.
fn say<W: Write + Drop>(output: &mut BufWriter<W>, text: &[u8]) -> Result<(), WireFault>
    ensures ok { OnOk result (Appends (writer_contents W.contents output.old)
        (writer_contents W.contents output.new) text.now) }
    ensures flushed { OnOk result (writer_buffer output.new ≡ []) }
    ensures part { OnErr result (AppendsPart (writer_contents W.contents output.old)
        (writer_contents W.contents output.new) text.now) }
{
    write_bytes(output, text)?;
    if output.flush().is_err() {
        return Err(WireFault::Device);
    }
    Ok(())
}

/// Handles a line: makes its call, and writes and flushes what is printed for it. The faults are those of `hear`, and
/// `Device` if the output can't be written.
pub fn take_turn<O: Write + Drop, P: Read, S: Write + Drop>(
    alloc: Global,
    place: Place,
    line: &[u8],
    output: &mut BufWriter<O>,
    replies: &mut P,
    requests: &mut BufWriter<S>,
) -> Result<Turn, WireFault>
    ensures done { IfOk result
        (λ turn. Does place.number line.now
        (side (P.remaining replies.old) (writer_contents S.contents requests.old) (writer_buffer requests.old))
        (side (P.remaining replies.new) (writer_contents S.contents requests.new) (writer_buffer requests.new))
        (writer_contents O.contents output.old) (writer_contents O.contents output.new) turn.is_well) }
    ensures flushed { OnOk result (writer_buffer output.new ≡ []) }
    ensures part { OnErr result (DoesPart place.number
        (side (P.remaining replies.old) (writer_contents S.contents requests.old) (writer_buffer requests.old))
        (writer_contents O.contents output.old) (writer_contents O.contents output.new)) }
{
    let printed = hear(alloc, place, line, replies, requests)?;
    say(output, printed.text.as_slice())?;
    Ok(Turn {
        is_well: printed.is_well,
        space: printed.space,
    })
}

/// Returns true if both hold.
fn both(a: bool, b: bool) -> bool
    ensures { result ≡ (a && b) }
{
    a && b
}

/// Writes the prompt of a space, if prompts are on. A failure to write it is ignored.
fn prompt<E: Write>(alloc: Global, errors: &mut E, is_prompting: bool, space: u32)
    ensures quiet { is_prompting ≡ false → E.contents errors.new ≡ E.contents errors.old }
{
    if !is_prompting {
        return;
    }
    if let Ok(text) = format!(in alloc; "space {space}> ") {
        let _ = write_bytes(errors, text.as_bytes());
        let _ = errors.flush();
    }
}

/// Handles the lines of the input, one after another. Returns true if each could be read and got the expected reply. If
/// prompts are on, it writes a prompt with the task's space to `errors` before each line, so that the output stays a
/// script.
pub fn converse<I: BufRead, O: Write + Drop, P: Read, S: Write + Drop, E: Write>(
    alloc: Global,
    input: &mut I,
    output: &mut BufWriter<O>,
    replies: &mut P,
    requests: &mut BufWriter<S>,
    errors: &mut E,
    is_prompting: bool,
) -> Result<bool, WireFault>
    // The bytes read, sent, received and printed, line by line.
    ensures all { IfOk result
        (λ well. TalksAll (side (I.remaining input.old) (writer_contents O.contents output.old)
        (writer_buffer output.old))
        (side (P.remaining replies.old) (writer_contents S.contents requests.old) (writer_buffer requests.old))
        (side (I.remaining input.new) (writer_contents O.contents output.new) (writer_buffer output.new))
        (side (P.remaining replies.new) (writer_contents S.contents requests.new) (writer_buffer requests.new)) well) }
    ensures stops { OnErr result (Stops
        (side (I.remaining input.old) (writer_contents O.contents output.old) (writer_buffer output.old))
        (side (P.remaining replies.old) (writer_contents S.contents requests.old) (writer_buffer requests.old))
        (side (I.remaining input.new) (writer_contents O.contents output.new) (writer_buffer output.new))) }
    ensures quiet { is_prompting ≡ false → E.contents errors.new ≡ E.contents errors.old }
{
    let mut is_well = true;
    let mut space = FIRST_SPACE;
    for done in 0..u64::MAX {
        prompt(alloc, errors, is_prompting, space);
        let Some(line) = next_line(alloc, input)? else {
            return Ok(is_well);
        };
        let place = Place {
            number: done + 1,
            space,
        };
        let turn = take_turn(alloc, place, without_end(&line), output, replies, requests)?;
        is_well = both(is_well, turn.is_well);
        space = turn.space;
    }
    Err(WireFault::Device)
}
