ghost use Rattle.std.specs.Prelude.{◌≡◌, ◌≢◌, ◌∷◌, [], ℕ, Bool, List, Some, Result, codes, map, option_map, false, IfNone, IfSome};
ghost use Rattle.std.specs.Io.Buffered.{writer_buffer, writer_contents};
ghost use Rattle.std.specs.String.{string_bytes};
ghost use Rattle.relay.specs.Relaying.{side};
ghost use Rattle.relay.specs.shell.Ending.{Talks, line_of, status_of};
ghost use Rattle.relay.specs.declared.end.RelayEnd.{RelayEnd};
ghost use Rattle.wire.specs.Writing.{AppendsPart};

use crate::RelayEnd;
use crate::shell::talk::converse;
use std::alloc::Global;
use std::io::{BufRead, BufReader, BufWriter, Write};
use std::net::Net;
use std::os::unix::net::UnixStream;
use wire::WireFault;

/// Returns the socket if the arguments are `--script SOCKET`.
pub fn script_socket(words: Option<&[String]>) -> Option<&str>
    ensures found { IfSome result (λ socket. option_map (λ texts. map string_bytes texts.now) words.entry
        ≡ Some (codes "--script" ∷ socket.now ∷ [])) }
    ensures other { IfNone result ((socket : List ℕ) → option_map
        (λ texts. map string_bytes texts.now) words.entry ≢ Some (codes "--script" ∷ socket ∷ [])) }
{
    let Some([option, socket]) = words else {
        return None;
    };
    match option.as_str() {
        "--script" => Some(socket.as_str()),
        _ => None,
    }
}

/// Runs the shell on the socket of a server. Returns the exit status: 0 if all lines were read, none was wrong, and
/// each reply was the expected one; 1 if a line was wrong or a reply different; 1 with an error message after a fault,
/// or if the socket can't be connected to.
pub fn run_shell<N: Net, I: BufRead, O: Write + Drop, E: Write>(
    alloc: Global,
    net: &N,
    socket: &str,
    input: &mut I,
    output: &mut BufWriter<O>,
    errors: &mut E,
    is_prompting: bool,
) -> u8
    ensures ended { (end : Result Bool RelayEnd) × (result ≡ status_of end)
        × Talks (side (I.remaining input.old) (writer_contents O.contents output.old) (writer_buffer output.old))
        (side (I.remaining input.new) (writer_contents O.contents output.new) (writer_buffer output.new)) end
        × (is_prompting ≡ false → AppendsPart (E.contents errors.old) (E.contents errors.new) (line_of end)) }
{
    let end = talk(alloc, net, socket, input, output, errors, is_prompting);
    tell(end, errors);
    status_of(end)
}

/// Returns the exit status.
fn status_of(end: Result<bool, RelayEnd>) -> u8
    ensures { result ≡ status_of end }
{
    match end {
        Ok(true) => 0,
        Ok(false) => 1,
        Err(end) => end.status(),
    }
}

/// Writes the error message, if there is one.
fn tell<E: Write>(end: Result<bool, RelayEnd>, errors: &mut E)
    ensures { AppendsPart (E.contents errors.old) (E.contents errors.new) (line_of end) }
{
    if let Err(end) = end {
        let _ = end.tell(errors);
    }
}

/// Talks to the server at a socket.
fn talk<N: Net, I: BufRead, O: Write + Drop, E: Write>(
    alloc: Global,
    net: &N,
    socket: &str,
    input: &mut I,
    output: &mut BufWriter<O>,
    errors: &mut E,
    is_prompting: bool,
) -> Result<bool, RelayEnd>
    ensures talked { Talks (side (I.remaining input.old) (writer_contents O.contents output.old)
        (writer_buffer output.old))
        (side (I.remaining input.new) (writer_contents O.contents output.new) (writer_buffer output.new)) result }
    ensures quiet { is_prompting ≡ false → E.contents errors.new ≡ E.contents errors.old }
{
    let Ok(peer) = UnixStream::connect(net, socket) else {
        return Err(RelayEnd::Socket);
    };
    let (Ok(mut replies), Ok(mut requests)) = (
        BufReader::new(alloc, &peer),
        BufWriter::new(alloc, &peer),
    ) else {
        return Err(RelayEnd::Fault(WireFault::NoMemory));
    };
    match converse(
        alloc,
        input,
        output,
        &mut replies,
        &mut requests,
        errors,
        is_prompting,
    ) {
        Ok(is_well) => Ok(is_well),
        Err(fault) => Err(RelayEnd::Fault(fault)),
    }
}
