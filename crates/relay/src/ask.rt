ghost use Rattle.std.specs.Prelude.{◌≡◌, length, option_map};
ghost use Rattle.std.specs.Io.Buffered.{writer_buffer, writer_contents};
ghost use Rattle.relay.specs.Ending.{EndsClient, line_of, status_of};
ghost use Rattle.relay.specs.Relaying.{side};
ghost use Rattle.wire.specs.Writing.{AppendsPart};

use crate::{RelayEnd, relay};
use std::alloc::Global;
use std::io::{BufReader, BufWriter, Read, Write};
use std::net::Net;
use std::os::unix::net::UnixStream;
use wire::WireFault;

/// Runs the client with its arguments, or `None` if they can't be read as text, its input, its output and its error
/// stream. Returns the exit status.
///
/// The argument is the socket of the peer. 0: the input was relayed to its end. 1: a fault, or the socket couldn't be
/// connected to, with an error message. 2: there isn't exactly one argument or the arguments can't be read, with an
/// error message.
pub fn run_client<N: Net, I: Read, O: Write + Drop, E: Write>(
    alloc: Global,
    net: &N,
    words: Option<&[String]>,
    input: &mut I,
    output: &mut BufWriter<O>,
    errors: &mut E,
) -> u8
    // The status and the error message are those of the outcome. A failed writer of errors has a prefix of the message.
    ensures ended { (end : RelayEnd) × (result ≡ status_of end)
        × AppendsPart (E.contents errors.old) (E.contents errors.new) (line_of end)
        × EndsClient (side (I.remaining input.old) (writer_contents O.contents output.old) (writer_buffer output.old))
        (side (I.remaining input.new) (writer_contents O.contents output.new) (writer_buffer output.new))
        (option_map (λ texts. length texts.now) words.entry) end }
{
    let end = ask_peer(alloc, net, words, input, output);
    let _ = end.tell(errors);
    end.status()
}

/// Does everything that `run_client` does, except for the error message.
pub fn ask_peer<N: Net, I: Read, O: Write + Drop>(
    alloc: Global,
    net: &N,
    words: Option<&[String]>,
    input: &mut I,
    output: &mut BufWriter<O>,
) -> RelayEnd
    ensures ended { EndsClient (side (I.remaining input.old) (writer_contents O.contents output.old)
        (writer_buffer output.old))
        (side (I.remaining input.new) (writer_contents O.contents output.new) (writer_buffer output.new))
        (option_map (λ texts. length texts.now) words.entry) result }
{
    let Some([socket]) = words else {
        return RelayEnd::CommandLine;
    };
    let Ok(peer) = UnixStream::connect(net, socket.as_str()) else {
        return RelayEnd::Socket;
    };
    let (Ok(mut replies), Ok(mut requests)) = (
        BufReader::new(alloc, &peer),
        BufWriter::new(alloc, &peer),
    ) else {
        return RelayEnd::Fault(WireFault::NoMemory);
    };
    match relay(alloc, input, output, &mut replies, &mut requests) {
        Ok(()) => RelayEnd::Relayed,
        Err(fault) => RelayEnd::Fault(fault),
    }
}
