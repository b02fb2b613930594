ghost use Rattle.std.specs.Prelude.{◌≡◌, ◌++◌, codes, IfErr, OnErr, OnOk};
ghost use Rattle.std.specs.Io.KnownBytes.{Appends};
ghost use Rattle.relay.specs.Ending.{line_of, status_of, words_of};
ghost use Rattle.wire.specs.Writing.{AppendsPart};

use std::io::Write;
use wire::{WireFault, write_bytes};

/// The outcome of a run of the client.
#[derive(Clone, Copy, Debug, PartialEq, Eq)]
pub enum RelayEnd {
    /// The input was relayed to its end.
    Relayed,
    /// There isn't exactly one argument, or the arguments can't be read.
    CommandLine,
    /// The peer's socket couldn't be connected to.
    Socket,
    /// A stream failed.
    Fault(WireFault),
}

impl RelayEnd {
    /// Returns the exit status: 0 without a fault, 1 after a fault or without a peer, 2 if there isn't exactly one
    /// argument or the arguments can't be read.
    pub fn status(self) -> u8
        ensures { result ≡ status_of self }
    {
        match self {
            RelayEnd::Relayed => 0,
            RelayEnd::Socket | RelayEnd::Fault(_) => 1,
            RelayEnd::CommandLine => 2,
        }
    }

    /// Returns the error message after the program's name, or the empty string if the input was relayed to its end.
    pub fn words(self) -> &'static str
        ensures { result.now ≡ words_of self }
    {
        match self {
            RelayEnd::Relayed => "",
            RelayEnd::CommandLine => "command line\n",
            RelayEnd::Socket => "socket\n",
            RelayEnd::Fault(fault) => fault.line(),
        }
    }

    /// Writes the error message, if there is one. `Device`: the writer failed, and a prefix of the message may have
    /// been written.
    pub fn tell<E: Write>(self, errors: &mut E) -> Result<(), WireFault>
        ensures ok { OnOk result (Appends (E.contents errors.old) (E.contents errors.new) (line_of self)) }
        ensures part { OnErr result (AppendsPart (E.contents errors.old) (E.contents errors.new) (line_of self)) }
        ensures err { IfErr result (λ fault. fault ≡ WireFault.Device) }
    {
        match self {
            RelayEnd::Relayed => Ok(()),
            RelayEnd::CommandLine => write_line(errors, self.words()),
            RelayEnd::Socket => write_line(errors, self.words()),
            RelayEnd::Fault(_) => write_line(errors, self.words()),
        }
    }
}

/// Writes the program's name, then these words.
fn write_line<E: Write>(errors: &mut E, words: &str) -> Result<(), WireFault>
    ensures ok { OnOk result (Appends (E.contents errors.old) (E.contents errors.new) (codes "machc: " ++ words.now)) }
    ensures part { OnErr result (AppendsPart (E.contents errors.old) (E.contents errors.new)
        (codes "machc: " ++ words.now)) }
    ensures err { IfErr result (λ fault. fault ≡ WireFault.Device) }
{
    write_bytes(errors, b"machc: ")?;
    write_bytes(errors, words.as_bytes())
}
