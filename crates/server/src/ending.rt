ghost use Rattle.std.specs.Prelude.{◌≡◌, OnOk, OnErr, IfErr};
ghost use Rattle.std.specs.Io.KnownBytes.{Appends};
ghost use Rattle.server.specs.Ending.{line_of};
ghost use Rattle.wire.specs.Writing.{AppendsPart};

use crate::{LoneEnd, ServeFault};
use std::io::Write;
use store_fault::StoreFault;
use wire::{WireFault, write_bytes};

/// How a run of the program for many connections ends.
#[derive(Clone, Copy, Debug, PartialEq, Eq)]
pub enum SocketEnd {
    /// The path can't be bound, no thread can be started for the loops, or the output can't be written.
    Socket,
    /// Another server has the store.
    InUse,
    /// The system can't lock the store's folder.
    Unlockable,
    /// The store can't be opened, or it failed.
    Store(StoreFault),
}

impl SocketEnd {
    /// Writes its line of errors. `Device`: the writer failed, and some first bytes of the line may have been written.
    pub fn tell<E: Write>(self, errors: &mut E) -> Result<(), WireFault>
        ensures ok { OnOk result (Appends (E.contents errors.old) (E.contents errors.new) (line_of self)) }
        ensures part { OnErr result (AppendsPart (E.contents errors.old) (E.contents errors.new) (line_of self)) }
        ensures err { IfErr result (λ fault. fault ≡ WireFault.Device) }
    {
        match self {
            SocketEnd::Socket => write_bytes(errors, b"machipcd: socket\n"),
            SocketEnd::InUse => LoneEnd::InUse.tell(errors),
            SocketEnd::Unlockable => LoneEnd::Unlockable.tell(errors),
            SocketEnd::Store(fault) => LoneEnd::Fault(ServeFault::Store(fault)).tell(errors),
        }
    }
}
