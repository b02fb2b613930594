use crate::Notice;
use ipc_model::RightKind;

/// A pending effect of a call.
#[derive(Clone, Copy)]
pub enum Effect {
    /// A right to the port with this serial was released: it is in no place any more.
    Release { kind: RightKind, port: u64 },
    /// A notice is sent by a send-once right to the port with this serial.
    Notify { target: u64, notice: Notice },
}
