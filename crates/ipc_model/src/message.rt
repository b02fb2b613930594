use crate::Sequence;

/// The kinds of right that a message carries, under their names as received (`mach_msg_type_name_t`).
#[derive(Clone, Copy, Debug, PartialEq, Eq)]
pub enum RightKind {
    /// `MACH_MSG_TYPE_PORT_RECEIVE`.
    Receive = 16,
    /// `MACH_MSG_TYPE_PORT_SEND`.
    Send = 17,
    /// `MACH_MSG_TYPE_PORT_SEND_ONCE`.
    SendOnce = 18,
}

impl RightKind {
    ghost use Rattle.std.specs.Prelude.{◌≡◌, Some, IfSome};
    ghost use Rattle.ipc_model.specs.declared.message.RightKind.{RightKind};
    ghost use Rattle.ipc_model.specs.rights.Dispositions.{number_of_kind};

    /// The kind's number.
    pub fn number(self) -> u32
        ensures { result ≡ number_of_kind self }
    {
        self as u32
    }

    /// The kind with this number, if there is one.
    pub fn from_number(number: u32) -> Option<Self>
        ensures found { IfSome result (λ kind. number_of_kind kind ≡ number) }
        ensures only { (kind : RightKind) → number_of_kind kind ≡ number → result ≡ Some kind }
    {
        match number {
            16 => Some(RightKind::Receive),
            17 => Some(RightKind::Send),
            18 => Some(RightKind::SendOnce),
            _ => None,
        }
    }
}

/// What stands in the place of a port in a message.
#[derive(Clone, Copy, Debug, PartialEq, Eq)]
pub enum PortInMessage {
    /// `MACH_PORT_NULL`: no port.
    Null,
    /// `MACH_PORT_DEAD`: a port that is dead.
    Dead,
    /// The port of this serial.
    Live(u64),
}

/// A right that a message carries.
#[derive(Clone, Copy, Debug, PartialEq, Eq)]
pub struct CarriedRight {
    pub kind: RightKind,
    pub port: PortInMessage,
}

/// A message in a port's queue.
#[derive(Drop)]
pub struct Message {
    /// The right by which it was sent: a send or send-once right of the port whose queue it is in.
    pub destination: RightKind,
    /// The right for the reply, if the header names one.
    pub reply: Option<CarriedRight>,
    /// The message id.
    pub id: u32,
    /// Whether the body has an item with ports (`MACH_MSGH_BITS_COMPLEX`).
    pub complex: bool,
    /// The rights of the body's ports, in their order.
    pub rights: Sequence<CarriedRight>,
    /// The body's bytes. Descriptors of ports have the types as received, and 0 stands in place of each port.
    pub body: Sequence<u8>,
}
