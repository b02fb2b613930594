ghost use Rattle.std.specs.Prelude.{◌≡◌};
ghost use Rattle.ipc_model.specs.state.Ipc.{request_bit};

use codes::Right;

/// The bit of a dead-name request in a name's type (`MACH_PORT_TYPE_DNREQUEST`).
const REQUEST_BIT: u32 = 1 << 31;

/// The rights that a name holds to one port: the receive right, send rights, or both.
#[derive(Clone, Copy, Debug, PartialEq, Eq)]
pub struct PortRights {
    /// The port's serial number.
    pub port: u64,
    /// Whether the receive right is held.
    pub receive: bool,
    /// User references of the send right, 0 for none.
    pub send: u32,
    /// The port of the dead-name request's target, if there is a request.
    pub dead_name_target: Option<u64>,
}

/// What a name of a space stands for.
#[derive(Clone, Copy, Debug, PartialEq, Eq)]
pub enum Entry {
    /// Send and receive rights of a port.
    Port(PortRights),
    /// A send-once right of a port.
    SendOnce {
        port: u64,
        dead_name_target: Option<u64>,
    },
    /// A port set.
    Set,
    /// A dead name with its user references.
    Dead {
        references: u32,
    },
}

impl Entry {
    ghost use Rattle.std.specs.Prelude.{◌≡◌};
    ghost use Rattle.ipc_model.specs.state.Ipc.{type_of};

    /// The name's type: a bit for each right that it holds, and one for a dead-name request (`mach_port_type`).
    pub fn type_bits(&self) -> u32
        ensures { result ≡ type_of self.now }
    {
        match self {
            Entry::Port(rights) => {
                let send = if rights.send == 0 {
                    0
                } else {
                    Right::Send.type_bit()
                };
                let receive = if rights.receive {
                    Right::Receive.type_bit()
                } else {
                    0
                };
                send + receive + request_bit(rights.dead_name_target)
            }
            Entry::SendOnce {
                dead_name_target,
                ..
            } => { Right::SendOnce.type_bit() + request_bit(*dead_name_target) }
            Entry::Set => Right::PortSet.type_bit(),
            Entry::Dead { .. } => Right::DeadName.type_bit(),
        }
    }
}

fn request_bit(target: Option<u64>) -> u32
    ensures { result ≡ request_bit target }
{
    match target {
        Some(_) => REQUEST_BIT,
        None => 0,
    }
}
