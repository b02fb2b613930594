use ipc_model::RightKind;

/// The place of a right.
#[derive(Clone, Copy)]
pub(crate) enum Standing {
    /// A name of a space.
    Held { space: u32, name: u32 },
    /// A message in this port's queue.
    Queued { queue: u64 },
    /// The target of a name's dead-name request.
    DeadNameRequest { space: u32, name: u32 },
    /// The target of this port's no-senders request.
    NoSendersRequest { port: u64 },
    /// The target of this port's port-destroyed request.
    PortDestroyedRequest { port: u64 },
}

/// A right to a port, and its place.
#[derive(Clone, Copy)]
pub(crate) struct StandingRight {
    pub(crate) kind: RightKind,
    /// The port's serial.
    pub(crate) port: u64,
    pub(crate) standing: Standing,
    /// The references of the name that holds the right, or 0 in other places.
    pub(crate) references: u32,
}
