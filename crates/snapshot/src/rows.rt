use ipc_model::{Entry, NumberedReply, PortState, Sequence};

/// A name of a space and its entry.
#[derive(Drop)]
pub struct NamedEntry {
    pub name: u32,
    pub entry: Entry,
}

/// A port space.
#[derive(Drop)]
pub struct Space {
    /// The space's number.
    pub number: u32,
    /// Its names, in ascending order.
    pub names: Sequence<NamedEntry>,
}

/// A live port.
#[derive(Drop)]
pub struct LivePort {
    /// The port's serial number.
    pub serial: u64,
    /// The port's state, including its queue.
    pub state: PortState,
}

/// An IPC state: the spaces by their numbers, the live ports by their serials.
#[derive(Drop)]
pub struct IpcSnapshot {
    /// The serial of the next port.
    pub next_serial: u64,
    /// The spaces, in ascending order of numbers.
    pub spaces: Sequence<Space>,
    /// The live ports, in ascending order of serials.
    pub ports: Sequence<LivePort>,
}

/// A state.
#[derive(Drop)]
pub struct Snapshot {
    pub ipc: IpcSnapshot,
    /// The reply that each space keeps, if any, in the order of the spaces.
    pub kept: Sequence<Option<NumberedReply>>,
}
