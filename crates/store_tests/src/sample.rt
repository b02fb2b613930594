//! Ports and messages for tests.

use ipc_model::{Message, RightKind, Sequence};
use ports::Ports;
use std::alloc::Global;

/// Adds a port, if one more may be made.
pub(crate) fn add_port(ports: &mut Ports) -> Option<()> {
    if ports.is_full() || ports.next_serial() == u64::MAX {
        return None;
    }
    ports.add().ok()
}

/// Returns a message by a send right, without other rights.
pub(crate) fn empty(alloc: Global, id: u32) -> Message {
    Message {
        destination: RightKind::Send,
        reply: None,
        id,
        complex: false,
        rights: Sequence::new(Vec::new(alloc)),
        body: Sequence::new(Vec::new(alloc)),
    }
}
