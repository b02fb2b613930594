use crate::{Message, Sequence};

/// What a live port has besides its rights.
#[derive(Drop)]
pub struct PortState {
    /// How many messages its queue holds at most, for sends that the limit applies to.
    pub limit: u32,
    /// The sequence number that the next message received from it gets.
    pub sequence_number: u32,
    /// How many send rights were made from its receive right (the make-send count).
    pub make_send_count: u32,
    /// The name of the port set that it is a member of, in the space that holds its receive right.
    pub set: Option<u32>,
    /// The messages in its queue, oldest first.
    pub messages: Sequence<Message>,
    /// The port of the no-senders request's target, if there is a request.
    pub no_senders_target: Option<u64>,
    /// The port of the port-destroyed request's target, if there is a request.
    pub port_destroyed_target: Option<u64>,
}
