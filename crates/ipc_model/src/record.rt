use crate::{Call, Reply};

/// A call that changed the state, as the journal keeps it: the caller's space, the call and its reply.
#[derive(Drop)]
pub struct Record {
    /// The number of the caller's space.
    pub space: u32,
    pub call: Call,
    pub reply: Reply,
}
