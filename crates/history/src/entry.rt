ghost use Rattle.std.specs.Prelude.{◌≡◌, IfOk};

use crate::copies::copy_record;
use ipc_model::{Call, Record, Reply};
use std::alloc::{AllocError, Global};

/// A record of the history, with the number of the session that made it.
#[derive(Drop)]
pub struct Entry {
    pub session: u32,
    pub record: Record,
}

impl Entry {
    /// The entry of a session's call with this reply, for which both are copied.
    pub fn new(
        alloc: Global,
        session: u32,
        space: u32,
        call: &Call,
        reply: &Reply,
    ) -> Result<Self, AllocError>
        ensures { IfOk result (λ entry. entry ≡ record {
          session = session;
          «record» = record { space = space; call = call.now; reply = reply.now };
        }) }
    {
        let record = copy_record(alloc, space, call, reply)?;
        Ok(Entry { session, record })
    }
}
