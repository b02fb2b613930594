use crate::asking::Asker;
use crate::pending::PendingFrames;
use crate::service::ServeFault;
use crate::{Inbox, Outbox};
use std::io::{Read, Write};
use wire::WireFault;

/// A connection: what comes in, the caller that makes its calls, its frames in hand, and what goes out. Nothing here
/// waits; whoever has it says when it reads, takes frames, makes a call again and answers.
///
/// Whatever steps are taken, in whatever order, and whatever they return, each keeps this (`Lives`): the bytes that were
/// read are whole frames, each of which was taken in hand in order, and an unread rest; and the bytes that are written
/// are one whole reply to each of the first of these frames, in order. A step that fails ends the conversation
/// (`Ended`). After the end no step changes anything. An input that is over ends it too, once all is answered.
#[derive(Drop)]
pub struct Conversation<S: Read, W: Write, A: Asker> {
    pub(crate) inbox: Inbox<S>,
    pub(crate) outbox: Outbox<W>,
    pub(crate) asker: A,
    pub(crate) pending: PendingFrames<A::Ticket>,

    // How the input ended, once it did.
    pub(crate) input_end: Option<Result<(), WireFault>>,

    // The fault of the step that ended it, if one did.
    pub(crate) fault: Option<ServeFault>,
}
