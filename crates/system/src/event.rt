use ipc_model::{Call, Reply};
use store_fault::StoreFault;

/// What can happen to the core.
#[derive(Drop)]
pub enum Event {
    /// A task of this space makes a call.
    Submit { space: u32, call: Call },
    /// Records that wait are taken as a batch.
    Take,
    /// The batch is stored.
    Append,
    /// The oldest receipt is delivered: of a batch that was stored, or of an image that was finished.
    Durable,
    /// The reply that a ticket keeps is asked for.
    Reply { ticket: u64 },
    /// The next epoch begins, with a snapshot of the state, and a checkpoint with it.
    Cut,
    /// The slot of the next segment is closed.
    RollClose,
    /// The next segment gets its header.
    RollHead,
    /// The next segment is opened.
    RollOpen,
    /// The slot of the next image is closed.
    ImageClose,
    /// The next piece of the image is written.
    Piece,
    /// The image is finished.
    Finish,
}

/// The answer to an event.
#[derive(Drop)]
pub enum Outcome {
    /// The call was made. The ticket with this number gives its reply, once all that it saw is stored.
    Ticket(u64),
    /// The ticket's reply.
    Reply(Reply),
    /// It was done.
    Done,
    /// It isn't possible now; nothing changed.
    NotNow,
    /// The epoch log takes no more records, and the call has one; nothing changed.
    EpochFull,
    /// The store failed; or it ran out of memory, and then nothing changed.
    Store(StoreFault),
    /// An allocation failed; nothing changed.
    NoMemory,
}
