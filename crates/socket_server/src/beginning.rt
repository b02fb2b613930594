ghost use Rattle.std.specs.Prelude.{◌≡◌, IfErr, IfOk};
ghost use Rattle.socket_server.specs.Serving.{BeginsNew};

use crate::connected::Connected;
use disk::Disk;
use frame_service::{Conversation, Inbox, Outbox, PendingFrames};
use sessions::{Admission, Founding, Peer, Seat, Shared, Worker};
use std::alloc::{AllocGlobal, Global};
use std::io::{Read, Write};
use std::sync::{Arc, Wait};

/// The conversation of a connection among others: of one session, with a task that is this peer.
pub type Talk<'a, L, D, G, R, P, S, W> = Conversation<S, W, Connected<'a, L, D, G, R, P>>;

/// Begins to serve a connection, as one new session, by this admission, of a shared store: of a task that is attached to
/// space 1. Its calls wait for turns that this worker takes. All calls of the session are those of the frames that the
/// conversation takes, and all that is written are their replies, in their order (`Conversation`).
///
/// If no session or memory is left for it, the two streams come back as they were.
pub fn begin<
    'a,
    L: Founding,
    D: Disk,
    G: Drop,
    R: Wait + AllocGlobal,
    P: Peer,
    S: Read + Drop,
    W: Write + Drop,
>(
    rt: &'a R,
    shared: &'a Shared<L, D, G>,
    admission: Admission<L>,
    worker: Arc<Worker, Global>,
    peer: P,
    reader: S,
    writer: W,
) -> Result<Talk<'a, L, D, G, R, P, S, W>, (S, W)>
    ensures begins { IfOk result (λ talk. BeginsNew S.remaining W.contents L.base reader writer talk) }
    ensures back { IfErr result (λ back. back ≡ (reader, writer)) }
{
    let alloc = rt.alloc();
    let Ok(pending) = PendingFrames::new(alloc) else {
        return Err((reader, writer));
    };
    let Ok(session) = shared.session(rt, admission) else {
        return Err((reader, writer));
    };
    let seat = Seat::new(worker, peer);
    let asker = Connected::new(alloc, rt, shared, seat, session);
    let inbox = Inbox::new(alloc, reader);
    let outbox = Outbox::new(alloc, writer);
    Ok(Conversation::new(inbox, outbox, asker, pending))
}
