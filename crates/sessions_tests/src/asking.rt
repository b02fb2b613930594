//! Calls of a session, and their answers.

use crate::service::Service;
use ipc_model::{Call, PlainCall, PlainReply, Reply};
use std::sync::Wait;
use system::Ticket;

/// Waits for the reply of a call, if it was made.
pub(crate) fn acknowledged<S: Service, R: Wait>(
    rt: &R,
    service: &S,
    session: S::Session,
    ticket: Option<Ticket>,
) -> (S::Session, Option<Reply>) {
    match ticket {
        Some(ticket) => service.tell(rt, session, ticket),
        None => (session, None),
    }
}

/// Makes a call, and waits for its reply. `None` if it wasn't made or the store failed.
pub(crate) fn asked<S: Service, R: Wait>(
    rt: &R,
    service: &S,
    session: S::Session,
    call: &Call,
) -> (S::Session, Option<Reply>) {
    let (session, ticket) = service.make(rt, session, call);
    acknowledged(rt, service, session, ticket)
}

/// The name that a reply gives.
pub(crate) fn name_in(reply: Option<Reply>) -> Option<u32> {
    match reply {
        Some(Reply::Plain(PlainReply::Allocate { name })) => Some(name),
        _ => None,
    }
}

/// The type bits that a reply gives.
pub(crate) fn bits_in(reply: Option<Reply>) -> Option<u32> {
    match reply {
        Some(Reply::Plain(PlainReply::Type { bits })) => Some(bits),
        _ => None,
    }
}

/// Allocates a receive right, and asks for the type of its name. Returns whether that is a receive right.
fn allocates<S: Service, R: Wait>(rt: &R, service: &S, session: S::Session) -> (S::Session, bool) {
    let (session, reply) = asked(
        rt,
        service,
        session,
        &Call::Plain(PlainCall::Allocate { right: 1 }),
    );
    let Some(name) = name_in(reply) else {
        return (session, false);
    };
    let (session, reply) = asked(rt, service, session, &Call::Plain(PlainCall::Type { name }));
    (session, bits_in(reply) == Some(0x2_0000))
}

/// Allocates `count` receive rights, and asks for the type of each. Returns how many got the expected answer.
pub(crate) fn allocates_many<S: Service, R: Wait>(
    rt: &R,
    service: &S,
    session: S::Session,
    count: u32,
) -> (S::Session, u32) {
    let mut session = session;
    let mut done = 0u32;
    for _ in 0..count {
        let (back, is_done) = allocates(rt, service, session);
        session = back;
        done = done.saturating_add(u32::from(is_done));
    }
    (session, done)
}
