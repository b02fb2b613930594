//! How the calls of a connection are made.
ghost use Rattle.std.specs.Prelude.{◌≡◌, Some, is_some, IfNone, IfSome, if◌then◌else◌};
ghost use Rattle.frame_service.specs.Confining.{attach_to, made_of, shown_for};
ghost use Rattle.frame_service.specs.declared.confining.Shown.TheVariants.{ToConfine};
ghost use Rattle.ipc_model.specs.calls.Step.{succeeded};
ghost use Rattle.ipc_model.specs.history.History.{looked};
ghost use Rattle.keepers.specs.Destroying.{MadeSince};
ghost use Rattle.keepers.specs.Tokens.{Did};

use crate::asked::Asked;
use frame_service::{Shown, attach_to, is_kept};
use ipc_model::Call;
use sessions::{Founding, Peer, Seat, Session, Turn};
use system::Ticket;

/// Makes a call of a session. If it is confined since it had seen so many records, an attach isn't made: it only asks
/// whether its own space is there.
pub(crate) fn make<L: Founding, P: Peer>(
    turn: &mut Turn<'_, L>,
    seat: &Seat<P>,
    since: Option<u64>,
    session: Session<L>,
    call: &Call,
    may_wait: bool,
) -> (Session<L>, Option<Asked>)
    ensures made { IfSome result.1 (λ asked. MadeSince L.base since session
        (made_of (is_some since) session.task.space call.now) asked.ticket result.0
        × (asked.shown ≡ shown_for (is_some since) call.now)) }
    ensures lacks { IfNone result.1 (Did L.base session looked result.0) }
{
    let shown = Shown::for_call(since.is_some(), call);
    let (session, made) = submit(turn, seat, since, session, call, may_wait);
    match made {
        Some(ticket) => (session, Some(Asked::new(ticket, shown))),
        None => (session, None),
    }
}

/// Makes a call of a session, or for an attach that is confined the one to its own space.
fn submit<L: Founding, P: Peer>(
    turn: &mut Turn<'_, L>,
    seat: &Seat<P>,
    since: Option<u64>,
    session: Session<L>,
    call: &Call,
    may_wait: bool,
) -> (Session<L>, Option<Ticket>)
    ensures made { IfSome result.1 (λ ticket. MadeSince L.base since session
        (made_of (is_some since) session.task.space call.now) ticket result.0) }
    ensures lacks { IfNone result.1 (Did L.base session looked result.0) }
{
    if is_kept(since.is_some(), call) {
        return attach_again(turn, seat, since, session);
    }
    let (session, made) = turn.submit(session, since, call, seat, may_wait);
    (session, made.ok())
}

/// Makes the attach to the space that a session is in, which asks whether that is there.
fn attach_again<L: Founding, P: Peer>(
    turn: &mut Turn<'_, L>,
    seat: &Seat<P>,
    since: Option<u64>,
    session: Session<L>,
) -> (Session<L>, Option<Ticket>)
    ensures made { IfSome result.1 (λ ticket. MadeSince L.base since session (attach_to session.task.space) ticket
        result.0) }
    ensures lacks { IfNone result.1 (Did L.base session looked result.0) }
{
    let own = attach_to(session.space());
    let (session, made) = turn.submit(session, since, &own, seat, false);
    (session, made.ok())
}

/// Confines a session to the space that it is in, if that is there. Returns how many records it had seen when it was
/// confined.
pub(crate) fn confine<L: Founding, P: Peer>(
    turn: &mut Turn<'_, L>,
    seat: &Seat<P>,
    since: Option<u64>,
    session: Session<L>,
) -> (Session<L>, Option<u64>, Option<Asked>)
    ensures made { IfSome result.2 (λ asked. MadeSince L.base since session (attach_to session.task.space) asked.ticket
        result.0 × (asked.shown ≡ ToConfine)
        × (result.1 ≡ (if succeeded asked.ticket.answer then Some result.0.task.seen else since))) }
    ensures lacks { IfNone result.2 (Did L.base session looked result.0 × (result.1 ≡ since)) }
{
    let (session, made) = attach_again(turn, seat, since, session);
    match made {
        Some(ticket) => {
            let since = since_after(session.seen() as u64, &ticket, since);
            (session, since, Some(Asked::new(ticket, Shown::ToConfine)))
        }
        None => (session, since, None),
    }
}

/// Since how many records a session is confined that has seen so many, after the attach that asked whether its space is
/// there.
fn since_after(seen: u64, ticket: &Ticket, since: Option<u64>) -> Option<u64>
    ensures { result ≡ (if succeeded ticket.now.answer then Some seen else since) }
{
    if ticket.is_success() {
        Some(seen)
    } else {
        since
    }
}
