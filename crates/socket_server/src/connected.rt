ghost use Rattle.std.specs.Prelude.{◌≡◌, ◌≤◌, Some, length, IfOk, IfErr, IfSome, IfNone};
ghost use Rattle.calls.specs.declared.request.Request.{Request};
ghost use Rattle.codes.specs.declared.limits.TheConstants.{MAX_FRAME_CONTENT};
ghost use Rattle.socket_server.specs.Connecting.{AcknowledgesOne, LacksOne, LooksOne, MakesOne, answer_of};
ghost use Rattle.socket_server.specs.Serving.{unconfined};
ghost use Rattle.ipc_model.specs.calls.Step.{succeeded};
ghost use Rattle.ipc_model.specs.encodings.Encodings.{reply_encoding};
ghost use Rattle.frame_service.specs.Asking.{timed_out};

use crate::asked::Asked;
use crate::held::Held;
use crate::making::{confine, make};
use calls::Request;
use disk::Disk;
use frame_service::Asker;
use ipc_model::{Call, Reply};
use sessions::{Founding, Latest, Peer, Report, Seat, Session, Shared, Turn};
use std::alloc::Global;
use std::marker::Model;
use std::sync::Wait;
use store_fault::StoreFault;

/// The caller of a connection among others: a session of a shared store.
#[derive(Drop)]
pub struct Connected<'a, L: Founding, D: Disk, G, R, P> {
    alloc: Global,
    rt: &'a R,
    shared: &'a Shared<L, D, G>,
    seat: Seat<P>,

    // `None` while a call is being made.
    session: Option<Session<L>>,

    // Where it is confined to its session's space, how many records the session had seen then.
    since: Option<u64>,

    // While it makes calls in a turn.
    turn: Option<Turn<'a, L>>,
}

impl<'a, L: Founding, D: Disk, G, R, P> Model for Connected<'a, L, D, G, R, P> {
    ghost use Rattle.std.specs.Prelude.{◌≡◌, true, is_some};
    ghost use Rattle.socket_server.specs.Connecting.{ConnectedValue, connected_code};

    ghost Value = { ConnectedValue };

    ghost coded = { connected_code };

    ghost view = { λ c. record { session = c.session; since = c.since } };

    ghost invariant = { λ c. is_some c.session ≡ true };
}

impl<'a, L: Founding, D: Disk, G, R, P> Connected<'a, L, D, G, R, P> {
    /// The caller of this session, whose calls wait at this seat, and whose task is at the other end of this
    /// connection.
    pub fn new(
        alloc: Global,
        rt: &'a R,
        shared: &'a Shared<L, D, G>,
        seat: Seat<P>,
        session: Session<L>,
    ) -> Self
        ensures { result ≡ unconfined session }
    {
        Connected {
            alloc,
            rt,
            shared,
            seat,
            session: Some(session),
            since: None,
            turn: None,
        }
    }

    /// The task.
    pub fn peer(&self) -> &P {
        self.seat.peer()
    }

    /// The number of its session.
    pub fn number(&self) -> u32
        ensures { IfSome self.now.session (λ session. result ≡ session.number) }
    {
        match &self.session {
            Some(session) => session.number(),
            None => unreachable!(),
        }
    }
}

impl<'a, L: Founding, D: Disk, G: Drop, R: Wait, P> Connected<'a, L, D, G, R, P> {
    /// Takes the turn in which the next call is made. If none is held, or the next call has to wait for an epoch, which
    /// doesn't begin while the lock is held, a new one begins.
    fn take_turn(&mut self) -> Turn<'a, L>
        ensures { self.new ≡ self.old }
    {
        if let Some(turn) = self.turn.take() {
            if !turn.awaits_epoch() {
                return turn;
            }
            self.shared.end_turn(turn);
        }
        self.shared.begin_turn(self.rt)
    }
}

impl<'a, L: Founding, D: Disk, G: Drop, R: Wait, P: Peer> Asker for Connected<'a, L, D, G, R, P> {
    type Ticket = Asked;

    type Turn = Held<'a, L, D, G, R>;

    type Known = Report<L>;

    type Latest = Latest<L>;

    ghost answer = { answer_of };

    ghost makes = { MakesOne L.base };

    ghost lacks = { LacksOne L.base };

    ghost acknowledges = { AcknowledgesOne L.base };

    ghost fails = { λ old asked fault new. new ≡ old };

    ghost looks = { LooksOne L.base };

    /// Makes a call of its session. Where it is confined, a session whose space was destroyed is detached first, and an
    /// attach isn't made: it only asks whether its own space is there.
    fn submit(&mut self, call: &Call, may_wait: bool) -> Option<Asked>
        ensures makes { IfSome result (λ asked. MakesOne L.base self.old (Request.One call.now) asked self.new) }
        ensures lacks { IfNone result (LacksOne L.base self.old (Request.One call.now) self.new) }
    {
        let mut turn = self.take_turn();
        let Some(session) = self.session.take() else {
            unreachable!()
        };
        let (session, made) = make(&mut turn, &self.seat, self.since, session, call, may_wait);
        self.session = Some(session);
        self.turn = Some(turn);
        made
    }

    /// Confines its session to the space that it is in, where that is there.
    fn confine(&mut self) -> Option<Asked>
        ensures makes { IfSome result (λ asked. MakesOne L.base self.old Request.Confine asked self.new) }
        ensures lacks { IfNone result (LacksOne L.base self.old Request.Confine self.new) }
    {
        let mut turn = self.take_turn();
        let Some(session) = self.session.take() else {
            unreachable!()
        };
        let (session, since, made) = confine(&mut turn, &self.seat, self.since, session);
        self.session = Some(session);
        self.since = since;
        self.turn = Some(turn);
        made
    }

    fn join_turn(&mut self, turn: Held<'a, L, D, G, R>)
        ensures { self.new ≡ self.old }
    {
        let Held {
            rt: _,
            shared: _,
            turn,
        } = turn;
        self.turn = Some(turn);
    }

    fn leave_turn(&mut self) -> Option<Held<'a, L, D, G, R>>
        ensures { self.new ≡ self.old }
    {
        let Some(turn) = self.turn.take() else {
            return None;
        };
        Some(Held {
            rt: self.rt,
            shared: self.shared,
            turn,
        })
    }

    fn is_done(&self, asked: &Asked) -> bool
        ensures { result ≡ succeeded (answer_of asked.now) }
    {
        asked.is_done()
    }

    fn is_timed_out(&self, asked: &Asked) -> bool
        ensures { result ≡ timed_out (answer_of asked.now) }
    {
        asked.is_timed_out()
    }

    fn is_due(&self, asked: &Asked, report: &Report<L>) -> bool {
        report.covers(asked.seen())
    }

    /// Returns the reply that the ticket keeps. It doesn't wait: a ticket that the report doesn't cover (`is_due`) gives
    /// a fault.
    fn redeem(&mut self, asked: Asked, report: &mut Report<L>) -> Result<Reply, StoreFault>
        ensures reply { IfOk result (λ reply. reply ≡ answer_of asked) }
        ensures acknowledges { IfOk result (λ reply. AcknowledgesOne L.base self.old asked self.new) }
        ensures fits { IfOk result (λ reply. length (reply_encoding reply) ≤ MAX_FRAME_CONTENT) }
        ensures fails { IfErr result (λ fault. self.new ≡ self.old) }
    {
        let Some(session) = self.session.take() else {
            unreachable!()
        };
        let (ticket, shown) = asked.into_parts();
        let (session, acknowledged) = self
            .shared
            .redeem_reported(self.rt, session, ticket, report);
        self.session = Some(session);
        match acknowledged {
            Ok(reply) => Ok(shown.reply(self.alloc, reply)),
            Err(fault) => Err(fault),
        }
    }

    /// Moves its session on to the entry block of `latest`. A session that has seen more stays as it was.
    fn look(&mut self, latest: &mut Latest<L>)
        ensures { LooksOne L.base self.old self.new }
    {
        let Some(session) = &mut self.session else {
            unreachable!()
        };
        // A fault leaves the session as it was: it learns this with its next call.
        let _ = session.catch_up(latest);
    }
}
