//! One connection, as a worker sees it.
ghost use Rattle.std.specs.Prelude.{◌≡◌, true, is_some, length};
ghost use Rattle.frame_service.specs.Conversing.{Kept, over_of};
ghost use Rattle.socket_server.specs.Closing.{IsOver};

use crate::replies::ReplyFrame;
use crate::standing::{Awaits, Failure, Progress, Standing};
use crate::{Asked, Connected, Stream};
use disk::Disk;
use frame_service::{Asker, Conversation};
use mio::{Registry, Token};
use sessions::{Founding, OpenGate, Peer};
use std::alloc::Global;
use std::collections::BTreeMap;
use std::io::{Read, Write};
use std::sync::Wait;

/// How many times a connection is read in one round, at most.
const MOST_READS: usize = 16;

/// The kernel's lock, held by a worker.
pub(crate) type Held<'a, L, D, R> = crate::Held<'a, L, D, OpenGate, R>;

/// The caller of a connection to a server.
pub(crate) type Caller<'a, L, D, R> = Connected<'a, L, D, OpenGate, R, Stream>;

/// The conversation of a caller over a socket.
pub(crate) type Talk<A> = Conversation<Stream, Stream, A>;

/// Connections by the numbers of their sessions.
pub(crate) type Clients<T> = BTreeMap<u32, Client<T>>;

/// What a worker asks of a connection's caller besides its calls. What is generic in it is proved without the types of
/// the store.
pub(crate) trait Served: Asker {
    /// Returns the number of its session.
    fn session_number(&self) -> u32;

    /// Returns its socket.
    fn stream(&self) -> &Stream;

    /// Returns how many records a ticket's reply saw.
    fn seen(ticket: &Self::Ticket) -> u64;

    /// Returns true if a session's call waits in line, or its turn has come.
    fn is_waiting(turn: &Self::Turn, session: u32) -> bool;
}

impl<'a, L: Founding, D: Disk, R: Wait> Served for Caller<'a, L, D, R> {
    fn session_number(&self) -> u32 {
        self.number()
    }

    fn stream(&self) -> &Stream {
        self.peer()
    }

    fn seen(ticket: &Asked) -> u64 {
        ticket.seen()
    }

    fn is_waiting(turn: &Held<'a, L, D, R>, session: u32) -> bool {
        turn.is_waiting(session)
    }
}

/// A connection, with what its worker knows of it: with a `Talk`.
#[derive(Drop)]
pub(crate) struct Client<T> {
    talk: T,
    pub(crate) standing: Standing,
}

impl<A: Served> Client<Talk<A>> {
    /// Creates a connection and registers it with `registry`.
    pub(crate) fn new(talk: Talk<A>, registry: &Registry) -> Self
        ensures { result.talk ≡ talk }
    {
        let mut client = Client {
            talk,
            standing: Standing::new(),
        };
        client.register(registry);
        client
    }

    /// Returns the number of its session.
    pub(crate) fn number(&self) -> u32 {
        self.talk.asker().session_number()
    }

    /// Returns its socket.
    fn stream(&self) -> &Stream {
        self.talk.asker().stream()
    }

    fn register(&mut self, registry: &Registry)
        ensures { self.new.talk ≡ self.old.talk }
    {
        let token = Token(self.number() as usize);
        if self.stream().register(registry, token).is_err() {
            self.standing.note_failure(Failure::Registration);
        }
    }

    /// Has room reported, or no longer.
    fn report_room(&mut self, registry: &Registry, awaits_room: bool)
        ensures { self.new.talk ≡ self.old.talk }
    {
        if !self.standing.note_room(awaits_room) {
            return;
        }
        let token = Token(self.number() as usize);
        if self
            .stream()
            .report_room(registry, token, awaits_room)
            .is_err()
        {
            self.standing.note_failure(Failure::Registration);
        }
    }

    /// Reads what there is.
    pub(crate) fn read(&mut self)
        ensures keeps { Kept ⟦<Stream as Read>⟧.remaining ⟦<Stream as Write>⟧.contents A.answer A.makes A.lacks
            A.acknowledges A.fails A.looks self.old.talk self.new.talk }
    {
        self.note_gone();
        for _ in 0..MOST_READS {
            if !self.standing.may_read(self.talk.ahead()) {
                return;
            }
            self.standing.note_filled(self.talk.read());
        }
    }

    /// After an event, notes whether the peer has gone while a call of it waits.
    fn note_gone(&mut self)
        ensures { self.new.talk ≡ self.old.talk }
    {
        if self.standing.take_event() && self.waits() && self.stream().is_gone() {
            self.standing.note_failure(Failure::HungUp);
        }
    }

    /// Returns true if a call of it waits.
    pub(crate) fn waits(&self) -> bool {
        self.talk.waits().is_some()
    }

    /// Returns how far its conversation has come.
    fn progress(&self) -> Progress
        ensures unsent { result.unsent ≡ length self.now.talk.outbox.bytes }
        ensures ended { result.has_ended ≡ is_some (over_of self.now.talk.fault self.now.talk.pending.frames.items
            self.now.talk.input_end) }
    {
        let awaited = match self.talk.awaited() {
            Some(ticket) => Some(A::seen(ticket)),
            None => None,
        };
        Progress {
            unsent: self.talk.unsent(),
            awaited,
            waits: self.talk.waits(),
            has_ended: self.talk.ended().is_some(),
            has_next: self.talk.has_next(),
        }
    }

    /// Returns true if there is a call to be made.
    pub(crate) fn has_work(&self) -> bool {
        self.standing.has_work(self.progress())
    }

    /// Makes the calls that can be made now, in this turn, which it gives back if it is still held.
    pub(crate) fn work(&mut self, alloc: Global, turn: A::Turn) -> Option<A::Turn>
        ensures keeps { Kept ⟦<Stream as Read>⟧.remaining ⟦<Stream as Write>⟧.contents A.answer A.makes A.lacks
            A.acknowledges A.fails A.looks self.old.talk self.new.talk }
    {
        let turn = if self.waits() {
            let may_wait = self.standing.begin_try();
            let (turn, tried) = self.talk.try_again(alloc, turn, may_wait);
            self.standing.note_tried(tried, may_wait);
            turn
        } else {
            self.talk.take(alloc, turn)
        };
        let is_in_line = match &turn {
            Some(turn) => A::is_waiting(turn, self.number()),
            None => false,
        };
        self.standing.note_line(is_in_line);
        turn
    }

    /// Answers what can be answered by this report, and gives the peer what it accepts.
    pub(crate) fn answer(
        &mut self,
        reply: &mut ReplyFrame,
        known: &mut A::Known,
        registry: &Registry,
    )
        ensures keeps { Kept ⟦<Stream as Read>⟧.remaining ⟦<Stream as Write>⟧.contents A.answer A.makes A.lacks
            A.acknowledges A.fails A.looks self.old.talk self.new.talk }
    {
        let earlier = self.talk.unsent();
        let answered = reply.answer(&mut self.talk, known);
        let before = self.talk.unsent();
        let flushed = self.talk.flush();
        if answered.is_err() || flushed.is_err() {
            self.standing.note_failure(Failure::Step);
        }
        let left = self.talk.unsent();
        self.standing
            .note_sent(earlier == 0 || left != before, left != 0);
        self.report_room(registry, left != 0);
    }

    /// Brings its session up to date with the history. It makes no call.
    pub(crate) fn look(&mut self, latest: &mut A::Latest)
        ensures keeps { Kept ⟦<Stream as Read>⟧.remaining ⟦<Stream as Write>⟧.contents A.answer A.makes A.lacks
            A.acknowledges A.fails A.looks self.old.talk self.new.talk }
    {
        self.talk.look(latest);
    }

    /// Returns what it waits for now.
    pub(crate) fn awaits(&self) -> Awaits {
        self.standing.awaits(self.progress())
    }

    /// Returns true if it may be closed: its conversation has ended and the peer accepted all output; it failed; or the
    /// peer accepted nothing for too long.
    pub(crate) fn is_over(&self) -> bool
        ensures { result ≡ true → IsOver self.now.talk self.now.standing }
    {
        match self.standing.awaits(self.progress()) {
            Awaits::End => true,
            _ => false,
        }
    }

    /// Closes a connection that is over.
    pub(crate) fn end(self)
    where
        A: Drop,
        requires { IsOver self.talk self.standing }
    {
        self.stream().close();
    }
}
