//! A thread that serves many connections, each as far as it goes without waiting.

use crate::client::{Client, Clients, Served, Talk};
use crate::context::{Context, Serves};
use crate::door::Door;
use crate::lists::{Lists, RETRY_MILLISECONDS};
use crate::replies::ReplyFrame;
use crate::timers::Timers;
use disk::Disk;
use mio::event::Events;
use mio::{Poll, Token, Waker};
use sessions::{Founding, OpenGate, Shared};
use std::alloc::{AllocGlobal, Global};
use std::collections::BTreeMap;
use std::net::Net;
use std::sync::{Arc, Wait};
use std::time::{Clock, Duration};
use std::{io, thread};

/// How many events one wait reports at most.
const MOST_EVENTS: usize = 256;

/// How many connections' calls are made under one hold of the kernel's lock, at most.
const MOST_AT_ONCE: usize = 64;

/// The token of what wakes a worker. The others are the numbers of sessions.
const WAKER: Token = Token(usize::MAX);

/// What a worker waits at, and where it encodes replies.
#[derive(Drop)]
pub(crate) struct Tools {
    poll: Poll,
    events: Events<Global>,
    timers: Timers,
    reply: ReplyFrame,
}

impl Tools {
    pub(crate) fn new<R: Net + Clock + AllocGlobal>(rt: &R) -> io::Result<Tools> {
        Ok(Tools {
            poll: Poll::new(rt)?,
            events: Events::with_capacity(rt.alloc(), MOST_EVENTS)?,
            timers: Timers::begin(rt.alloc(), rt)?,
            reply: ReplyFrame::new(rt.alloc())?,
        })
    }
}

/// Creates the door of a worker that waits at these tools.
pub(crate) fn open_door<L: Founding, D: Disk, R: Wait + AllocGlobal>(
    rt: &R,
    shared: &Shared<L, D, OpenGate>,
    tools: &Tools,
) -> io::Result<Arc<Door<L>, Global>> {
    let waker = Waker::new(tools.poll.registry(), WAKER)?;
    let worker = shared.worker(rt, waker)?;
    Ok(Arc::new(rt.alloc(), Door::new(rt.alloc(), worker))?)
}

/// Serves connections for good.
pub(crate) fn run<L: Founding, D: Disk, R: Wait + Clock + AllocGlobal>(
    rt: &R,
    shared: &Shared<L, D, OpenGate>,
    door: &Door<L>,
    tools: Tools,
) {
    let mut work = Work::new(rt, Context::new(rt, shared, door), tools);
    for _ in rt.forever() {
        work.round();
    }
    unreachable!()
}

/// A worker with its connections: with a `Context`, and a `Talk` for each connection.
#[derive(Drop)]
struct Work<'a, R, C, T> {
    rt: &'a R,
    context: C,
    tools: Tools,
    clients: Clients<T>,
    lists: Lists,
}

impl<'a, R: Wait + Clock + AllocGlobal, C: Serves<A>, A: Served + Drop> Work<'a, R, C, Talk<A>> {
    /// With no connection.
    fn new(rt: &'a R, context: C, tools: Tools) -> Self {
        Work {
            rt,
            context,
            tools,
            clients: BTreeMap::new(rt.alloc()),
            lists: Lists::new(rt.alloc()),
        }
    }

    /// Waits until there is something to do, and does it.
    fn round(&mut self) {
        let is_woken = wait(self.rt, &mut self.tools, &mut self.lists, &mut self.clients);
        if is_woken {
            self.admit();
            self.lists.note_wake();
            self.lists.rouse_awaiting(&mut self.clients);
        }
        self.rouse();
        self.read();
        self.make_calls();
        self.answer();
        self.remove_ended();
    }

    /// Takes in the connections that were accepted.
    fn admit(&mut self) {
        for arrival in self.context.take_arrivals() {
            self.begin(arrival);
        }
    }

    /// Begins to serve a connection. If there is no session or memory for it, it is closed.
    fn begin(&mut self, arrival: C::Arrival) {
        let count = self.clients.len().saturating_add(1);
        if self.lists.make_room(count).is_err() {
            return;
        }
        if let Some(talk) = self.context.begin(arrival) {
            self.add(talk);
        }
    }

    /// Adds a connection.
    fn add(&mut self, talk: Talk<A>) {
        let client = Client::new(talk, self.tools.poll.registry());
        let number = client.number();
        let _ = self.clients.insert(number, client);
        self.lists.note_event(&mut self.clients, number);
    }

    /// Marks as runnable, besides those for which something came, all sessions for which there is something to do.
    fn rouse(&mut self) {
        if self.lists.lacks_due() {
            let are_all = self.context.take_due(self.lists.due());
            self.lists.note_turns(&mut self.clients, are_all);
        }
        self.lists
            .note_times(self.rt, &mut self.tools.timers, &mut self.clients);
        self.lists.retry_failed(&mut self.clients);
    }

    /// Reads what there is for all that are ready.
    fn read(&mut self) {
        for session in self.lists.ready().iter() {
            if let Some(client) = self.clients.get_mut(session) {
                client.read();
            }
        }
    }

    /// Makes the calls of those that are ready, under one hold of the kernel's lock.
    fn make_calls(&mut self) {
        let mut held: Option<A::Turn> = None;
        for _ in 0..MOST_AT_ONCE {
            if self.has_many(&held) {
                break;
            }
            let Some(session) = self.lists.take_ready() else {
                break;
            };
            held = self.work(session, held);
            self.note_turns(&mut held);
        }
        if let Some(held) = held {
            self.context.end_hold(held);
        }
    }

    /// Returns true if many records were made with the lock held.
    fn has_many(&self, held: &Option<A::Turn>) -> bool {
        match held {
            Some(held) => self.context.has_many(held),
            None => false,
        }
    }

    /// Makes the calls of one session, which is ready.
    fn work(&mut self, session: u32, held: Option<A::Turn>) -> Option<A::Turn> {
        let Some(client) = self.clients.get_mut(&session) else {
            return held;
        };
        self.lists.note_work(&mut client.standing, session);
        if !client.has_work() {
            return held;
        }
        let held = match held {
            Some(held) => held,
            None => self.context.hold(),
        };
        client.work(self.rt.alloc(), held)
    }

    /// Marks the sessions as runnable whose call's turn has come, if no other session is: a call that waits in this
    /// thread goes on before the thread waits for what the others made.
    fn note_turns(&mut self, held: &mut Option<A::Turn>) {
        if !self.lists.ready().is_empty() {
            return;
        }
        if let Some(held) = held {
            let are_all = self.context.take_due_in(held, self.lists.due());
            self.lists.note_turns(&mut self.clients, are_all);
        }
    }

    /// Answers those for which something was done, as far as their replies can be had. If an epoch ended, brings all
    /// sessions up to date, so that none keeps the history block of that epoch.
    fn answer(&mut self) {
        let (mut known, latest) = self.context.report();
        for _ in 0..self.lists.worked() {
            let Some(session) = self.lists.take_worked() else {
                break;
            };
            self.answer_one(session, &mut known);
        }
        self.await_records();
        if let Some(mut latest) = latest {
            look_all(&mut self.clients, &mut latest);
        }
    }

    /// Answers one session, as far as its replies can be had by this report.
    fn answer_one(&mut self, session: u32, known: &mut A::Known) {
        let Some(client) = self.clients.get_mut(&session) else {
            return;
        };
        client.answer(&mut self.tools.reply, known, self.tools.poll.registry());
        let awaits = client.awaits();
        self.lists.note_awaits(
            self.rt,
            &mut self.tools.timers,
            &mut client.standing,
            session,
            awaits,
        );
    }

    /// Has the worker woken once as many records are stored as one of its sessions awaits, or marks those as runnable
    /// that await some, if they are stored already.
    fn await_records(&mut self) {
        if let Some(seen) = self.lists.take_least_awaited() {
            if !self.context.have_woken(seen) {
                self.lists.rouse_awaiting(&mut self.clients);
            }
        }
    }

    /// Removes the connections that ended.
    fn remove_ended(&mut self) {
        for _ in 0..self.lists.ended() {
            let Some(session) = self.lists.take_ended() else {
                break;
            };
            self.remove(session);
        }
    }

    /// Removes a connection that is over.
    fn remove(&mut self, session: u32) {
        let Some(client) = self.clients.get(&session) else {
            return;
        };
        if !client.is_over() {
            return;
        }
        if let Some(end) = client.standing.deadline() {
            self.tools.timers.clear(end, session);
        }
        if client.waits() {
            self.context.leave_line(session);
        }
        if let Some(client) = self.clients.remove(&session) {
            client.end();
        }
    }
}

/// Brings all sessions up to date with the history. It takes no lock.
fn look_all<A: Served>(clients: &mut Clients<Talk<A>>, latest: &mut A::Latest) {
    for client in clients.values_mut() {
        client.look(latest);
    }
}

/// Waits until something came, or a time is over. Returns true if another thread woke it.
fn wait<R: Wait + Clock, T>(
    rt: &R,
    tools: &mut Tools,
    lists: &mut Lists,
    clients: &mut Clients<T>,
) -> bool {
    let most = lists.longest_wait(tools.timers.left(rt));
    if tools.poll.poll(&mut tools.events, most).is_err() {
        thread::sleep(rt, Duration::from_millis(RETRY_MILLISECONDS));
    }
    let mut is_woken = false;
    for event in tools.events.iter() {
        match u32::try_from(event.token().0) {
            Ok(session) => lists.note_event(clients, session),
            Err(_) => is_woken = true,
        }
    }
    is_woken
}
