ghost use Rattle.std.specs.Prelude.{◌≡◌, ◌≤◌, [], length, IfOk, IfErr, OnErr};
ghost use Rattle.std.specs.Arc.{arc_value};
ghost use Rattle.codes.specs.declared.limits.TheConstants.{MAX_FRAME_CONTENT};
ghost use Rattle.codes.specs.declared.name.TheConstants.{FIRST_SPACE};
ghost use Rattle.ipc_model.specs.history.History.{called, looked, redemption};
ghost use Rattle.ipc_model.specs.encodings.Encodings.{reply_encoding};
ghost use Rattle.keepers.specs.Tokens.{Did};

use crate::guarded::KernelGuarded;
use crate::replies::{Replies, Report};
use crate::seat::{Peer, Seat, Worker};
use crate::turn::{News, Turn};
use disk::Disk;
use history::{Mark, Stored, Storing};
use ipc_model::{Call, Reply};
use keepers::{
    Admission, Destructions, EntryBlock, Founding, KernelKeeper, Latest, Past, Session, StoreKeeper,
};
use mio::Waker;
use std::alloc::{AllocError, Global};
use std::sync::ledger::Book;
use std::sync::{Arc, Condvar, Mutex, MutexGuard, Wait};
use std::thread;
use std::time::{Clock, Duration};
use store_fault::StoreFault;
use system::{Opened, SubmitFault, Ticket};

/// How many milliseconds a thread waits before it tries again after it ran out of memory.
pub(crate) const RETRY_MILLISECONDS: u64 = 10;

/// The two halves of the core, each under a lock of its own, for any number of sessions, one thread that stores their
/// calls and one that makes images. No lock is taken within the other.
#[derive(Drop)]
pub struct Shared<L: Founding, D: Disk, G> {
    pub(crate) alloc: Global,
    pub(crate) gate: G,
    pub(crate) guarded: Mutex<KernelGuarded<L>>,
    pub(crate) store_keeper: Mutex<StoreKeeper<L, D>>,

    // Held while a thread waits for the store's lock, so that its two users take turns.
    pub(crate) store_turn: Mutex<()>,
    pub(crate) replies: Mutex<Replies<L>>,

    // How many records are stored, by what the store's half counted.
    pub(crate) mark: Mark<L>,

    // Waited on under the kernel's lock: that there is something to do for the loop that stores; that no turn is due
    // that it waits for; that there is something to do for the loop that makes images; and that an epoch has begun.
    pub(crate) records: Condvar,
    pub(crate) turns_taken: Condvar,
    pub(crate) images_due: Condvar,
    pub(crate) epochs: Condvar,

    // Waited on under the store's lock: that it changed.
    pub(crate) store_changed: Condvar,

    // Waited on under the lock of the replies: that more is stored.
    pub(crate) more_stored: Condvar,
}

impl<L: Founding, D: Disk, G: Drop> Shared<L, D, G> {
    /// Shares an opened store. The history begins in its state, with this entry block; this book counts its records
    /// (`Admissions::open`), and this mark those of them that are stored (`NewMark::named`). If an allocation fails,
    /// the disk comes back.
    pub fn new(
        alloc: Global,
        opened: Opened<D>,
        block: Arc<EntryBlock, Global>,
        book: Book<L>,
        mark: (Mark<L>, Storing<L>),
        gate: G,
    ) -> Result<Self, D>
        requires base { opened.kernel ≡ L.base }
        requires block { arc_value block ≡ L.first }
        requires book { book.total ≡ 0 }
        requires mark { mark.1 ≡ 0 }
        ensures { IfErr result (λ disk. disk ≡ opened.disk) }
    {
        let (mark, mut storing) = mark;
        let known = storing.stored(&mark);
        let mut past = Past::new(alloc, block);
        let Opened {
            kernel,
            disk,
            segment,
        } = opened;
        kernel.show_image();
        let Ok(mine) = past.again() else {
            drop(kernel);
            return Err(disk);
        };
        let Ok(destructions) = Destructions::none(alloc) else {
            drop(kernel);
            return Err(disk);
        };
        let store_keeper = StoreKeeper::new(disk, segment, mine, storing);
        let keeper = KernelKeeper::new(
            alloc,
            kernel,
            segment.epoch,
            segment.records,
            past,
            book,
            destructions,
        );
        Ok(Shared {
            alloc,
            gate,
            guarded: Mutex::new(KernelGuarded::new(alloc, keeper)),
            store_keeper: Mutex::new(store_keeper),
            store_turn: Mutex::new(()),
            replies: Mutex::new(Replies::none(alloc, known)),
            mark,
            records: Condvar::new(),
            turns_taken: Condvar::new(),
            images_due: Condvar::new(),
            epochs: Condvar::new(),
            store_changed: Condvar::new(),
            more_stored: Condvar::new(),
        })
    }

    /// A new session, of a task that is attached to space 1 and has seen all that was made. If an allocation fails, the
    /// admission comes back.
    pub fn session(
        &self,
        rt: &impl Wait,
        admission: Admission<L>,
    ) -> Result<Session<L>, Admission<L>>
        ensures new { IfOk result (λ session. (session.task.space ≡ FIRST_SPACE) × (session.task.acknowledged ≡ 0)
            × (session.task.tickets ≡ []) × (session.task.places ≡ []) × (session.number ≡ admission)) }
        ensures err { IfErr result (λ back. back ≡ admission) }
    {
        let stored = self.replies.lock(rt).stored(&self.mark);
        self.guarded.lock(rt).keeper.session(admission, stored)
    }

    /// Makes a call of a session, whose ticket keeps its reply. Even if it isn't made, the session may have seen more
    /// than before.
    ///
    /// If the epoch log is full and a loop makes images, it waits for the next epoch. `NoMemory`: an allocation failed.
    /// `EpochFull`: no room is left for its record, and no next epoch comes; or the session isn't known to be in the
    /// history of this server (`KernelKeeper::submit`).
    pub fn submit<R: Wait>(
        &self,
        rt: &R,
        session: Session<L>,
        call: &Call,
    ) -> (Session<L>, Result<Ticket, SubmitFault>)
        ensures given { IfOk result.1 (λ ticket. Did L.base session (called call.now ticket.answer) result.0
            × (ticket.seen ≡ result.0.task.seen)) }
        ensures err { OnErr result.1 (Did L.base session looked result.0) }
    {
        let mut turn = self.begin_turn(rt);
        let (session, made) = turn.guarded.submit(session, None, call, None);
        turn.keep_due_worker();
        self.end_turn(turn);
        (session, made)
    }

    /// Takes the kernel's lock, once a call may be made, for several calls.
    pub fn begin_turn<R: Wait>(&self, rt: &R) -> Turn<'_, L> {
        let guarded = self.guarded.lock(rt);
        Turn::new(
            self.epochs
                .wait_while(rt, guarded, |guarded| guarded.awaits_epoch()),
        )
    }

    /// Frees the kernel's lock, and notifies the loops of what they have to do.
    pub fn end_turn(&self, turn: Turn<'_, L>) {
        let News {
            has_more,
            are_over,
            has_image_due,
            due_worker,
        } = turn.end();
        if let Some(worker) = due_worker {
            worker.wake();
        }
        if has_more {
            self.records.notify_all();
        }
        if are_over {
            self.turns_taken.notify_all();
        }
        if has_image_due {
            self.images_due.notify_all();
        }
    }

    /// A worker, which this wakes.
    pub fn worker(&self, rt: &impl Wait, waker: Waker) -> Result<Arc<Worker, Global>, AllocError> {
        let number = self.guarded.lock(rt).add_worker()?;
        let Ok(worker) = Arc::new(self.alloc, Worker::new(number, waker)) else {
            return Err(AllocError);
        };
        let same = Arc::try_clone(&worker)?;
        self.replies.lock(rt).add_worker(same)?;
        Ok(worker)
    }

    /// Tells a worker what is stored and, if an epoch ended since it asked last, the history up to the epoch in use. It
    /// takes the lock of the replies once.
    pub fn report(&self, rt: &impl Wait, worker: &Worker) -> (Report<L>, Option<Latest<L>>) {
        self.replies.lock(rt).report(worker.number(), &self.mark)
    }

    /// Has a worker woken once `seen` records are stored, or nothing is stored any more. Returns whether that is still
    /// to come.
    pub fn have_woken(&self, rt: &impl Wait, worker: &Worker, seen: u64) -> bool {
        self.replies.lock(rt).have_woken(worker.number(), seen)
    }

    /// The sessions of a worker whose call's turn has come since this was asked last. If an allocation fails, they are
    /// kept for the next time.
    pub fn take_due(
        &self,
        rt: &impl Wait,
        worker: &Worker,
        due: &mut Vec<u32>,
    ) -> Result<(), AllocError> {
        self.guarded.lock(rt).take_due(worker.number(), due)
    }

    /// Wakes the workers for which as many records are stored as they await. The lock is free when one is woken.
    pub(crate) fn wake_workers(&self, rt: &impl Wait) {
        let count = self.replies.lock(rt).workers();
        for number in 0..count {
            let worker = self.replies.lock(rt).take_due_worker(number);
            if let Some(worker) = worker {
                worker.wake();
            }
        }
    }

    /// Begins an epoch, with the history up to it, and wakes the workers, which bring their sessions up to date. The
    /// lock is free when one is woken.
    pub(crate) fn begin_epoch(&self, rt: &impl Wait, latest: Latest<L>) {
        let mut replies = self.replies.lock(rt);
        replies.begin_epoch(latest);
        let count = replies.workers();
        drop(replies);
        for number in 0..count {
            let worker = self.replies.lock(rt).worker_behind(number);
            if let Some(worker) = worker {
                worker.wake();
            }
        }
    }

    /// Takes the store's lock, in turn with the other thread that uses it.
    pub(crate) fn lock_store<R: Wait>(&self, rt: &R) -> MutexGuard<'_, StoreKeeper<L, D>> {
        let turn = self.store_turn.lock(rt);
        let store_keeper = self.store_keeper.lock(rt);
        drop(turn);
        store_keeper
    }

    /// A session's call waits no longer, and isn't made again.
    pub fn leave_line(&self, rt: &impl Wait, session: u32) {
        self.guarded.lock(rt).leave_line(session);
    }

    /// Waits a while.
    pub(crate) fn pause<R: Wait + Clock>(&self, rt: &R) {
        thread::sleep(rt, Duration::from_millis(RETRY_MILLISECONDS));
    }

    /// The reply that a ticket of this session keeps, once all that its call saw is stored; until then it waits.
    ///
    /// A fault is one that a loop met, and then nothing more is stored; or `Failed`: the loop that stores has ended, or
    /// the ticket isn't of this session.
    pub fn redeem<R: Wait>(
        &self,
        rt: &R,
        session: Session<L>,
        ticket: Ticket,
    ) -> (Session<L>, Result<Reply, StoreFault>)
        ensures redeemed { IfOk result.1
            (λ reply. (reply ≡ ticket.answer) × Did L.base session (redemption session.task ticket.seen) result.0) }
        ensures fits { IfOk result.1 (λ reply. length (reply_encoding reply) ≤ MAX_FRAME_CONTENT) }
        ensures err { OnErr result.1 (result.0 ≡ session) }
    {
        let mut session = session;
        let stored = self.stored_for(rt, &mut session, ticket.seen());
        self.redeem_by(rt, session, ticket, stored)
    }

    /// What is known to be stored, once `seen` records are, or nothing is stored any more. What the session knows is
    /// asked first, which takes no lock.
    fn stored_for<R: Wait>(&self, rt: &R, session: &mut Session<L>, seen: u64) -> Stored<L>
        ensures { session.new ≡ session.old }
    {
        let known = session.stored(&self.mark);
        if seen <= known.count() {
            return known;
        }
        drop(known);
        self.await_stored_records(rt, seen)
    }

    /// Waits until `seen` records are stored, or nothing is stored any more. Returns what is known to be stored.
    fn await_stored_records<R: Wait>(&self, rt: &R, seen: u64) -> Stored<L> {
        let mut replies = self.more_stored.wait_while(
            rt,
            self.replies.lock(rt),
            |replies| replies.is_awaited(seen),
        );
        replies.stored(&self.mark)
    }

    /// The reply that a ticket of this session keeps, if this report covers all that its call saw. It takes no lock and
    /// doesn't wait.
    ///
    /// A fault is one that a loop met, or `Failed`: the report doesn't cover it, or the ticket isn't of this session.
    pub fn redeem_reported<R: Wait>(
        &self,
        rt: &R,
        session: Session<L>,
        ticket: Ticket,
        report: &mut Report<L>,
    ) -> (Session<L>, Result<Reply, StoreFault>)
        ensures redeemed { IfOk result.1
            (λ reply. (reply ≡ ticket.answer) × Did L.base session (redemption session.task ticket.seen) result.0) }
        ensures fits { IfOk result.1 (λ reply. length (reply_encoding reply) ≤ MAX_FRAME_CONTENT) }
        ensures err { OnErr result.1 (result.0 ≡ session) }
    {
        let stored = report.stored(&self.mark);
        self.redeem_by(rt, session, ticket, stored)
    }

    /// The reply that a ticket keeps, if this token covers it.
    fn redeem_by<R: Wait>(
        &self,
        rt: &R,
        session: Session<L>,
        ticket: Ticket,
        stored: Stored<L>,
    ) -> (Session<L>, Result<Reply, StoreFault>)
        ensures redeemed { IfOk result.1
            (λ reply. (reply ≡ ticket.answer) × Did L.base session (redemption session.task ticket.seen) result.0) }
        ensures fits { IfOk result.1 (λ reply. length (reply_encoding reply) ≤ MAX_FRAME_CONTENT) }
        ensures err { OnErr result.1 (result.0 ≡ session) }
    {
        let (session, acknowledged) = session.redeem(ticket, stored);
        match acknowledged {
            Ok(reply) => (session, Ok(reply)),
            Err(_) => (session, Err(self.fault(rt).unwrap_or(StoreFault::Failed))),
        }
    }

    /// The fault that a loop met, if one did: then nothing more is stored.
    pub fn fault(&self, rt: &impl Wait) -> Option<StoreFault> {
        self.guarded.lock(rt).fault()
    }

    /// Tells both loops to end, after what was called until now.
    pub fn stop(&self, rt: &impl Wait) {
        self.guarded.lock(rt).stop();
        self.records.notify_all();
        self.images_due.notify_all();
        self.epochs.notify_all();
    }

    /// The loop that stores ends: all waiting threads are notified.
    pub(crate) fn end(&self, rt: &impl Wait) {
        self.guarded.lock(rt).end();
        self.epochs.notify_all();
        self.end_replies(rt);
    }

    /// No reply comes any more that hasn't come yet.
    fn end_replies(&self, rt: &impl Wait) {
        self.replies.lock(rt).end();
        self.wake_workers(rt);
        self.more_stored.notify_all();
    }

    /// A loop met a fault: all waiting threads are notified.
    pub(crate) fn fail(&self, rt: &impl Wait, fault: StoreFault) {
        self.guarded.lock(rt).fail(fault);
        self.epochs.notify_all();
        self.records.notify_all();
        self.images_due.notify_all();
        self.store_changed.notify_all();
        self.end_replies(rt);
    }
}
