//! One connection, as far as it goes without waiting.
ghost use Rattle.std.specs.Prelude.{◌≡◌, ◌≤◌, [], None, Some, Err, IfErr, IfOk, IfSome, OnOk, length, option_map};
ghost use Rattle.std.specs.VecDeque.{deque_len};
ghost use Rattle.codes.specs.declared.limits.TheConstants.{MAX_FRAME_CONTENT};
ghost use Rattle.ipc_model.specs.encodings.Encodings.{reply_encoding};
ghost use Rattle.frame_service.specs.Boxes.{inbox_remaining, outbox_contents};
ghost use Rattle.frame_service.specs.Asking.{IsGiven, IsUngiven, bound_of};
ghost use Rattle.frame_service.specs.Conversing.{Begins, Continues, HasEnded, IsRetried, Kept, Stops, Tells, awaited_of, end_of, has_next, over_of, waits_of};

use crate::ahead::holds_frame;
use crate::asking::{Asker, PendingFrame, Ready};
use crate::conversation::Conversation;
use crate::pending::PendingFrames;
use crate::rounds::{MOST_PENDING_FRAMES, take_frames};
use crate::service::ServeFault;
use crate::taking::proceed;
use crate::{Filled, Inbox, Outbox, Source};
use calls::{MessageRequest, reply_frame};
use codes::MAX_FRAME_CONTENT;
use ipc_model::Reply;
use std::alloc::Global;
use std::io::{Read, Write};
use store_fault::StoreFault;
use wire::{Frame, WireFault, write_frame};

/// What came of a call that was made again.
#[derive(Clone, Copy, Debug, PartialEq, Eq)]
pub enum Tried {
    /// Its frame can be answered.
    Settled,
    /// It found nothing, and waits on.
    Waits,
    /// A send was done, and the receive after it waits.
    WaitsForReceive,
}

impl<S: Read, W: Write, A: Asker> Conversation<S, W, A> {
    /// A conversation that begins, with no frame in hand.
    pub fn new(
        inbox: Inbox<S>,
        outbox: Outbox<W>,
        asker: A,
        pending: PendingFrames<A::Ticket>,
    ) -> Self
        requires { pending.frames.items ≡ [] }
        ensures asker { result.asker ≡ asker }
        ensures begins { Begins S.remaining W.contents A.answer A.makes A.lacks A.acknowledges A.fails A.looks asker inbox
            outbox result }
    {
        Conversation {
            inbox,
            outbox,
            asker,
            pending,
            input_end: None,
            fault: None,
        }
    }

    /// Asks once for more of the input.
    pub fn read(&mut self) -> Filled
        ensures keeps { Kept S.remaining W.contents A.answer A.makes A.lacks A.acknowledges A.fails A.looks self.old
            self.new }
        ensures asker { self.new.asker ≡ self.old.asker }
        ensures ended { IfSome self.old.fault (λ fault. (self.new ≡ self.old) × (result ≡ Filled.Over)) }
    {
        match self.fault {
            Some(_) => Filled::Over,
            None => self.inbox.fill(),
        }
    }

    /// Takes the frames that are there in hand, unless some are in hand already, and makes their calls as far as they
    /// can be made now: in this turn of the caller's, which it gives back if it is still held.
    pub fn take(&mut self, alloc: Global, turn: A::Turn) -> Option<A::Turn>
        ensures keeps { Kept S.remaining W.contents A.answer A.makes A.lacks A.acknowledges A.fails A.looks self.old
            self.new }
        ensures ended { IfSome self.old.fault (λ fault. self.new ≡ self.old) }
    {
        if self.fault.is_some() {
            return Some(turn);
        }
        self.asker.join_turn(turn);
        if self.pending.frames.is_empty() && self.input_end.is_none() {
            self.take_all(alloc);
        }
        self.asker.leave_turn()
    }

    /// Takes them.
    fn take_all(&mut self, alloc: Global)
        requires none { (self.old.pending.frames.items ≡ []) × (deque_len self.old.pending.frames ≡ 0) }
        requires more { self.old.input_end ≡ None }
        ensures keeps { Continues S.remaining W.contents A.answer A.makes A.lacks A.acknowledges A.fails A.looks self.old
            self.new }
        ensures fault { self.new.fault ≡ self.old.fault }
    {
        let taken = take_frames(
            alloc,
            &mut self.inbox,
            &mut self.asker,
            &mut self.pending.frames,
        );
        self.input_end = end_of(taken);
    }

    /// Makes the call again that the first frame in hand waits for, if it does: in this turn of the caller's, which it
    /// gives back if it is still held. If it may wait and finds nothing, its wait begins.
    pub fn try_again(
        &mut self,
        alloc: Global,
        turn: A::Turn,
        may_wait: bool,
    ) -> (Option<A::Turn>, Tried)
        ensures keeps { Kept S.remaining W.contents A.answer A.makes A.lacks A.acknowledges A.fails A.looks self.old
            self.new }
        ensures ended { IfSome self.old.fault (λ fault. (self.new ≡ self.old) × (result.1 ≡ Tried.Settled)) }
    {
        if self.fault.is_some() {
            return (Some(turn), Tried::Settled);
        }
        self.asker.join_turn(turn);
        let tried = self.try_first(alloc, may_wait);
        (self.asker.leave_turn(), tried)
    }

    fn try_first(&mut self, alloc: Global, may_wait: bool) -> Tried
        ensures keeps { Continues S.remaining W.contents A.answer A.makes A.lacks A.acknowledges A.fails A.looks self.old
            self.new }
        ensures fault { self.new.fault ≡ self.old.fault }
    {
        let Some(pending) = self.pending.frames.pop_front() else {
            return Tried::Settled;
        };
        let (pending, tried) = retry(alloc, &mut self.asker, pending, may_wait);
        self.pending.frames.push_front_reserved(pending);
        tried
    }

    /// Brings the caller up to date with what others did. No frame is taken or answered.
    pub fn look(&mut self, latest: &mut A::Latest)
        ensures keeps { Kept S.remaining W.contents A.answer A.makes A.lacks A.acknowledges A.fails A.looks self.old
            self.new }
        ensures looks { self.old.fault ≡ None → A.looks self.old.asker self.new.asker }
        ensures ended { IfSome self.old.fault (λ fault. self.new ≡ self.old) }
    {
        if self.fault.is_none() {
            self.asker.look(latest);
        }
    }

    /// Answers the frames in hand whose replies can be had without a wait by this report, in order. `reply` is where
    /// replies are encoded.
    pub fn answer(&mut self, reply: &mut Frame, known: &mut A::Known) -> Result<(), ServeFault>
        requires { MAX_FRAME_CONTENT ≤ reply.old.room }
        ensures room { reply.old.room ≤ reply.new.room }
        ensures keeps { Kept S.remaining W.contents A.answer A.makes A.lacks A.acknowledges A.fails A.looks self.old
            self.new }
        ensures fault { IfErr result (λ fault. self.new.fault ≡ Some fault) }
        ensures ended { IfSome self.old.fault (λ fault. (self.new ≡ self.old) × (result ≡ Err fault)) }
    {
        if let Some(fault) = self.fault {
            return Err(fault);
        }
        match self.answer_all(reply, known) {
            Ok(()) => Ok(()),
            Err(fault) => {
                self.fault = Some(fault);
                Err(fault)
            }
        }
    }

    /// Answers them.
    fn answer_all(&mut self, reply: &mut Frame, known: &mut A::Known) -> Result<(), ServeFault>
        requires { MAX_FRAME_CONTENT ≤ reply.old.room }
        ensures room { reply.old.room ≤ reply.new.room }
        ensures keeps { OnOk result
            (Continues S.remaining W.contents A.answer A.makes A.lacks A.acknowledges A.fails A.looks self.old self.new) }
        ensures ends { IfErr result (λ fault.
            Stops S.remaining W.contents A.answer A.makes A.lacks A.acknowledges A.fails A.looks self.old self.new
            (Err fault)) }
        ensures fault { self.new.fault ≡ self.old.fault }
    {
        for _ in 0..MOST_PENDING_FRAMES {
            match self.answer_first(reply, known) {
                Ok(true) => {}
                Ok(false) => return Ok(()),
                Err(fault) => return Err(fault),
            }
        }
        Ok(())
    }

    /// Answers the first frame in hand, if its reply can be had without a wait. Returns true if it did.
    fn answer_first(&mut self, reply: &mut Frame, known: &mut A::Known) -> Result<bool, ServeFault>
        requires { MAX_FRAME_CONTENT ≤ reply.old.room }
        ensures room { reply.old.room ≤ reply.new.room }
        ensures keeps { OnOk result
            (Continues S.remaining W.contents A.answer A.makes A.lacks A.acknowledges A.fails A.looks self.old self.new) }
        ensures ends { IfErr result (λ fault.
            Stops S.remaining W.contents A.answer A.makes A.lacks A.acknowledges A.fails A.looks self.old self.new
            (Err fault)) }
        ensures fault { self.new.fault ≡ self.old.fault }
    {
        if !self.is_due(known) {
            return Ok(false);
        }
        match self.pending.frames.pop_front() {
            Some(PendingFrame::Settled(ready)) => {
                match tell(&mut self.asker, &mut self.outbox, ready, reply, known) {
                    Ok(()) => Ok(true),
                    Err(fault) => Err(fault),
                }
            }
            Some(waiting) => {
                self.pending.frames.push_front_reserved(waiting);
                Ok(false)
            }
            None => Ok(false),
        }
    }

    /// Returns true if the reply to the first frame in hand can be had without a wait.
    fn is_due(&self, known: &A::Known) -> bool {
        match self.pending.frames.front() {
            Some(PendingFrame::Settled(Ready::Known(_))) => true,
            Some(PendingFrame::Settled(Ready::Made(ticket))) => self.asker.is_due(ticket, known),
            _ => false,
        }
    }

    /// Flushes buffered output. Bytes that the peer doesn't accept stay buffered.
    pub fn flush(&mut self) -> Result<(), ServeFault>
        ensures keeps { Kept S.remaining W.contents A.answer A.makes A.lacks A.acknowledges A.fails A.looks self.old
            self.new }
        ensures asker { self.new.asker ≡ self.old.asker }
        ensures fault { IfErr result (λ fault. self.new.fault ≡ Some fault) }
        ensures ended { IfSome self.old.fault (λ fault. (self.new ≡ self.old) × (result ≡ Err fault)) }
    {
        if let Some(fault) = self.fault {
            return Err(fault);
        }
        if self.outbox.flush().is_err() {
            let fault = ServeFault::Wire(WireFault::Device);
            self.fault = Some(fault);
            return Err(fault);
        }
        Ok(())
    }

    /// Returns how the conversation has ended: a step failed, or the input is over and nothing is in hand. `None`: it
    /// hasn't ended.
    pub fn ended(&self) -> Option<Result<(), ServeFault>>
        ensures value { result ≡ over_of self.now.fault self.now.pending.frames.items self.now.input_end }
        ensures ends { IfSome result (λ how.
            HasEnded S.remaining W.contents A.answer A.makes A.lacks A.acknowledges A.fails A.looks self.now how) }
    {
        if let Some(fault) = self.fault {
            return Some(Err(fault));
        }
        if !self.pending.frames.is_empty() {
            return None;
        }
        match self.input_end {
            None => None,
            Some(Ok(())) => Some(Ok(())),
            Some(Err(fault)) => Some(Err(ServeFault::Wire(fault))),
        }
    }

    /// The caller.
    pub fn asker(&self) -> &A
        ensures { result.now ≡ self.now.asker }
    {
        &self.asker
    }

    /// Returns the number of output bytes that the peer hasn't accepted.
    pub fn unsent(&self) -> usize
        ensures { result ≡ length self.now.outbox.bytes }
    {
        self.outbox.len()
    }

    /// Returns the number of input bytes that came and whose frames weren't taken.
    pub fn ahead(&self) -> usize
        ensures { result ≡ length self.now.inbox.bytes }
    {
        self.inbox.unread().len()
    }

    /// Returns true if there is a frame to be taken, or the end of the input, and nothing in hand.
    pub fn has_next(&self) -> bool
        ensures { result ≡ has_next self.now.fault self.now.pending.frames.items self.now.input_end self.now.inbox }
    {
        if self.fault.is_some() {
            return false;
        }
        if !self.pending.frames.is_empty() || self.input_end.is_some() {
            return false;
        }
        match self.inbox.source() {
            Source::Open => holds_frame(self.inbox.unread()),
            Source::Ended | Source::Failed => true,
        }
    }

    /// Returns the ticket of the first frame in hand, if it waits only to be answered.
    pub fn awaited(&self) -> Option<&A::Ticket>
        ensures { option_map (λ ticket. ticket.now) result ≡ awaited_of self.now.fault self.now.pending.frames.items }
    {
        if self.fault.is_some() {
            return None;
        }
        match self.pending.frames.front() {
            Some(PendingFrame::Settled(Ready::Made(ticket))) => Some(ticket),
            _ => None,
        }
    }

    /// Returns the bound of the call that the first frame in hand waits for, if it waits.
    pub fn waits(&self) -> Option<Option<u32>>
        ensures { result ≡ waits_of self.now.fault self.now.pending.frames.items }
    {
        if self.fault.is_some() {
            return None;
        }
        match self.pending.frames.front() {
            Some(PendingFrame::Waits(message)) => Some(bound_of(message)),
            _ => None,
        }
    }
}

/// Makes the calls again of a frame that waits.
fn retry<A: Asker>(
    alloc: Global,
    asker: &mut A,
    pending: PendingFrame<A::Ticket>,
    may_wait: bool,
) -> (PendingFrame<A::Ticket>, Tried)
    ensures { IsRetried A.answer A.makes A.lacks asker.old pending result.0 asker.new }
{
    match pending {
        PendingFrame::Settled(ready) => (PendingFrame::Settled(ready), Tried::Settled),
        PendingFrame::Waits(message) => {
            let sends = message.send.is_some();
            let next = proceed(alloc, asker, message, may_wait);
            let tried = tried_of(&next, sends);
            (next, tried)
        }
    }
}

/// What came of it, if a send was to be made.
fn tried_of<T>(pending: &PendingFrame<T>, sends: bool) -> Tried {
    match pending {
        PendingFrame::Settled(_) => Tried::Settled,
        PendingFrame::Waits(next) => {
            if sends && next.send.is_none() {
                Tried::WaitsForReceive
            } else {
                Tried::Waits
            }
        }
    }
}

/// Writes the reply to a frame that waits for nothing.
fn tell<W: Write, A: Asker>(
    asker: &mut A,
    outbox: &mut Outbox<W>,
    ready: Ready<A::Ticket>,
    reply: &mut Frame,
    known: &mut A::Known,
) -> Result<(), ServeFault>
    requires { MAX_FRAME_CONTENT ≤ reply.old.room }
    ensures room { reply.old.room ≤ reply.new.room }
    ensures tells { Tells A.answer A.makes A.lacks A.acknowledges A.fails asker.old ready asker.new
        (outbox_contents W.contents outbox.old) (outbox_contents W.contents outbox.new) result }
{
    let answer = give(asker, ready, known)?;
    reply_frame(&answer, reply);
    drop(answer);
    write_frame(outbox, reply)?;
    Ok(())
}

/// The reply to a frame that waits for nothing.
fn give<A: Asker>(
    asker: &mut A,
    ready: Ready<A::Ticket>,
    known: &mut A::Known,
) -> Result<Reply, StoreFault>
    ensures given { IfOk result
        (λ reply. IsGiven A.answer A.makes A.lacks A.acknowledges A.fails asker.old ready reply asker.new) }
    ensures ungiven { IfErr result
        (λ fault. IsUngiven A.answer A.makes A.lacks A.acknowledges A.fails asker.old ready fault asker.new) }
    ensures fits { IfOk result (λ reply. length (reply_encoding reply) ≤ MAX_FRAME_CONTENT) }
{
    match ready {
        Ready::Known(short_reply) => Ok(short_reply.into_reply()),
        Ready::Made(ticket) => asker.redeem(ticket, known),
    }
}

/// How the input ended, by what taking frames said.
fn end_of(taken: Result<bool, WireFault>) -> Option<Result<(), WireFault>>
    ensures { result ≡ end_of taken }
{
    match taken {
        Ok(true) => None,
        Ok(false) => Some(Ok(())),
        Err(fault) => Some(Err(fault)),
    }
}

/// The bound of the half of a `mach_msg` that is to be made next.
fn bound_of(message: &MessageRequest) -> Option<u32>
    ensures { result ≡ bound_of message.now }
{
    if message.send.is_some() {
        message.send_timeout
    } else {
        message.receive_timeout
    }
}
