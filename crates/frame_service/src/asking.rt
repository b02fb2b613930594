ghost use Rattle.std.specs.Prelude.{◌≡◌, ◌≤◌, length, IfErr, IfNone, IfOk, IfSome};
ghost use Rattle.codes.specs.declared.limits.TheConstants.{MAX_FRAME_CONTENT};
ghost use Rattle.ipc_model.specs.calls.Step.{succeeded};
ghost use Rattle.calls.specs.declared.request.Request.{Request};
ghost use Rattle.ipc_model.specs.declared.reply.Reply.{Reply};
ghost use Rattle.ipc_model.specs.encodings.Encodings.{reply_encoding};
ghost use Rattle.store_fault.specs.declared.fault.StoreFault.{StoreFault};
ghost use Rattle.frame_service.specs.Asking.{timed_out};

use crate::short_reply::ShortReply;
use calls::{MessageRequest, Request};
use ipc_model::{Call, Reply};
use store_fault::StoreFault;

/// The outcome of a frame whose calls were made.
#[derive(Drop)]
pub enum Ready<T> {
    /// Its reply is known.
    Known(ShortReply),
    /// Its last call was made, and the ticket keeps the reply.
    Made(T),
}

/// A frame that was read and isn't answered yet.
#[derive(Drop)]
pub enum PendingFrame<T> {
    /// It only waits to be acknowledged.
    Settled(Ready<T>),
    /// The first of these calls found nothing to do, and is made again after a wait.
    Waits(MessageRequest),
}

/// Makes calls, and may be asked for more of them before it gives the reply to the first.
pub trait Asker {
    /// A call that was made, whose reply isn't given yet.
    type Ticket: Drop;

    /// Several calls, of this caller or of others like it, with nothing else in between.
    type Turn: Drop;

    /// A report of what is stored.
    type Known: Drop;

    /// What others did, which it catches up with.
    type Latest: Drop;

    /// The reply that a ticket keeps.
    ghost answer: { Self.Ticket → Reply };

    /// What it is after it returned a ticket for what it was asked for. It is asked for one call at a time, or to
    /// confine its connection.
    ghost makes: { Self → Request → Self.Ticket → Self → Type 0 };

    /// What it is after it didn't do that, since memory or room for the record ran out, or its task has gone.
    ghost lacks: { Self → Request → Self → Type 0 };

    /// What it is after it gave a ticket's reply.
    ghost acknowledges: { Self → Self.Ticket → Self → Type 0 };

    /// How the store may fail before a ticket's reply is given, and what it is afterwards.
    ghost fails: { Self → Self.Ticket → StoreFault → Self → Type 0 };

    /// What it is after it learned what others did.
    ghost looks: { Self → Self → Type 0 };

    /// Its calls are made in this turn, until it leaves it.
    fn join_turn(&mut self, turn: Self::Turn)
        ensures { self.new ≡ self.old };

    /// Leaves its turn. `None`: it had to end it.
    fn leave_turn(&mut self) -> Option<Self::Turn>
        ensures { self.new ≡ self.old };

    /// Makes a call. If the call finds nothing to do and may wait, its wait begins. `None`: it isn't made, since memory
    /// or room for its record ran out, or its task has gone.
    fn submit(&mut self, call: &Call, may_wait: bool) -> Option<Self::Ticket>
        ensures makes { IfSome result (λ ticket. makes self.old (Request.One call.now) ticket self.new) }
        ensures lacks { IfNone result (lacks self.old (Request.One call.now) self.new) };

    /// Confines its connection to the space that it is attached to. The ticket keeps the reply of number 23. `None`: it
    /// isn't confined, since memory ran out.
    fn confine(&mut self) -> Option<Self::Ticket>
        ensures makes { IfSome result (λ ticket. makes self.old Request.Confine ticket self.new) }
        ensures lacks { IfNone result (lacks self.old Request.Confine self.new) };

    /// Returns whether a ticket's call was done, which is code 0.
    fn is_done(&self, ticket: &Self::Ticket) -> bool
        ensures { result ≡ succeeded (answer ticket.now) };

    /// Returns whether a ticket's call found nothing to do: there was no message, or no room in the queue.
    fn is_timed_out(&self, ticket: &Self::Ticket) -> bool
        ensures { result ≡ timed_out (answer ticket.now) };

    /// Returns true if a ticket's reply can be had without a wait, by this report.
    fn is_due(&self, ticket: &Self::Ticket, known: &Self::Known) -> bool;

    /// Returns the reply that a ticket keeps, if the report covers all that its call saw.
    fn redeem(&mut self, ticket: Self::Ticket, known: &mut Self::Known) -> Result<Reply, StoreFault>
        ensures reply { IfOk result (λ reply. reply ≡ answer ticket) }
        ensures acknowledges { IfOk result (λ reply. acknowledges self.old ticket self.new) }
        ensures fits { IfOk result (λ reply. length (reply_encoding reply) ≤ MAX_FRAME_CONTENT) }
        ensures fails { IfErr result (λ fault. fails self.old ticket fault self.new) };

    /// Learns what others did meanwhile. It makes no call.
    fn look(&mut self, latest: &mut Self::Latest)
        ensures { looks self.old self.new };
}
