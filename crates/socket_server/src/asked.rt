ghost use Rattle.std.specs.Prelude.{◌≡◌};
ghost use Rattle.frame_service.specs.Asking.{timed_out};
ghost use Rattle.ipc_model.specs.calls.Step.{succeeded};
ghost use Rattle.socket_server.specs.Connecting.{answer_of};

use codes::KernReturn;
use frame_service::Shown;
use std::marker::Model;
use system::Ticket;

/// A call that was made for what a connection was asked, and how the connection shows its reply.
#[derive(Drop)]
pub struct Asked {
    ticket: Ticket,
    shown: Shown,
}

impl Model for Asked {
    ghost use Rattle.socket_server.specs.Connecting.{AskedValue, asked_code};

    ghost Value = { AskedValue };

    ghost coded = { asked_code };

    ghost view = { λ a. record { ticket = a.ticket; shown = a.shown } };
}

impl Asked {
    /// A call whose reply this ticket keeps.
    pub(crate) fn new(ticket: Ticket, shown: Shown) -> Self
        ensures { result ≡ record { ticket = ticket; shown = shown } }
    {
        Asked { ticket, shown }
    }

    /// The ticket, and how its reply is shown.
    pub(crate) fn into_parts(self) -> (Ticket, Shown)
        ensures ticket { result.0 ≡ self.ticket }
        ensures shown { result.1 ≡ self.shown }
    {
        (self.ticket, self.shown)
    }

    /// Returns how many records its reply saw.
    pub fn seen(&self) -> u64
        ensures { result ≡ self.now.ticket.seen }
    {
        self.ticket.seen()
    }

    /// Returns whether what was asked was done, which is code 0.
    #[tactic(auto, using(crate::proofs::Showing::attach_is_not_done, crate::proofs::Showing::confine_is_done))]
    pub(crate) fn is_done(&self) -> bool
        ensures { result ≡ succeeded (answer_of self.now) }
    {
        match self.shown {
            Shown::AsItIs => self.ticket.is_success(),
            Shown::ToAttach => false,
            Shown::ToConfine => self.ticket.is_success(),
        }
    }

    /// Returns whether the call found nothing to do: there was no message, or no room in the queue.
    #[tactic(auto, using(crate::proofs::Showing::shown_is_timed_out))]
    pub(crate) fn is_timed_out(&self) -> bool
        ensures { result ≡ timed_out (answer_of self.now) }
    {
        found_nothing(&self.ticket)
    }
}

fn found_nothing(ticket: &Ticket) -> bool
    ensures { result ≡ timed_out ticket.now.answer }
{
    match ticket.message_code() {
        Some(KernReturn::SendTimedOut) => true,
        Some(KernReturn::RcvTimedOut) => true,
        _ => false,
    }
}
