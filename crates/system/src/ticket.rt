ghost use Rattle.std.specs.Prelude.{◌≡◌, ◌+◌, ◌-◌, ◌<◌, ◌≤◌, ◌^◌, length, None, Some, IfOk, IfErr, IfSome, IfNone, IsSome, OnOk, OnErr};
ghost use Rattle.std.specs.FinMap as map;
ghost use Rattle.codes.specs.declared.limits.TheConstants.{MAX_FRAME_CONTENT};
ghost use Rattle.ipc_model.specs.calls.Step.{succeeded};
ghost use Rattle.ipc_model.specs.declared.call.Call.{Call};
ghost use Rattle.ipc_model.specs.encodings.Encodings.{reply_encoding};
ghost use Rattle.system.specs.Core.{TicketsValue};
ghost use Rattle.system.specs.Halves.{TicketValue, message_code};

use codes::KernReturn;
use ipc_model::{PlainReply, Reply};
use number_map::NumberMap;
use std::alloc::{AllocError, Global};
use std::marker::Model;

/// What a call was answered, to be given out once all records that it saw are stored. It can't be copied.
#[derive(Drop)]
pub struct Ticket {
    pub(crate) reply: Reply,
    pub(crate) seen: u64,
}

impl Model for Ticket {
    ghost use Rattle.std.specs.Prelude.{◌≤◌, length};
    ghost use Rattle.codes.specs.declared.limits.TheConstants.{MAX_FRAME_CONTENT};
    ghost use Rattle.ipc_model.specs.encodings.Encodings.{reply_encoding};
    ghost use Rattle.system.specs.Halves.{TicketValue};
    ghost use Rattle.system.specs.TicketCode.{ticket_code};

    ghost Value = { TicketValue };

    ghost coded = { ticket_code };

    ghost view = { λ t. record { answer = t.reply; seen = t.seen } };

    // The reply fits in a frame.
    ghost invariant = { λ t. length (reply_encoding t.reply) ≤ MAX_FRAME_CONTENT };
}

impl Ticket {
    /// Returns how many of the records that were made its call saw.
    pub fn seen(&self) -> u64
        ensures { result ≡ self.now.seen }
    {
        self.seen
    }

    /// Returns whether the call was done, which is code 0.
    pub fn is_success(&self) -> bool
        ensures { result ≡ succeeded self.now.answer }
    {
        self.reply.is_success()
    }

    /// The code of its reply, if its call is a `mach_msg`'s.
    pub fn message_code(&self) -> Option<KernReturn>
        ensures { result ≡ message_code self.now.answer }
    {
        match &self.reply {
            Reply::Plain(PlainReply::Message { code, .. }) => Some(*code),
            _ => None,
        }
    }

    /// The reply that it keeps, where its call saw only records among the first `stored` ones that were made; else it
    /// comes back.
    pub fn redeem(self, stored: u64) -> Result<Reply, Ticket>
        ensures ok { IfOk result (λ reply. (self.seen ≤ stored) × (reply ≡ self.answer)) }
        ensures frame { IfOk result (λ reply. length (reply_encoding reply) ≤ MAX_FRAME_CONTENT) }
        ensures err { IfErr result (λ kept. (stored < self.seen) × (kept ≡ self)) }
    {
        if stored < self.seen {
            return Err(self);
        }
        Ok(self.into_reply())
    }

    /// The reply that it keeps.
    pub(crate) fn into_reply(self) -> Reply
        ensures reply { result ≡ self.answer }
        ensures frame { length (reply_encoding result) ≤ MAX_FRAME_CONTENT }
    {
        self.reply
    }
}

/// The tickets that weren't answered, by number, and how many were given. The next ticket's place is made before its
/// call is made, so that storing the ticket takes no memory.
#[derive(Drop)]
pub(crate) struct Tickets {
    kept: NumberMap<Option<Ticket>>,
    given: u64,
}

impl Model for Tickets {
    ghost use Rattle.system.specs.Core.{TicketsValue};
    ghost use Rattle.system.specs.TicketCode.{tickets_code};

    ghost Value = { TicketsValue };

    ghost coded = { tickets_code };

    ghost view = { λ t. record { kept = t.kept; given = t.given } };
}

impl Tickets {
    /// No tickets. It takes no memory.
    pub(crate) fn new(alloc: Global) -> Self
        ensures { result ≡ record { kept = map.empty; given = 0 } }
    {
        Tickets {
            kept: NumberMap::new(alloc),
            given: 0,
        }
    }

    /// Returns how many were given.
    pub(crate) fn given(&self) -> u64
        ensures { result ≡ self.now.given }
    {
        self.given
    }

    /// Makes the place of the next ticket. If an allocation fails, nothing changed.
    pub(crate) fn make_place(&mut self) -> Result<(), AllocError>
        ensures ok { OnOk result (self.new
            ≡ record { kept = map.insert self.old.kept self.old.given None; given = self.old.given }) }
        ensures err { OnErr result (self.new ≡ self.old) }
    {
        drop(self.kept.insert(u128::from(self.given), None)?);
        Ok(())
    }

    /// Gives up the place of the next ticket.
    pub(crate) fn drop_place(&mut self)
        ensures { self.new ≡ record { kept = map.remove self.old.kept self.old.given; given = self.old.given } }
    {
        drop(self.kept.remove(u128::from(self.given)));
    }

    /// Puts the next ticket in its place, and returns its number.
    pub(crate) fn give(&mut self, ticket: Ticket) -> u64
        requires place { IsSome (map.get self.old.kept self.old.given) }
        requires more { self.old.given < 2 ^ 64 - 1 }
        ensures number { result ≡ self.old.given }
        ensures kept { self.new ≡ record {
          kept = map.insert self.old.kept self.old.given (Some ticket);
          given = self.old.given + 1;
        } }
    {
        let number = self.given;
        keep_ticket(&mut self.kept, number, ticket);
        self.given = number + 1;
        number
    }

    /// The ticket with a number.
    pub(crate) fn get(&self, number: u64) -> Option<&Ticket>
        ensures there { IfSome result (λ ticket. map.get self.now.kept number ≡ Some (Some ticket.now)) }
        ensures none { IfNone result ((ticket : TicketValue) → map.get self.now.kept number ≡ Some (Some ticket) → ⊥) }
    {
        match self.kept.get(u128::from(number)) {
            Some(Some(ticket)) => Some(ticket),
            _ => None,
        }
    }

    /// Removes the ticket with a number, and returns it.
    pub(crate) fn take(&mut self, number: u64) -> Option<Ticket>
        ensures there { IfSome result (λ ticket. map.get self.old.kept number ≡ Some (Some ticket)) }
        ensures none { IfNone result ((ticket : TicketValue) → map.get self.old.kept number ≡ Some (Some ticket) → ⊥) }
        ensures left { self.new ≡ record { kept = map.remove self.old.kept number; given = self.old.given } }
    {
        self.kept.remove(u128::from(number)).flatten()
    }
}

/// Puts a ticket in the place that was made for it.
fn keep_ticket(tickets: &mut NumberMap<Option<Ticket>>, number: u64, ticket: Ticket)
    requires { IsSome (map.get tickets.old number) }
    ensures { tickets.new ≡ map.insert tickets.old number (Some ticket) }
{
    if let Some(place) = tickets.get_mut(u128::from(number)) {
        drop(place.replace(ticket));
    } else {
        drop(ticket);
    }
}
