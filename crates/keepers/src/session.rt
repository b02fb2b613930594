ghost use Rattle.std.specs.Prelude.{◌≡◌, ◌≢◌, ◌⊎◌, ◌+◌, ◌≤◌, ◌<◌, Some, true, is_some, length, option_map, slice_get, IfOk, IfErr, IsErrOf, MatchOption, OnOk, OnErr};
ghost use Rattle.codes.specs.declared.limits.TheConstants.{MAX_FRAME_CONTENT};
ghost use Rattle.ipc_model.specs.history.History.{detached, looked, redemption};
ghost use Rattle.ipc_model.specs.encodings.Encodings.{reply_encoding};
ghost use Rattle.keepers.specs.Destroying.{IsGoneSince, WasIn};
ghost use Rattle.keepers.specs.Tokens.{Did, IsAfter, attached_to};

use crate::acknowledged::Acknowledged;
use crate::latest::Latest;
use crate::meeting::is_after;
use boxcar::tag::Tag;
use codes::NO_SPACE;
use history::{CatchUpFault, EntryNote, Founding, Mark, Past, Stored};
use ipc_model::{Record, Reply};
use std::marker::Model;
use std::sync::ledger::Share;
use system::Ticket;

/// A session without what it has seen.
#[derive(Drop)]
pub(crate) struct SessionState<L: Founding> {
    pub(crate) number: u32,
    pub(crate) space: u32,
    pub(crate) acknowledged: Acknowledged<L>,

    // Ghost: for each ticket that its calls were given, how many records its reply saw, and where its own records
    // stand. The share's amount counts these.
    pub(crate) tickets: Tag,
    pub(crate) places: Tag,
    pub(crate) share: Share<L>,
}

/// A session: the token of all that its task has seen of the history. Each call consumes it and returns it with what
/// was seen.
#[derive(Drop)]
pub struct Session<L: Founding> {
    pub(crate) own_state: SessionState<L>,
    pub(crate) past: Past<L>,
}

impl<L: Founding> Model for Session<L> {
    ghost use Rattle.std.specs.Prelude.{◌<◌, length};
    ghost use Rattle.keepers.specs.Tokens.{SessionValue, IsSession, session_code, session_of};

    ghost Value = { SessionValue };

    ghost coded = { session_code };

    ghost view = { λ s. session_of s.own_state.number s.own_state.space s.own_state.acknowledged
        s.own_state.tickets.numbers
        s.own_state.places.numbers s.past };

    ghost invariant = { λ s. IsSession L.base (session_of s.own_state.number s.own_state.space s.own_state.acknowledged
        s.own_state.tickets.numbers s.own_state.places.numbers s.past) s.own_state.share.amount
        × (0 < s.own_state.share.parts) };
}

impl<L: Founding> Session<L> {
    /// Its number, which no other session of its history has.
    pub fn number(&self) -> u32
        ensures { result ≡ self.now.number }
    {
        self.own_state.number
    }

    /// The space that its task is attached to.
    pub fn space(&self) -> u32
        ensures { result ≡ self.now.task.space }
    {
        self.own_state.space
    }

    /// Returns how many records of the history it has seen.
    pub fn seen(&self) -> usize
        ensures { result ≡ self.now.task.seen }
    {
        self.past.len()
    }

    /// Returns how many records of the history were acknowledged to its task: the most that a redeemed reply saw.
    pub fn acknowledged(&self) -> u64
        ensures { result ≡ self.now.task.acknowledged }
    {
        self.own_state.acknowledged.count()
    }

    /// That as many are stored as were acknowledged to its task.
    pub fn stored(&mut self, mark: &Mark<L>) -> Stored<L>
        ensures same { self.new ≡ self.old }
        ensures stored { self.old.task.acknowledged ≤ result }
    {
        self.own_state.acknowledged.stored(mark)
    }

    /// The reply of a ticket of this session, if its call saw only records that are known to be stored; else the ticket
    /// comes back. What was acknowledged to the session is stored (`stored`, and `StoreKeeper::covers`).
    pub fn redeem(self, ticket: Ticket, stored: Stored<L>) -> (Self, Result<Reply, Ticket>)
        ensures redeemed { IfOk result.1
            (λ reply. (reply ≡ ticket.answer) × Did L.base self (redemption self.task ticket.seen) result.0) }
        ensures stored { IfOk result.1 (λ reply. ticket.seen ≤ stored) }
        ensures fits { IfOk result.1 (λ reply. length (reply_encoding reply) ≤ MAX_FRAME_CONTENT) }
        ensures back { IfErr result.1 (λ kept. (kept ≡ ticket) × (result.0 ≡ self)) }
        ensures early { OnErr result.1 ((self.task.seen < ticket.seen) ⊎ (stored < ticket.seen)) }
    {
        let mut session = self;
        let seen = ticket.seen();
        if seen > session.past.len() as u64 {
            return (session, Err(ticket));
        }
        match ticket.redeem(stored.count()) {
            Ok(reply) => {
                session.own_state.acknowledged.add(seen, stored);
                (session, Ok(reply))
            }
            Err(ticket) => (session, Err(ticket)),
        }
    }

    /// Shows that a session that has seen no more has looked. It does nothing else.
    pub fn show_looked(&self)
        ensures { Did L.base self.now looked self.now }
    {
        let _ = &self.own_state;
    }

    /// Its space was destroyed: its task is attached to none from then on, also where a new space gets the number.
    pub(crate) fn detach(self) -> Self
        requires { IsGoneSince 0 self.task.space (Some self.past.entries) }
        ensures detached { Did L.base self detached result }
        ensures past { result.past ≡ self.past }
    {
        let mut session = self;
        session.own_state.space = NO_SPACE;
        session
    }

    /// Returns the session to the space that it was detached from.
    pub(crate) fn attach_to(self, space: u32) -> Self
        requires { WasIn L.base space self }
        ensures { result ≡ attached_to space self }
    {
        let mut session = self;
        session.own_state.space = space;
        session
    }

    /// Learns what others did meanwhile, and moves on to the entry block of `latest`, so that the block that it saw last
    /// can be freed. A session that has seen more stays as it was. It takes neither lock nor memory.
    ///
    /// At an error nothing changed. `Apart` doesn't come for a prefix of the history of its `Shared`, which no clause
    /// says.
    pub fn catch_up(&mut self, latest: &mut Latest<L>) -> Result<(), CatchUpFault>
        ensures looked { Did L.base self.old looked self.new }
        ensures caught { OnOk result (IsAfter self.old.past latest.old
            → (self.new.past.entries ≡ latest.old.entries) × (self.new.past.blocks ≡ latest.old.blocks)) }
        ensures ahead { (IsAfter self.old.past latest.old → ⊥) → self.new ≡ self.old }
        ensures apart { IsErrOf result CatchUpFault.Apart → self.old.past.blocks ≢ latest.old.blocks }
        ensures same { latest.new ≡ latest.old }
        ensures err { OnErr result (self.new ≡ self.old) }
    {
        if !is_after(&self.past, &latest.past) {
            return Ok(());
        }
        self.past.catch_up(&mut latest.past)
    }

    /// Returns what it knows of the record at a place of the entry block that it saw last, or `None` if it has seen none
    /// there. It takes neither lock nor memory.
    pub fn note(&mut self, at: usize) -> Option<EntryNote>
        ensures same { self.new ≡ self.old }
        ensures note { MatchOption result (length self.old.past.entries ≤ self.old.past.start + at)
            (λ note. (slice_get self.old.past.block.cells at ≡ Some note.cell)
            × (slice_get self.old.past.entries (self.old.past.start + at) ≡ note.known)
            × (is_some note.known ≡ true)) }
    {
        self.past.note(at)
    }

    /// Returns the record of which it has this note. It takes neither lock nor memory.
    pub fn record(&self, at: usize, note: EntryNote) -> &Record
        requires cell { slice_get self.now.past.block.cells at ≡ Some note.cell }
        requires known { is_some note.known ≡ true }
        ensures { option_map (λ e. e.record) note.known ≡ Some result.now }
    {
        self.past.record(at, note)
    }
}
