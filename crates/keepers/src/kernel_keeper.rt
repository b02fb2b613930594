ghost use Rattle.std.specs.Prelude.{◌≡◌, ℕ, ◌+◌, ◌<◌, ◌≤◌, ◌∷◌, [], ◌++◌, Some, false, length, IfOk, IfErr, IfSome, IfNone, IsErrOf, MatchBool, MatchOption, OnErr, OnOk};
ghost use Rattle.codes.specs.declared.name.TheConstants.{FIRST_SPACE};
ghost use Rattle.ipc_model.specs.history.History.{called, looked, space_after};
ghost use Rattle.ipc_model.specs.state.Circular.{Acyclic};
ghost use Rattle.ipc_model.specs.state.LawfulState.{LawfulState};
ghost use Rattle.keepers.specs.Destroying.{MadeSince, SettlesBy, SettlesExactly, count_at};
ghost use Rattle.keepers.specs.Keeping.{Ends, IsApart, IsSame, Loads, MadeAfter, Makes, blocks_in, entries_in, first_core};
ghost use Rattle.keepers.specs.Tokens.{Did, IsHistory};
ghost use Rattle.system.specs.Halves.{CanCut, CannotTake, IsFullFor, with_receipt};
ghost use Rattle.waiting.specs.Places.{names};
ghost use Rattle.waiting.specs.CallPlaces.{places_of_call};
ghost use Rattle.waiting.specs.Waiting.{Wakes};

use crate::SessionFault;
use crate::acknowledged::Acknowledged;
use crate::admissions::Admission;
use crate::counting::Tally;
use crate::destructions::Destructions;
use crate::latest::Latest;
use crate::load::{End, Load};
use crate::making::KernelCore;
use crate::session::{Session, SessionState};
use boxcar::tag::{Names, Tag};
use codes::FIRST_SPACE;
use history::{EntryBlock, Founding, Past, Stored};
use ipc_model::Call;
use std::alloc::{AllocError, Global};
use std::marker::Model;
use std::sync::Arc;
use std::sync::ledger::Book;
use store_half::{Finished, Receipt};
use system::{Kernel, Ticket};
use waiting::Places;

/// What lies under the lock of the kernel: the half that makes calls together with the history, and the book that
/// counts all sessions' records.
pub struct KernelKeeper<L: Founding> {
    core: KernelCore<L>,
    book: Book<L>,
    destructions: Destructions,
}

// Written out, so that proofs above know one function and not its parts.
impl<L: Founding> Drop for KernelKeeper<L> {
    fn drop(self) {
        let KernelKeeper {
            core,
            book,
            destructions,
        } = self;
        drop(core);
        drop(book);
        drop(destructions);
    }
}

impl<L: Founding> Model for KernelKeeper<L> {
    ghost use Rattle.std.specs.Prelude.{◌≡◌};
    ghost use Rattle.keepers.specs.Destroying.{TellsOf};
    ghost use Rattle.keepers.specs.Keeping.{KernelKeeperValue, entries_in, keeper_code};

    ghost Value = { KernelKeeperValue };

    ghost coded = { keeper_code };

    ghost view = { λ k. record { core = k.core } };

    ghost invariant = { λ k. (k.book.total ≡ k.core.half.log.made) × TellsOf k.destructions (entries_in k.core) };
}

impl<L: Founding> KernelKeeper<L> {
    /// Continues from a state in an epoch whose segment holds `records` records, with the history that begins here.
    pub fn new(
        alloc: Global,
        kernel: Kernel,
        epoch: u64,
        records: u64,
        past: Past<L>,
        book: Book<L>,
        destructions: Destructions,
    ) -> Self
        requires base { (kernel ≡ L.base) × LawfulState L.base × Acyclic L.base.ipc }
        requires none { (past.entries ≡ []) × (book.total ≡ 0) }
        requires undestroyed { (space : ℕ) → count_at destructions space ≡ 0 }
        ensures { result ≡ record { core = first_core kernel epoch records past } }
    {
        KernelKeeper {
            core: KernelCore::new(alloc, kernel, epoch, records, past),
            book,
            destructions,
        }
    }

    /// Makes a call of a session. The session has then seen all of the history; even if the call isn't made, it may
    /// have seen more than before.
    ///
    /// It names the places at which the call may have given a waiting call something to do: no wake-up is lost.
    ///
    /// If the entry block has no cell for the call's record (`NoCell`), no clause says why: contracts don't see whether a
    /// cell was set.
    pub fn submit(
        &mut self,
        session: Session<L>,
        call: &Call,
        places: &mut Places,
    ) -> (Session<L>, Result<Ticket, SessionFault>)
        ensures wakes { IfOk result.1
            (λ ticket. Wakes self.old.core.half.kernel.ipc self.new.core.half.kernel.ipc (names places.new)) }
        ensures given { IfOk result.1 (λ ticket. Did L.base session (called call.now ticket.answer) result.0
            × (ticket.seen ≡ result.0.task.seen)) }
        ensures after { IfOk result.1 (λ ticket. MatchOption (entries_in self.old.core) ⊥
            (λ before. MadeAfter L.base before session call.now ticket result.0)) }
        ensures makes { IfOk result.1
            (λ ticket. Makes self.old.core session.number session.task.space call.now ticket self.new.core) }
        ensures full { IsErrOf result.1 SessionFault.EpochFull → IsFullFor self.old.core.half session.task.space call.now }
        ensures apart { IsErrOf result.1 SessionFault.Apart → IsApart self.old.core.past session.past }
        ensures err { OnErr result.1 (Did L.base session looked result.0 × (self.new ≡ self.old)) }
    {
        let Session { own_state, past } = session;
        let before = self.core.made();
        let space = own_state.space;
        let (past, made) = self.core.apply(own_state.number, space, past, call, places);
        match made {
            Ok(ticket) => {
                let mut own_state = own_state;
                note_call(
                    &mut own_state,
                    &mut self.book,
                    before,
                    past.len(),
                    call,
                    &ticket,
                );
                self.destructions
                    .note(space, call, before, past.len() as u64);
                (Session { own_state, past }, Ok(ticket))
            }
            Err(fault) => (Session { own_state, past }, Err(fault)),
        }
    }
}

impl<L: Founding> KernelKeeper<L> {
    /// Makes a call of a session as `submit` does. If the session is confined since so many records were made, it is
    /// settled first, by all of the history: the call is made in the very space that it was confined to, or in none. If
    /// the call isn't made, the session stays in its space, and may have seen more.
    pub fn submit_since(
        &mut self,
        session: Session<L>,
        since: Option<u64>,
        call: &Call,
        places: &mut Places,
    ) -> (Session<L>, Result<Ticket, SessionFault>)
        ensures wakes { IfOk result.1
            (λ ticket. Wakes self.old.core.half.kernel.ipc self.new.core.half.kernel.ipc (names places.new)) }
        ensures made { IfOk result.1 (λ ticket. MadeSince L.base since session call.now ticket result.0) }
        ensures err { OnErr result.1 (Did L.base session looked result.0 × (self.new ≡ self.old)) }
    {
        let space = session.own_state.space;
        let (session, settled) = self.settle_since(session, since);
        if let Err(fault) = settled {
            return (session, Err(fault));
        }
        let (session, made) = self.submit(session, call, places);
        match made {
            Ok(ticket) => (session, Ok(ticket)),
            Err(fault) => (session.attach_to(space), Err(fault)),
        }
    }

    /// Returns the session with which a call is made now. At a fault the session stays in its space.
    fn settle_since(
        &mut self,
        session: Session<L>,
        since: Option<u64>,
    ) -> (Session<L>, Result<(), SessionFault>)
        ensures same { self.new ≡ self.old }
        ensures settled { OnOk result.1 (SettlesBy L.base since (entries_in self.old.core) session result.0) }
        ensures err { OnErr result.1 (Did L.base session looked result.0) }
    {
        match since {
            Some(count) => self.settle(session, count),
            None => (session, Ok(())),
        }
    }

    /// Settles the session of a task that is confined to its space since so many records were made. If the space was
    /// destroyed after these, the session learns all of the history and is detached, whether or not there is a new space
    /// under the number.
    fn settle(&mut self, session: Session<L>, since: u64) -> (Session<L>, Result<(), SessionFault>)
        ensures same { self.new ≡ self.old }
        ensures settled { OnOk result.1 (SettlesExactly L.base since (entries_in self.old.core) session result.0) }
        ensures err { OnErr result.1 (Did L.base session looked result.0) }
    {
        if !self.destructions.has_since(session.own_state.space, since) {
            return (session, Ok(()));
        }
        let (session, learned) = self.show(session);
        match learned {
            Ok(()) => (session.detach(), Ok(())),
            Err(fault) => (session, Err(fault)),
        }
    }

    /// Makes a session learn all of the history.
    fn show(&mut self, session: Session<L>) -> (Session<L>, Result<(), SessionFault>)
        ensures same { self.new ≡ self.old }
        ensures looked { Did L.base session looked result.0 }
        ensures level { OnOk result.1 (entries_in self.old.core ≡ Some result.0.past.entries) }
    {
        let Session { own_state, past } = session;
        let mut past = past;
        let learned = self.core.show(&mut past);
        (Session { own_state, past }, learned)
    }

    /// The places where a call of a session waits if it finds nothing to do. `None`: an allocation failed, or it is a
    /// send that is refused whatever its names stand for.
    pub fn places_of_call(&self, session: &Session<L>, call: &Call) -> Option<Vec<u128>>
        ensures { IfSome result (λ places. places.items
            ≡ places_of_call self.now.core.half.kernel session.now.task.space call.now) }
    {
        self.core
            .kernel()
            .places_of_call(session.own_state.space, call)
    }

    /// A new session, of a task that is attached to space 1. It has seen all of the history. If an allocation fails,
    /// the admission comes back.
    pub fn session(
        &mut self,
        admission: Admission<L>,
        stored: Stored<L>,
    ) -> Result<Session<L>, Admission<L>>
        ensures new { IfOk result (λ session. (session.task.space ≡ FIRST_SPACE) × (session.task.acknowledged ≡ 0)
            × (session.task.tickets ≡ []) × (session.task.places ≡ [])) }
        ensures next { IfOk result (λ session. (session.number ≡ admission)
            × (entries_in self.old.core ≡ Some session.past.entries)) }
        ensures same { self.new ≡ self.old }
        ensures err { IfErr result (λ back. back ≡ admission) }
    {
        let Ok(past) = self.core.again() else {
            return Err(admission);
        };
        let Admission { number, share } = admission;
        let own_state = SessionState {
            number,
            space: FIRST_SPACE,
            acknowledged: Acknowledged::none(stored),
            tickets: Tag::empty(),
            places: Tag::empty(),
            share,
        };
        Ok(Session { own_state, past })
    }
}

impl<L: Founding> KernelKeeper<L> {
    /// All of the history, and the book that counts its records.
    pub(crate) fn into_tally(self) -> Tally<L>
        ensures past { self.core.past ≡ Some result.past }
        ensures history { IsHistory L.base result.past.entries }
        ensures counted { result.book.total ≡ length result.past.entries }
    {
        let KernelKeeper {
            core,
            book,
            destructions,
        } = self;
        drop(destructions);
        Tally {
            past: core.into_past(),
            book,
        }
    }

    /// Takes records that wait to be stored, with the history up to them. `None` while a load is out, or if no record
    /// waits. If an allocation fails, nothing changed.
    pub fn take(&mut self) -> Result<Option<Load<L>>, AllocError>
        ensures taken { IfOk result (λ load. IfSome load
            (λ load. Loads self.old.core load self.new.core)) }
        ensures none { IfOk result (λ load. IfNone load (CannotTake self.old.core.half × (self.new ≡ self.old))) }
        ensures err { OnErr result (self.new ≡ self.old) }
    {
        self.core.take()
    }

    /// Learns that the load that was out is stored. A receipt of more records than were taken changes nothing.
    pub fn durable(&mut self, receipt: Receipt)
        ensures known { receipt + self.old.core.half.handed ≤ self.old.core.taken
            → self.new ≡ record self.old {
              core = record self.old.core
                  { half = with_receipt self.old.core.half receipt };
            } }
        ensures unknown { self.old.core.taken < receipt + self.old.core.half.handed → self.new ≡ self.old }
    {
        self.core.durable(receipt);
    }

    /// Begins the next epoch, whose entries go into this entry block, with a snapshot of the state. `None` while a
    /// checkpoint is under way or records of the previous epoch wait, and in the last epoch; then, and if an allocation
    /// fails, no call is undone and none is lost, but the history may go on in the block.
    pub fn cut(&mut self, block: Arc<EntryBlock, Global>) -> Result<Option<End<L>>, AllocError>
        ensures cut { IfOk result (λ end. IfSome end (λ end. Ends self.old.core end self.new.core)) }
        ensures not_now { IfOk result
            (λ end. IfNone end ((CanCut self.old.core.half → ⊥) × IsSame self.old.core self.new.core)) }
        ensures err { OnErr result (IsSame self.old.core self.new.core) }
    {
        self.core.cut(block)
    }

    /// Returns all of the history, for sessions to catch up with.
    pub fn latest(&mut self) -> Result<Latest<L>, AllocError>
        ensures same { self.new ≡ self.old }
        ensures entries { IfOk result (λ latest. entries_in self.old.core ≡ Some latest.entries) }
        ensures block { IfOk result (λ latest. blocks_in self.old.core ≡ Some latest.blocks) }
    {
        let past = self.core.again()?;
        Ok(Latest { past })
    }

    /// Learns that a checkpoint is over.
    pub fn finished(&mut self, receipt: Finished)
        ensures { self.new ≡ record self.old
            { core = record self.old.core { half = record self.old.core.half { is_cut = false } } } }
    {
        self.core.finished(receipt);
    }

    /// Returns how many records were made since the store was opened.
    pub fn made(&self) -> u64
        ensures { result ≡ self.now.core.half.log.made }
    {
        self.core.made()
    }

    /// Returns whether records wait to be taken.
    pub fn is_waiting(&self) -> bool
        ensures { MatchBool result (self.now.core.taken < self.now.core.half.log.made)
            (self.now.core.half.log.made ≤ self.now.core.taken) }
    {
        self.core.is_waiting()
    }

    /// Returns how many records the epoch log has.
    pub fn log_length(&self) -> u64
        ensures { result ≡ self.now.core.half.log.length }
    {
        self.core.log_length()
    }
}

/// Notes on a session's card that it made a call, after which there are `after` records, all of which its ticket's
/// reply saw: one of its own, which the book counts, or none.
fn note_call<L: Founding>(
    own_state: &mut SessionState<L>,
    book: &mut Book<L>,
    before: u64,
    after: usize,
    call: &Call,
    ticket: &Ticket,
)
    requires { 0 < own_state.old.share.parts }
    ensures given { own_state.new.tickets.numbers ≡ own_state.old.tickets.numbers ++ after ∷ [] }
    ensures same { (own_state.new.number ≡ own_state.old.number)
        × (own_state.new.acknowledged ≡ own_state.old.acknowledged)
        × (own_state.new.share.parts ≡ own_state.old.share.parts) }
    ensures recorded { before < after → (own_state.new.space ≡ own_state.old.space)
        × (own_state.new.places.numbers ≡ own_state.old.places.numbers ++ before ∷ [])
        × (own_state.new.share.amount ≡ own_state.old.share.amount + 1) × (book.new.total ≡ book.old.total + 1) }
    ensures answered { after ≤ before
        → (own_state.new.space ≡ space_after own_state.old.space call.now ticket.now.answer)
        × (own_state.new.places.numbers ≡ own_state.old.places.numbers)
        × (own_state.new.share.amount ≡ own_state.old.share.amount) × (book.new.total ≡ book.old.total) }
{
    let tickets = std::mem::replace(&mut own_state.tickets, Tag::empty());
    own_state.tickets = with_place(tickets, after as u64);
    if before < after as u64 {
        let places = std::mem::replace(&mut own_state.places, Tag::empty());
        own_state.places = with_place(places, before);
        book.add(&mut own_state.share, 1);
    } else if ticket.is_success() {
        own_state.space = call.attached_by(own_state.space);
    }
}

/// Adds one number to a ghost list of numbers. It does nothing when it runs.
fn with_place(places: Tag, place: u64) -> Tag
    ensures { result.numbers ≡ places.numbers ++ place ∷ [] }
{
    let placing = Placing { places, place };
    let tag = Tag::of::<Placing, OneMore>(&placing);
    let Placing {
        places: _,
        place: _,
    } = placing;
    tag
}

/// Numbers, and one more.
struct Placing {
    places: Tag,
    place: u64,
}

struct OneMore;

impl Names<Placing> for OneMore {
    ghost use Rattle.std.specs.Prelude.{◌∷◌, [], ◌++◌};

    ghost numbers = { λ p. p.places.numbers ++ p.place ∷ [] };
}
