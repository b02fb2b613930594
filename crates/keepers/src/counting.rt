ghost use Rattle.std.specs.Prelude.{◌≡◌, ◌+◌, ◌<◌, ◌≤◌, Some, true, length, IfSome, is_some};
ghost use Rattle.history.specs.Entries.{Begins};
ghost use Rattle.history.specs.Pasts.{PastValue};
ghost use Rattle.ipc_model.specs.history.History.{places_of};
ghost use Rattle.keepers.specs.Belonging.{AllBelong, AllCanBelong, Belongs, CanBelong, Match, tasks_of};
ghost use Rattle.keepers.specs.Tokens.{IsHistory};

use crate::admissions::Admissions;
use crate::kernel_keeper::KernelKeeper;
use crate::session::{Session, SessionState};
use history::{Founding, Past};
use std::sync::ledger;
use std::sync::ledger::Share;

impl<L: Founding> KernelKeeper<L> {
    /// The history, if the prefix of it that the store's half knows and all of these sessions, by their numbers, belong
    /// to it. It takes no memory. The admissions tell how many sessions there are.
    ///
    /// `None`: the numbers don't ascend; a session or the store's half is ahead, or isn't seen to be in a prefix of the
    /// history; or more was acknowledged to a session than is stored.
    pub fn into_matched(
        self,
        known: Past<L>,
        stored: u64,
        sessions: Vec<Session<L>>,
        admissions: Admissions<L>,
    ) -> Option<Past<L>>
        ensures matched { IfSome result
            (λ past. Match L.base known.entries past.entries stored admissions sessions.items) }
        ensures own { IfSome result (λ past. self.core.past ≡ Some past) }
        ensures seen { (past : PastValue) → self.core.past ≡ Some past → known.blocks ≡ past.blocks
            → length known.entries ≤ length past.entries → AllCanBelong past stored 0 sessions.items
            → is_some result ≡ true }
    {
        match_all(self.into_tally(), known, stored, sessions, admissions)
    }
}

/// The whole history, and the book that counts its records.
#[derive(Drop)]
pub(crate) struct Tally<L: Founding> {
    pub(crate) past: Past<L>,
    pub(crate) book: ledger::Book<L>,
}

/// The history, if what the store's half knows and all of these sessions belong to it.
fn match_all<L: Founding>(
    tally: Tally<L>,
    known: Past<L>,
    stored: u64,
    sessions: Vec<Session<L>>,
    admissions: Admissions<L>,
) -> Option<Past<L>>
    requires history { IsHistory L.base tally.past.entries }
    requires counted { tally.book.total ≡ length tally.past.entries }
    ensures matched { IfSome result
        (λ past. Match L.base known.entries past.entries stored admissions sessions.items) }
    ensures own { IfSome result (λ past. past ≡ tally.past) }
    ensures seen { known.blocks ≡ tally.past.blocks → length known.entries ≤ length tally.past.entries
        → AllCanBelong tally.past stored 0 sessions.items → is_some result ≡ true }
{
    let Tally { past, book } = tally;
    let mut past = past;
    let mut known = known;
    let mut share = admissions.into_rest();
    let is_known = begins(&mut known, &mut past);
    drop(known);
    if !is_known || !count_all(sessions, stored, &mut past, &mut share) {
        drop(past);
        return None;
    }
    audit(book, share);
    Some(past)
}

/// Says how a share relates to its ledger. It does nothing when it runs.
fn audit<L: Founding>(book: ledger::Book<L>, share: Share<L>)
    ensures within { share.parts ≤ L.parts }
    ensures whole { share.parts ≡ L.parts → share.amount ≡ book.total }
{
    let mut book = book;
    let mut share = share;
    let none = share.empty();
    share.merge(none);
    book.audit(&mut share);
}

/// Returns whether one prefix of the history is seen to begin another.
fn begins<L: Founding>(short: &mut Past<L>, long: &mut Past<L>) -> bool
    ensures same { (short.new ≡ short.old) × (long.new ≡ long.old) }
    ensures begins { result ≡ true → Begins short.old.entries long.old.entries }
    ensures seen { short.old.blocks ≡ long.old.blocks → length short.old.entries ≤ length long.old.entries
        → result ≡ true }
{
    if long.len() < short.len() {
        return false;
    }
    short.agree(long)
}

/// Returns whether all of these sessions belong to a history of which `stored` records are stored. Their shares are
/// then added.
fn count_all<L: Founding>(
    sessions: Vec<Session<L>>,
    stored: u64,
    past: &mut Past<L>,
    share: &mut Share<L>,
) -> bool
    ensures same { past.new ≡ past.old }
    ensures belong { result ≡ true → AllBelong L.base past.old.entries stored 0 sessions.items }
    ensures parts { result ≡ true → share.old.parts + length sessions.items ≤ share.new.parts }
    ensures amount { result ≡ true
        → share.new.amount ≡ share.old.amount + length (places_of (tasks_of sessions.items)) }
    ensures seen { AllCanBelong past.old stored 0 sessions.items → result ≡ true }
{
    let mut last = 0;
    for session in sessions {
        let number = session.number();
        if !count(session, stored, last, past, share) {
            return false;
        }
        last = number;
    }
    true
}

/// Returns whether a session belongs to a history of which `stored` records are stored, and its number is greater than
/// the last one's. Its share is then added.
fn count<L: Founding>(
    session: Session<L>,
    stored: u64,
    last: u32,
    past: &mut Past<L>,
    share: &mut Share<L>,
) -> bool
    ensures same { past.new ≡ past.old }
    ensures belongs { result ≡ true → Belongs L.base past.old.entries stored last session }
    ensures parts { result ≡ true → share.old.parts < share.new.parts }
    ensures amount { result ≡ true → share.new.amount ≡ share.old.amount + length session.task.places }
    ensures seen { CanBelong past.old stored last session → result ≡ true }
{
    let Session {
        own_state,
        past: seen,
    } = session;
    let mut seen = seen;
    let SessionState {
        number,
        space: _,
        acknowledged,
        tickets: _,
        places: _,
        share: own,
    } = own_state;
    if number <= last || stored < acknowledged.count() {
        return false;
    }
    if !begins(&mut seen, past) {
        return false;
    }
    share.merge(own);
    true
}
