ghost use Rattle.std.specs.Prelude.{◌≡◌, ◌+◌, IfSome, IfNone};
ghost use Rattle.keepers.specs.declared.admissions.TheConstants.{MOST_SESSIONS};

use history::Founding;
use std::marker::Model;
use std::sync::ledger::{Blank, Book, Share};

/// How many sessions one history gives at most.
pub const MOST_SESSIONS: u32 = u32::MAX;

/// The admissions of a history's sessions: how many were given and how many are left, each of which has a part of the
/// ledger. Whoever begins sessions holds them, and not what lies under a lock, so that no session is begun without one.
/// Contracts see how many were given.
#[derive(Drop)]
pub struct Admissions<L: Founding> {
    given: u32,
    left: u32,
    rest: Share<L>,
}

impl<L: Founding> Model for Admissions<L> {
    ghost use Rattle.std.specs.Prelude.{◌≡◌, ℕ, ◌+◌};
    ghost use Rattle.keepers.specs.declared.admissions.TheConstants.{MOST_SESSIONS};

    ghost Value = { ℕ };

    ghost view = { λ a. a.given };

    ghost invariant = { λ a. (a.given + a.left ≡ L.parts) × (L.parts ≡ MOST_SESSIONS) × (a.rest.parts ≡ a.left)
        × (a.rest.amount ≡ 0) };
}

/// The admission of one session: its number, and its part of the ledger. Contracts see the number.
#[derive(Drop)]
pub struct Admission<L: Founding> {
    pub(crate) number: u32,
    pub(crate) share: Share<L>,
}

impl<L: Founding> Model for Admission<L> {
    ghost use Rattle.std.specs.Prelude.{◌≡◌, ℕ};

    ghost Value = { ℕ };

    ghost view = { λ a. a.number };

    ghost invariant = { λ a. (a.share.parts ≡ 1) × (a.share.amount ≡ 0) };
}

impl<L: Founding> Admissions<L> {
    /// The ledger of a history: the book that counts the records of all sessions, and all admissions, none of them
    /// given.
    pub fn open(blank: Blank) -> (Book<L>, Admissions<L>)
        requires blank { (blank.name ≡ L.name) × (blank.parts ≡ L.parts) × (L.parts ≡ MOST_SESSIONS) }
        ensures book { result.0.total ≡ 0 }
        ensures none { result.1 ≡ 0 }
    {
        let (book, rest) = blank.open::<L>();
        (
            book,
            Admissions {
                given: 0,
                left: MOST_SESSIONS,
                rest,
            },
        )
    }

    /// The next admission, if one is left.
    pub fn next(&mut self) -> Option<Admission<L>>
        ensures next { IfSome result (λ admission. (admission ≡ self.old + 1) × (self.new ≡ self.old + 1)) }
        ensures spent { IfNone result ((self.old ≡ MOST_SESSIONS) × (self.new ≡ self.old)) }
    {
        if self.left == 0 {
            return None;
        }
        self.left -= 1;
        self.given += 1;
        let share = self.rest.split_off(1, 0);
        Some(Admission {
            number: self.given,
            share,
        })
    }

    /// Returns how many were given.
    pub fn given(&self) -> u32
        ensures { result ≡ self.now }
    {
        self.given
    }

    /// The parts of the ledger that are left.
    pub(crate) fn into_rest(self) -> Share<L>
        ensures parts { self + result.parts ≡ L.parts }
        ensures amount { result.amount ≡ 0 }
    {
        let Admissions {
            given: _,
            left: _,
            rest,
        } = self;
        rest
    }
}
