ghost use Rattle.std.specs.Prelude.{◌≡◌, ◌≢◌, ◌↔◌, false, IfOk, IfErr, IsErrOf, MatchBool, OnErr, OnOk};
ghost use Rattle.keepers.specs.Tokens.{IsAfter, Meets};

use crate::session::Session;
use history::{CatchUpFault, Founding, Past};

/// Why two sessions couldn't meet.
#[derive(Clone, Copy, Debug, PartialEq, Eq)]
pub enum MeetFault {
    /// An allocation failed.
    NoMemory,
    /// They have one number.
    SameNumber,
    /// They are in different entry blocks, and it isn't seen that one of them has seen a prefix of what the other has.
    Apart,
}

/// Two sessions that couldn't meet, as they were.
#[derive(Drop)]
pub struct Unmet<L: Founding> {
    pub fault: MeetFault,
    pub one: Session<L>,
    pub other: Session<L>,
}

/// Two sessions meet: both have then seen what either had, and no place belongs to both. It takes no lock.
///
/// With `Unmet` they come back as they were. `SameNumber` and `Apart` don't come for two sessions of one `Shared`,
/// which no clause says.
pub fn meet<L: Founding>(
    one: Session<L>,
    other: Session<L>,
) -> Result<(Session<L>, Session<L>), Unmet<L>>
    ensures met { IfOk result (λ met. Meets one other met.0 met.1) }
    ensures unmet { IfErr result (λ unmet. (unmet.one ≡ one) × (unmet.other ≡ other)) }
    ensures differ { OnOk result (one.number ≢ other.number) }
    ensures same { IfErr result (λ unmet. unmet.fault ≡ MeetFault.SameNumber ↔ (one.number ≡ other.number)) }
    ensures apart { IfErr result (λ unmet. unmet.fault ≡ MeetFault.Apart → one.past.blocks ≢ other.past.blocks) }
{
    let mut one = one;
    let mut other = other;
    if one.own_state.number == other.own_state.number {
        return Err(Unmet {
            fault: MeetFault::SameNumber,
            one,
            other,
        });
    }
    let fault = match one.learn_both(&mut other) {
        Ok(()) => return Ok((one, other)),
        Err(CatchUpFault::NoMemory) => MeetFault::NoMemory,
        Err(CatchUpFault::Apart) => MeetFault::Apart,
    };
    Err(Unmet { fault, one, other })
}

impl<L: Founding> Session<L> {
    /// The one that is behind learns what the other has seen. At a fault nothing changed.
    fn learn_both(&mut self, other: &mut Session<L>) -> Result<(), CatchUpFault>
        requires { self.old.number ≡ other.old.number → ⊥ }
        ensures met { OnOk result (Meets self.old other.old self.new other.new) }
        ensures unmet { OnErr result ((self.new ≡ self.old) × (other.new ≡ other.old)) }
        ensures apart { IsErrOf result CatchUpFault.Apart → self.old.past.blocks ≢ other.old.past.blocks }
    {
        if self.is_after(other) {
            return self.learn(other);
        }
        other.learn(self)
    }

    /// Returns whether it has seen no more than another.
    fn is_after(&self, other: &Session<L>) -> bool
        ensures { MatchBool result (IsAfter self.now.past other.now.past) (IsAfter other.now.past self.now.past) }
    {
        is_after(&self.past, &other.past)
    }

    /// Learns what another session has seen, which is no less. At a fault nothing changed.
    fn learn(&mut self, other: &mut Session<L>) -> Result<(), CatchUpFault>
        requires beyond { IsAfter self.old.past other.old.past }
        requires differ { self.old.number ≡ other.old.number → ⊥ }
        ensures met { OnOk result (Meets self.old other.old self.new other.new
            × Meets other.old self.old other.new self.new) }
        ensures unmet { OnErr result ((self.new ≡ self.old) × (other.new ≡ other.old)) }
        ensures apart { IsErrOf result CatchUpFault.Apart → self.old.past.blocks ≢ other.old.past.blocks }
    {
        self.past.catch_up(&mut other.past)
    }
}

/// Returns true if a prefix ends no further than another: in an earlier entry block, or in the same one with no more
/// entries.
pub(crate) fn is_after<L: Founding>(past: &Past<L>, other: &Past<L>) -> bool
    ensures is { MatchBool result (IsAfter past.now other.now) (IsAfter other.now past.now) }
    ensures beyond { result ≡ false → IsAfter past.now other.now → ⊥ }
{
    let own = past.blocks();
    let theirs = other.blocks();
    if own == theirs {
        return past.len() <= other.len();
    }
    own < theirs
}
