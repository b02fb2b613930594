ghost use Rattle.std.specs.Prelude.{◌≡◌, IfOk};

use history::{Founding, Past};
use std::alloc::AllocError;
use std::marker::Model;

/// A prefix of the history that sessions catch up with. It keeps the entry block in which the prefix ends. Contracts
/// see the prefix.
#[derive(Drop)]
pub struct Latest<L: Founding> {
    pub(crate) past: Past<L>,
}

impl<L: Founding> Model for Latest<L> {
    ghost use Rattle.history.specs.Pasts.{PastValue, past_code};
    ghost use Rattle.keepers.specs.Tokens.{IsHistory};

    ghost Value = { PastValue };

    ghost coded = { past_code };

    ghost view = { λ l. l.past };

    ghost invariant = { λ l. IsHistory L.base l.past.entries };
}

impl<L: Founding> Latest<L> {
    /// Returns the same prefix once more.
    pub fn again(&mut self) -> Result<Self, AllocError>
        ensures same { self.new ≡ self.old }
        ensures latest { IfOk result (λ latest. latest ≡ self.old) }
    {
        let past = self.past.again()?;
        Ok(Latest { past })
    }

    /// Returns true if nothing else holds its entry block, which is freed with it then.
    pub fn owns_block(&self) -> bool {
        self.past.owns_block()
    }
}
