ghost use Rattle.std.specs.Prelude.{◌≡◌};

use crate::SessionFault;
use history::{AddFault, Entry, Founding, Past};
use ipc_model::{Call, Reply};
use std::alloc::{AllocError, Global};
use std::marker::Model;
use system::{SubmitFault, Witness};

/// The two that learn of a record before its call is committed: the keeper of the kernel, and the session that makes
/// the call. Both know the same.
#[derive(Drop)]
pub(crate) struct BothPasts<L: Founding> {
    pub(crate) alloc: Global,
    pub(crate) number: u32,
    pub(crate) kept: Past<L>,
    pub(crate) mine: Past<L>,

    // True once the entry block had no cell for the record.
    pub(crate) lacks_cell: bool,
}

impl<L: Founding> Model for BothPasts<L> {
    ghost use Rattle.std.specs.Prelude.{◌≡◌, length};
    ghost use Rattle.keepers.specs.Keeping.{BothPastsValue, both_pasts_code};

    ghost Value = { BothPastsValue };

    ghost coded = { both_pasts_code };

    ghost view = { λ b. record { number = b.number; kept = b.kept; mine = b.mine } };

    ghost invariant = { λ b. (b.kept.blocks ≡ b.mine.blocks) × (length b.kept.entries ≡ length b.mine.entries) };
}

impl<L: Founding> Witness for BothPasts<L> {
    ghost use Rattle.keepers.specs.Keeping.{both_learned};

    ghost learned = { λ old space c answer new. new ≡ both_learned old space c answer };

    fn learn(&mut self, space: u32, call: &Call, reply: &Reply) -> Result<(), AllocError> {
        let entry = Entry::new(self.alloc, self.number, space, call, reply)?;
        match self.kept.add_to_both(&mut self.mine, entry) {
            Ok(()) => Ok(()),
            Err(fault) => {
                self.lacks_cell = fault != AddFault::NoMemory;
                Err(AllocError)
            }
        }
    }
}

impl<L: Founding> BothPasts<L> {
    /// Returns why a call wasn't made that the half refused with this fault.
    pub(crate) fn session_fault(&self, fault: SubmitFault) -> SessionFault
        ensures full { result ≡ SessionFault.EpochFull → fault ≡ SubmitFault.EpochFull }
        ensures apart { result ≡ SessionFault.Apart → ⊥ }
    {
        match fault {
            SubmitFault::EpochFull => SessionFault::EpochFull,
            SubmitFault::NoMemory => {
                if self.lacks_cell {
                    SessionFault::NoCell
                } else {
                    SessionFault::NoMemory
                }
            }
        }
    }
}
