ghost use Rattle.std.specs.Prelude.{◌≡◌, ℕ, OnOk, OnErr};
ghost use Rattle.ipc_model.specs.declared.call.Call.{Call};
ghost use Rattle.ipc_model.specs.declared.reply.Reply.{Reply};

use ipc_model::{Call, Reply};
use std::alloc::AllocError;
use store_half::{EpochLog, Recorder};

/// Learns of the record of a call before the call is committed.
pub trait Witness {
    /// What it is after it learned of a call of a task of this space with this reply.
    ghost learned: { Self → ℕ → Call → Reply → Self → Type 0 };

    /// Learns of a record. If it can't, nothing changed, and the call isn't made.
    fn learn(&mut self, space: u32, call: &Call, reply: &Reply) -> Result<(), AllocError>
        ensures ok { OnOk result (learned self.old space call.now reply.now self.new) }
        ensures err { OnErr result (self.new ≡ self.old) };
}

/// Nobody learns of the record.
impl Witness for () {
    ghost learned = { λ old space c answer new. new ≡ old };

    fn learn(&mut self, _space: u32, _call: &Call, _reply: &Reply) -> Result<(), AllocError> {
        Ok(())
    }
}

/// An epoch log together with a witness: a record is written to both or to neither.
#[derive(Drop)]
pub(crate) struct Witnessed<W: Witness> {
    pub(crate) log: EpochLog,
    pub(crate) witness: W,
}

impl<W: Witness> Recorder for Witnessed<W> {
    ghost use Rattle.std.specs.Prelude.{◌-◌, ◌<◌, ◌^◌};
    ghost use Rattle.codes.specs.declared.limits.TheConstants.{MAX_RECORDS};
    ghost use Rattle.store_half.specs.epoch_log.Logs.{Wrote};

    ghost has_room = { λ w. (w.log.length < MAX_RECORDS) × (w.log.made < 2 ^ 64 - 1) };

    ghost wrote = { λ old space c answer new. Wrote old.log space c answer new.log
        × W.learned old.witness space c answer new.witness };

    fn write(&mut self, space: u32, call: &Call, reply: &Reply) -> Result<(), AllocError> {
        let size = self.log.push(space, call, reply)?;
        match self.witness.learn(space, call, reply) {
            Ok(()) => Ok(()),
            Err(refused) => {
                self.log.remove_last(size);
                Err(refused)
            }
        }
    }
}
