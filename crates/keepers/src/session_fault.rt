ghost use Rattle.std.specs.Prelude.{◌≡◌, ◌↔◌};

use system::SubmitFault;

/// Why a session's call wasn't made.
#[derive(Clone, Copy, Debug, PartialEq, Eq)]
pub enum SessionFault {
    /// An allocation failed.
    NoMemory,
    /// The epoch log takes no more records, and a step of the call has one.
    EpochFull,
    /// The session isn't known to be in the history that is kept: it has seen more, or is in another entry block.
    Apart,
    /// The entry block had no cell for the call's record: the cell was set before.
    NoCell,
}

impl SessionFault {
    /// Returns the fault as it is reported to the session's task: everything but out of memory is a full epoch.
    pub fn submit_fault(self) -> SubmitFault
        ensures { result ≡ SubmitFault.NoMemory ↔ (self ≡ SessionFault.NoMemory) }
    {
        match self {
            SessionFault::NoMemory => SubmitFault::NoMemory,
            SessionFault::EpochFull | SessionFault::Apart | SessionFault::NoCell =>
                SubmitFault::EpochFull,
        }
    }
}
