use codes::KernReturn;
use std::alloc::AllocError;

/// The reason why a message wasn't sent.
#[derive(Clone, Copy, Debug, PartialEq, Eq)]
pub enum SendFault {
    /// A test failed; the send is refused with this code.
    Refused(KernReturn),
    /// Out of memory.
    NoMemory,
}

impl From<AllocError> for SendFault {
    ghost use Rattle.std.specs.Prelude.{◌≡◌};
    ghost use Rattle.sending.specs.declared.fault.SendFault.TheVariants.{NoMemory};

    ghost from_gives = { λ _ e. e ≡ NoMemory };

    fn from(_: AllocError) -> Self {
        SendFault::NoMemory
    }
}
