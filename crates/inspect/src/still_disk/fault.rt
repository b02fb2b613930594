use disk::DiskFault;
use std::alloc::AllocError;

/// The reason why a store couldn't be copied.
#[derive(Clone, Copy, Debug, PartialEq, Eq)]
pub enum CopyFault {
    /// The device failed.
    Device,
    /// Out of memory.
    NoMemory,
    /// A slot's front changed during each attempt.
    Busy,
}

impl From<DiskFault> for CopyFault {
    ghost use Rattle.std.specs.Prelude.{◌≡◌};
    ghost use Rattle.inspect.specs.declared.still_disk.fault.CopyFault.TheVariants.{Device};

    ghost from_gives = { λ _ e. e ≡ Device };

    fn from(_: DiskFault) -> Self {
        CopyFault::Device
    }
}

impl From<AllocError> for CopyFault {
    ghost use Rattle.std.specs.Prelude.{◌≡◌};
    ghost use Rattle.inspect.specs.declared.still_disk.fault.CopyFault.TheVariants.{NoMemory};

    ghost from_gives = { λ _ e. e ≡ NoMemory };

    fn from(_: AllocError) -> Self {
        CopyFault::NoMemory
    }
}
