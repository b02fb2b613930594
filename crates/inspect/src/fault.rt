use crate::still_disk::CopyFault;
use std::alloc::AllocError;
use store_fault::StoreFault;
use wire::WireFault;

/// The reason why a store couldn't be printed.
#[derive(Clone, Copy, Debug, PartialEq, Eq)]
pub enum ListFault {
    /// The store couldn't be read.
    Store(StoreFault),
    /// A slot's front changed during each attempt to copy the store.
    Busy,
    /// The writer failed, or accepts no more bytes.
    Write,
}

impl From<StoreFault> for ListFault {
    ghost use Rattle.std.specs.Prelude.{◌≡◌};
    ghost use Rattle.inspect.specs.declared.fault.ListFault.TheVariants.{Store};

    ghost from_gives = { λ fault e. e ≡ Store fault };

    fn from(fault: StoreFault) -> Self {
        ListFault::Store(fault)
    }
}

impl From<CopyFault> for ListFault {
    ghost use Rattle.std.specs.Prelude.{◌≡◌};
    ghost use Rattle.inspect.specs.Looked.{of_copying};

    ghost from_gives = { λ fault e. e ≡ of_copying fault };

    fn from(fault: CopyFault) -> Self {
        match fault {
            CopyFault::Device => ListFault::Store(StoreFault::Device),
            CopyFault::NoMemory => ListFault::Store(StoreFault::NoMemory),
            CopyFault::Busy => ListFault::Busy,
        }
    }
}

impl From<AllocError> for ListFault {
    ghost use Rattle.std.specs.Prelude.{◌≡◌};
    ghost use Rattle.inspect.specs.declared.fault.ListFault.TheVariants.{Store};
    ghost use Rattle.store_fault.specs.declared.fault.StoreFault.TheVariants.{NoMemory};

    ghost from_gives = { λ _ e. e ≡ Store NoMemory };

    fn from(_: AllocError) -> Self {
        ListFault::Store(StoreFault::NoMemory)
    }
}

impl From<WireFault> for ListFault {
    ghost use Rattle.std.specs.Prelude.{◌≡◌};
    ghost use Rattle.inspect.specs.declared.fault.ListFault.TheVariants.{Write};

    ghost from_gives = { λ _ e. e ≡ Write };

    fn from(_: WireFault) -> Self {
        ListFault::Write
    }
}
