use codes::KernReturn;
use std::alloc::{AllocError, AllocFailed};

/// The reason why the items of a body can't be listed.
#[derive(Clone, Copy, Debug, PartialEq, Eq)]
pub enum ItemFault {
    /// The code of the leftmost fault in the body.
    Code(KernReturn),
    /// Out of memory.
    NoMemory,
}

impl From<KernReturn> for ItemFault {
    ghost use Rattle.std.specs.Prelude.{◌≡◌};
    ghost use Rattle.type_desc.specs.declared.fault.ItemFault.TheVariants.{Code};

    ghost from_gives = { λ code fault. fault ≡ Code code };

    fn from(code: KernReturn) -> Self {
        ItemFault::Code(code)
    }
}

impl From<AllocError> for ItemFault {
    ghost use Rattle.std.specs.Prelude.{◌≡◌};
    ghost use Rattle.type_desc.specs.declared.fault.ItemFault.TheVariants.{NoMemory};

    ghost from_gives = { λ _ fault. fault ≡ NoMemory };

    fn from(_: AllocError) -> Self {
        ItemFault::NoMemory
    }
}

impl<T: Drop> From<AllocFailed<T>> for ItemFault {
    ghost use Rattle.std.specs.Prelude.{◌≡◌};
    ghost use Rattle.type_desc.specs.declared.fault.ItemFault.TheVariants.{NoMemory};

    ghost from_gives = { λ _ fault. fault ≡ NoMemory };

    fn from(_: AllocFailed<T>) -> Self {
        ItemFault::NoMemory
    }
}
