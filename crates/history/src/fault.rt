use std::alloc::AllocError;

/// Why an entry wasn't added. Nothing changed.
#[derive(Clone, Copy, Debug, PartialEq, Eq)]
pub enum AddFault {
    /// An allocation failed.
    NoMemory,
    /// The entry block has no cell left.
    BlockFull,
    /// The cell was set already: the history is longer.
    CellTaken,
}

impl From<AllocError> for AddFault {
    ghost use Rattle.std.specs.Prelude.{◌≡◌};
    ghost use Rattle.history.specs.declared.fault.AddFault.TheVariants.{NoMemory};

    ghost from_gives = { λ _ e. e ≡ NoMemory };

    fn from(_: AllocError) -> Self {
        AddFault::NoMemory
    }
}

/// Why nothing was learned of another prefix. Nothing changed.
#[derive(Clone, Copy, Debug, PartialEq, Eq)]
pub enum CatchUpFault {
    /// An allocation failed.
    NoMemory,
    /// They are in entry blocks of which it isn't known whether one leads to the other.
    Apart,
}

impl From<AllocError> for CatchUpFault {
    ghost use Rattle.std.specs.Prelude.{◌≡◌};
    ghost use Rattle.history.specs.declared.fault.CatchUpFault.TheVariants.{NoMemory};

    ghost from_gives = { λ _ e. e ≡ NoMemory };

    fn from(_: AllocError) -> Self {
        CatchUpFault::NoMemory
    }
}
