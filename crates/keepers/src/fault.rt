use store_fault::StoreFault;

/// Why a load wasn't stored.
#[derive(Clone, Copy, Debug, PartialEq, Eq)]
pub enum NotStored {
    /// It isn't the next one, or its segment isn't open yet. Nothing of the store changed.
    NotNow,
    /// An allocation failed. Nothing changed.
    NoMemory,
    /// The store failed.
    Store(StoreFault),
}

/// Why a checkpoint wasn't begun. Nothing of the store changed.
#[derive(Clone, Copy, Debug, PartialEq, Eq)]
pub enum NotBegun {
    /// The store failed, one is under way, or the state isn't of the end of the epoch in use.
    NotNow,
    /// An allocation failed.
    NoMemory,
}
