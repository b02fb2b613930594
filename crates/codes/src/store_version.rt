ghost use Rattle.std.specs.Prelude.{◌≡◌, IfNone, IfSome};
ghost use Rattle.codes.specs.StoreVersion.{IsNoVersion, current, greatest_limit, version_number};

use crate::MAX_QUEUE_LIMIT;

/// A version of the encoding of a store's slots. Each slot's header names the version in which the slot is encoded.
/// Servers write version 2; until 2026-11-29 they wrote version 1.
#[derive(Clone, Copy, Debug, PartialEq, Eq)]
pub enum StoreVersion {
    /// Queues of at most 16 messages.
    One = 1,
    /// Queues of at most 64 messages, and for each space the number of its last request.
    Two = 2,
}

impl StoreVersion {
    /// Returns the version in which slots are written.
    pub fn current() -> StoreVersion
        ensures { result ≡ current }
    {
        StoreVersion::Two
    }

    /// Returns the version's number, as a slot's header contains it.
    pub fn number(self) -> u8
        ensures { result ≡ version_number self }
    {
        self as u8
    }

    /// Returns the version with this number, or `None` if there is none.
    pub fn from_number(number: u8) -> Option<StoreVersion>
        ensures known { IfSome result (λ version. version_number version ≡ number) }
        ensures unknown { IfNone result (IsNoVersion number) }
    {
        match number {
            1 => Some(StoreVersion::One),
            2 => Some(StoreVersion::Two),
            _ => None,
        }
    }

    /// Returns the maximum queue limit of a port in this version.
    pub fn greatest_limit(self) -> u32
        ensures { result ≡ greatest_limit self }
    {
        match self {
            StoreVersion::One => 16,
            StoreVersion::Two => MAX_QUEUE_LIMIT,
        }
    }
}
