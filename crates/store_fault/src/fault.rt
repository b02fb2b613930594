ghost use Rattle.std.specs.Prelude.{◌≡◌, Some};
ghost use Rattle.store_fault.specs.Fault.{fault_line, fault_number, fault_text};

use disk::DiskFault;
use std::alloc::{AllocError, AllocFailed};
use std::fmt;

/// The reason why a store couldn't be opened or written.
#[derive(Clone, Copy, Debug, PartialEq, Eq)]
pub enum StoreFault {
    /// The device failed.
    Device = 1,
    /// The segment has the maximum number of records.
    Full = 2,
    /// The slots aren't as a server leaves them.
    Damaged = 3,
    /// Out of memory; nothing changed.
    NoMemory = 4,
    /// The device failed before; the store must be opened again.
    Failed = 5,
    /// A slot has an unknown version.
    Version = 6,
}

impl StoreFault {
    /// Returns the fault's number.
    pub fn number(self) -> u8
        ensures { result ≡ fault_number self }
    {
        self as u8
    }

    /// Returns the fault as the line that a program prints after its own name: its kind, its number and its text.
    pub fn line(self) -> &'static str
        ensures { result.now ≡ fault_line self }
    {
        match self {
            StoreFault::Device => "store fault 1: device\n",
            StoreFault::Full => "store fault 2: full\n",
            StoreFault::Damaged => "store fault 3: damaged\n",
            StoreFault::NoMemory => "store fault 4: no memory\n",
            StoreFault::Failed => "store fault 5: failed\n",
            StoreFault::Version => "store fault 6: version\n",
        }
    }
}

impl fmt::Display for StoreFault {
    ghost output = { λ fault. Some (fault_text fault) };

    fn fmt<W: fmt::Write>(&self, f: &mut fmt::Formatter<W>) -> fmt::Result {
        f.write_str(match self {
            StoreFault::Device => "device",
            StoreFault::Full => "full",
            StoreFault::Damaged => "damaged",
            StoreFault::NoMemory => "no memory",
            StoreFault::Failed => "failed",
            StoreFault::Version => "version",
        })
    }
}

impl From<DiskFault> for StoreFault {
    ghost use Rattle.std.specs.Prelude.{◌≡◌};
    ghost use Rattle.store_fault.specs.declared.fault.StoreFault.TheVariants.{Device};

    ghost from_gives = { λ _ e. e ≡ Device };

    fn from(_: DiskFault) -> Self {
        StoreFault::Device
    }
}

impl From<AllocError> for StoreFault {
    ghost use Rattle.std.specs.Prelude.{◌≡◌};
    ghost use Rattle.store_fault.specs.declared.fault.StoreFault.TheVariants.{NoMemory};

    ghost from_gives = { λ _ e. e ≡ NoMemory };

    fn from(_: AllocError) -> Self {
        StoreFault::NoMemory
    }
}

impl<T: Drop> From<AllocFailed<T>> for StoreFault {
    ghost use Rattle.std.specs.Prelude.{◌≡◌};
    ghost use Rattle.store_fault.specs.declared.fault.StoreFault.TheVariants.{NoMemory};

    ghost from_gives = { λ _ e. e ≡ NoMemory };

    fn from(_: AllocFailed<T>) -> Self {
        StoreFault::NoMemory
    }
}
