ghost use Rattle.std.specs.Prelude.{◌≡◌, Some};
ghost use Rattle.wire.specs.Fault.{fault_line, fault_number, fault_text};
ghost use Rattle.wire.specs.declared.fault.WireFault.TheVariants.{NoMemory};

use std::alloc::AllocError;
use std::error::Error;
use std::fmt;

/// The reason why a frame couldn't be read or written.
#[derive(Clone, Copy, Debug, PartialEq, Eq)]
pub enum WireFault {
    /// The input ends within a frame, or a length is below 4.
    Short = 1,
    /// A length is above 65,532.
    TooLong = 2,
    /// The reader or the writer failed.
    Device = 3,
    /// Out of memory.
    NoMemory = 4,
}

impl WireFault {
    /// Returns the fault's number.
    pub fn number(self) -> u32
        ensures { result ≡ fault_number self }
    {
        self as u32
    }

    /// Returns the fault as the line that a program prints after its own name: its kind, its number and its text.
    pub fn line(self) -> &'static str
        ensures { result.now ≡ fault_line self }
    {
        match self {
            WireFault::Short => "wire fault 1: short\n",
            WireFault::TooLong => "wire fault 2: too long\n",
            WireFault::Device => "wire fault 3: device\n",
            WireFault::NoMemory => "wire fault 4: no memory\n",
        }
    }
}

impl fmt::Display for WireFault {
    ghost output = { λ fault. Some (fault_text fault) };

    fn fmt<W: fmt::Write>(&self, f: &mut fmt::Formatter<W>) -> fmt::Result {
        f.write_str(match self {
            WireFault::Short => "short",
            WireFault::TooLong => "too long",
            WireFault::Device => "device",
            WireFault::NoMemory => "no memory",
        })
    }
}

impl Error for WireFault {}

impl From<AllocError> for WireFault {
    ghost from_gives = { λ _ fault. fault ≡ NoMemory };

    fn from(_e: AllocError) -> WireFault {
        WireFault::NoMemory
    }
}
