ghost use Rattle.std.specs.Prelude.{◌≡◌, ◌==◌, find, Some, IfSome};
ghost use Rattle.codes.specs.KernReturn.{all_codes, number_of};
ghost use Rattle.codes.specs.declared.kern_return.KernReturn.{KernReturn};

/// A return code of the kernel interfaces or of `mach_msg`, under Mach's name for it: `KERN_NO_SPACE`
/// is `NoSpace`, `MACH_SEND_INVALID_DEST` is `SendInvalidDest`, and so on.
#[derive(Clone, Copy, Debug, PartialEq, Eq)]
pub enum KernReturn {
    Success = 0,
    NoSpace = 3,
    InvalidArgument = 4,
    Failure = 5,
    ResourceShortage = 6,
    NoAccess = 8,
    NotInSet = 12,
    NameExists = 13,
    InvalidName = 15,
    InvalidTask = 16,
    InvalidRight = 17,
    InvalidValue = 18,
    UrefsOverflow = 19,
    InvalidCapability = 20,
    RightExists = 21,
    SendInvalidDest = 0x1000_0003,
    SendTimedOut = 0x1000_0004,
    SendMsgTooSmall = 0x1000_0008,
    SendInvalidReply = 0x1000_0009,
    SendInvalidRight = 0x1000_000a,
    SendInvalidMemory = 0x1000_000c,
    SendNoBuffer = 0x1000_000d,
    SendInvalidType = 0x1000_000f,
    SendInvalidHeader = 0x1000_0010,
    RcvInvalidName = 0x1000_4002,
    RcvTimedOut = 0x1000_4003,
    RcvTooLarge = 0x1000_4004,
    RcvPortChanged = 0x1000_4006,
    RcvPortDied = 0x1000_4009,
    RcvInSet = 0x1000_400a,
    /// `MACH_RCV_HEADER_ERROR` with `MACH_MSG_IPC_KERNEL`: out of memory.
    RcvHeaderErrorKernel = 0x1000_480b,
    /// `MACH_RCV_HEADER_ERROR` with `MACH_MSG_IPC_SPACE`: no name is left.
    RcvHeaderErrorSpace = 0x1000_600b,
}

impl KernReturn {
    /// Returns the code's number, as replies contain it.
    pub fn number(self) -> u32
        ensures { result ≡ number_of self }
    {
        self as u32
    }

    /// Returns all codes in ascending order of their numbers.
    pub fn all() -> [KernReturn; 32]
        ensures { result ≡ all_codes }
    {
        [
            KernReturn::Success,
            KernReturn::NoSpace,
            KernReturn::InvalidArgument,
            KernReturn::Failure,
            KernReturn::ResourceShortage,
            KernReturn::NoAccess,
            KernReturn::NotInSet,
            KernReturn::NameExists,
            KernReturn::InvalidName,
            KernReturn::InvalidTask,
            KernReturn::InvalidRight,
            KernReturn::InvalidValue,
            KernReturn::UrefsOverflow,
            KernReturn::InvalidCapability,
            KernReturn::RightExists,
            KernReturn::SendInvalidDest,
            KernReturn::SendTimedOut,
            KernReturn::SendMsgTooSmall,
            KernReturn::SendInvalidReply,
            KernReturn::SendInvalidRight,
            KernReturn::SendInvalidMemory,
            KernReturn::SendNoBuffer,
            KernReturn::SendInvalidType,
            KernReturn::SendInvalidHeader,
            KernReturn::RcvInvalidName,
            KernReturn::RcvTimedOut,
            KernReturn::RcvTooLarge,
            KernReturn::RcvPortChanged,
            KernReturn::RcvPortDied,
            KernReturn::RcvInSet,
            KernReturn::RcvHeaderErrorKernel,
            KernReturn::RcvHeaderErrorSpace,
        ]
    }

    /// Returns the code with this number, or `None` if there is none.
    pub fn from_number(number: u32) -> Option<KernReturn>
        ensures found { IfSome result (λ code. number_of code ≡ number) }
        ensures only { (code : KernReturn) → number_of code ≡ number → result ≡ Some code }
    {
        find_number(number)
    }
}

fn find_number(number: u32) -> Option<KernReturn>
    ensures { result ≡ find (λ code. number_of code == number) all_codes }
{
    let all = KernReturn::all();
    all.iter().copied().find(|code| code.number() == number)
}
