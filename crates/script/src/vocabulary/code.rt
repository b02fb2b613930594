ghost use Rattle.codes.specs.KernReturn.{all_codes};
ghost use Rattle.std.specs.Prelude.{◌≡◌, find};
ghost use Rattle.std.specs.Str.{bytes_eq};
ghost use Rattle.script.specs.vocabulary.Codes.{code_word};

use codes::KernReturn;

/// Returns the name of a code in Mach's headers.
pub fn code_word(code: KernReturn) -> &'static [u8]
    ensures { result.now ≡ code_word code }
{
    match code {
        KernReturn::Success => b"KERN_SUCCESS",
        KernReturn::NoSpace => b"KERN_NO_SPACE",
        KernReturn::InvalidArgument => b"KERN_INVALID_ARGUMENT",
        KernReturn::Failure => b"KERN_FAILURE",
        KernReturn::ResourceShortage => b"KERN_RESOURCE_SHORTAGE",
        KernReturn::NoAccess => b"KERN_NO_ACCESS",
        KernReturn::NotInSet => b"KERN_NOT_IN_SET",
        KernReturn::NameExists => b"KERN_NAME_EXISTS",
        KernReturn::InvalidName => b"KERN_INVALID_NAME",
        KernReturn::InvalidTask => b"KERN_INVALID_TASK",
        KernReturn::InvalidRight => b"KERN_INVALID_RIGHT",
        KernReturn::InvalidValue => b"KERN_INVALID_VALUE",
        KernReturn::UrefsOverflow => b"KERN_UREFS_OVERFLOW",
        KernReturn::InvalidCapability => b"KERN_INVALID_CAPABILITY",
        KernReturn::RightExists => b"KERN_RIGHT_EXISTS",
        KernReturn::SendInvalidDest => b"MACH_SEND_INVALID_DEST",
        KernReturn::SendTimedOut => b"MACH_SEND_TIMED_OUT",
        KernReturn::SendMsgTooSmall => b"MACH_SEND_MSG_TOO_SMALL",
        KernReturn::SendInvalidReply => b"MACH_SEND_INVALID_REPLY",
        KernReturn::SendInvalidRight => b"MACH_SEND_INVALID_RIGHT",
        KernReturn::SendInvalidMemory => b"MACH_SEND_INVALID_MEMORY",
        KernReturn::SendNoBuffer => b"MACH_SEND_NO_BUFFER",
        KernReturn::SendInvalidType => b"MACH_SEND_INVALID_TYPE",
        KernReturn::SendInvalidHeader => b"MACH_SEND_INVALID_HEADER",
        KernReturn::RcvInvalidName => b"MACH_RCV_INVALID_NAME",
        KernReturn::RcvTimedOut => b"MACH_RCV_TIMED_OUT",
        KernReturn::RcvTooLarge => b"MACH_RCV_TOO_LARGE",
        KernReturn::RcvPortChanged => b"MACH_RCV_PORT_CHANGED",
        KernReturn::RcvPortDied => b"MACH_RCV_PORT_DIED",
        KernReturn::RcvInSet => b"MACH_RCV_IN_SET",
        KernReturn::RcvHeaderErrorKernel => b"MACH_RCV_HEADER_ERROR|MACH_MSG_IPC_KERNEL",
        KernReturn::RcvHeaderErrorSpace => b"MACH_RCV_HEADER_ERROR|MACH_MSG_IPC_SPACE",
    }
}

/// Returns the code with this name.
pub fn code_of_word(word: &[u8]) -> Option<KernReturn>
    ensures { result ≡ find (λ code. bytes_eq (code_word code) word.now) all_codes }
{
    let all = KernReturn::all();
    all.iter().copied().find(|code| code_word(*code) == word)
}
