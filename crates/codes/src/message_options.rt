ghost use Rattle.std.specs.Prelude.{⊤, ◌≡◌};
ghost use Rattle.codes.specs.MessageOptions.{bits_of, option_rows, first_name};

use bitflags::{Flag, Flags, bitflag_items};

/// The options of `mach_msg`: its first argument.
#[derive(Clone, Copy, Debug, PartialEq, Eq)]
pub struct MessageOptions(u32);

bitflag_items! {
    impl MessageOptions: u32 {
        /// `MACH_SEND_MSG`.
        const SEND = 0x1;
        /// `MACH_RCV_MSG`.
        const RECEIVE = 0x2;
        /// `MACH_SEND_TIMEOUT`.
        const SEND_TIMEOUT = 0x10;
        /// `MACH_RCV_TIMEOUT`.
        const RECEIVE_TIMEOUT = 0x100;
        /// `MACH_RCV_LARGE`.
        const LARGE = 0x800;
    }
}

/// Each option with its name, which scripts use too. (`FLAGS` has the names of the constants.)
const OPTIONS: [Flag<MessageOptions>; 5] = [
    Flag {
        name: "send",
        value: MessageOptions::SEND,
    },
    Flag {
        name: "receive",
        value: MessageOptions::RECEIVE,
    },
    Flag {
        name: "send_timeout",
        value: MessageOptions::SEND_TIMEOUT,
    },
    Flag {
        name: "receive_timeout",
        value: MessageOptions::RECEIVE_TIMEOUT,
    },
    Flag {
        name: "large",
        value: MessageOptions::LARGE,
    },
];

impl Flags for MessageOptions {
    type Bits = u32;

    ghost exact = { ⊤ };

    ghost table = { option_rows };

    ghost set_of = { bits_of };

    fn flags<'a>() -> &'a [Flag<MessageOptions>] {
        &OPTIONS
    }

    fn bits(&self) -> u32 {
        self.0
    }

    fn from_bits_retain(bits: u32) -> MessageOptions {
        MessageOptions(bits)
    }
}

impl MessageOptions {
    /// Returns the name of the first option that is set, or the empty string if none is.
    pub fn first_name(self) -> &'static str
        ensures { result.now ≡ first_name (bits_of self) }
    {
        match self.iter_names().next() {
            Some((name, _)) => name,
            None => "",
        }
    }
}
