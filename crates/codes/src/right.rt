ghost use Rattle.std.specs.Prelude.{◌≡◌, ◌<◌, ◌↔◌, IfSome, IsSome};
ghost use Rattle.codes.specs.Right.{number_of, type_bit};

/// A kind of right that a name may denote (`mach_port_right_t`).
#[derive(Clone, Copy, Debug, PartialEq, Eq)]
pub enum Right {
    Send = 0,
    Receive = 1,
    SendOnce = 2,
    PortSet = 3,
    DeadName = 4,
}

impl Right {
    /// Returns the right's number.
    pub fn number(self) -> u32
        ensures { result ≡ number_of self }
    {
        self as u32
    }

    /// Returns the right with this number, or `None` if there is none.
    pub fn from_number(number: u32) -> Option<Right>
        ensures known { IsSome result ↔ (number < 5) }
        ensures value { IfSome result (λ right. number_of right ≡ number) }
    {
        match number {
            0 => Some(Right::Send),
            1 => Some(Right::Receive),
            2 => Some(Right::SendOnce),
            3 => Some(Right::PortSet),
            4 => Some(Right::DeadName),
            _ => None,
        }
    }

    /// Returns the right's bit in the type of a name (`MACH_PORT_TYPE`): `1 << (16 + right)`.
    pub fn type_bit(self) -> u32
        ensures { result ≡ type_bit self }
    {
        0x1_0000 << self.number()
    }
}
