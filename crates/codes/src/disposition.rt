ghost use Rattle.std.specs.Prelude.{◌≡◌};
ghost use Rattle.codes.specs.Disposition.{disposition_of};

/// How a message or a call transfers a right (`mach_msg_type_name_t`).
#[derive(Clone, Copy, Debug, PartialEq, Eq)]
pub enum Disposition {
    /// `MACH_MSG_TYPE_MOVE_RECEIVE`.
    MoveReceive = 16,
    /// `MACH_MSG_TYPE_MOVE_SEND`.
    MoveSend = 17,
    /// `MACH_MSG_TYPE_MOVE_SEND_ONCE`.
    MoveSendOnce = 18,
    /// `MACH_MSG_TYPE_COPY_SEND`.
    CopySend = 19,
    /// `MACH_MSG_TYPE_MAKE_SEND`.
    MakeSend = 20,
    /// `MACH_MSG_TYPE_MAKE_SEND_ONCE`.
    MakeSendOnce = 21,
}

impl Disposition {
    /// Returns the disposition with this number, or `None` if there is none.
    pub fn from_number(number: u32) -> Option<Disposition>
        ensures { result ≡ disposition_of number }
    {
        match number {
            16 => Some(Disposition::MoveReceive),
            17 => Some(Disposition::MoveSend),
            18 => Some(Disposition::MoveSendOnce),
            19 => Some(Disposition::CopySend),
            20 => Some(Disposition::MakeSend),
            21 => Some(Disposition::MakeSendOnce),
            _ => None,
        }
    }
}
