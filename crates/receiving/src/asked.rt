/// The arguments of a receive (`mach_msg`: `rcv_size`, `rcv_name`, `MACH_RCV_LARGE`).
#[derive(Clone, Copy)]
pub struct Asked {
    /// Maximum size of the message in bytes.
    pub limit: u32,
    /// True if a larger message stays queued (`MACH_RCV_LARGE`).
    pub large: bool,
    /// The name of a receive right or of a port set.
    pub name: u32,
    /// True if this attempt follows a wait.
    pub waited: bool,
}

/// Selects the message of a receive from a set in which several ports have one.
#[derive(Clone, Copy)]
pub enum Preference {
    /// The message of the member with the least name.
    Least,
    /// The message of the member with this name, if it has one.
    Member(u32),
    /// A message that isn't too large but whose rights need more names than the space has left, if a member has one.
    Lacking,
}
