/// A notice of the kernel to the holder of a request or of a send-once right, in a message without rights.
/// (`MACH_NOTIFY_PORT_DESTROYED`, which carries a receive right, is never pending.)
#[derive(Clone, Copy)]
pub enum Notice {
    /// A name with a dead-name request was removed (`MACH_NOTIFY_PORT_DELETED`).
    PortDeleted { name: u32 },
    /// The last send right is gone, of the `count` that were made (`MACH_NOTIFY_NO_SENDERS`).
    NoSenders { count: u32 },
    /// A send-once right was destroyed without being used (`MACH_NOTIFY_SEND_ONCE`).
    SendOnce,
    /// A name became a dead name (`MACH_NOTIFY_DEAD_NAME`).
    DeadName { name: u32 },
}
