// Ids of the notifications that the kernel sends about ports (Kernel Interfaces, "Notifications").

/// A name with a dead-name request was removed.
pub const MACH_NOTIFY_PORT_DELETED: u32 = 65;
/// A receive right would have been destroyed; the notification carries it.
pub const MACH_NOTIFY_PORT_DESTROYED: u32 = 69;
/// A port's last send right is gone.
pub const MACH_NOTIFY_NO_SENDERS: u32 = 70;
/// A send-once right was destroyed without being used.
pub const MACH_NOTIFY_SEND_ONCE: u32 = 71;
/// A name became a dead name.
pub const MACH_NOTIFY_DEAD_NAME: u32 = 72;
