/// The null name: no port.
pub const MACH_PORT_NULL: u32 = 0;

/// The name of a dead port.
pub const MACH_PORT_DEAD: u32 = 0xffff_ffff;

/// The lowest name that this server chooses itself. A task may choose lower ones.
pub const FIRST_NAME: u32 = 0x100;

/// Number of the space that a new store has. A new connection's task is attached to it.
pub const FIRST_SPACE: u32 = 1;

/// Number of no space. Every call of a task that is attached to it is refused.
pub const NO_SPACE: u32 = 0;
