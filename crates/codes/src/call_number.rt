// Call numbers, which a frame's content begins with. Calls on ports and messages have Mach's names; the calls without
// that prefix are this server's own.

/// Attaches the task to another space.
pub const ATTACH: u32 = 0;

pub const MACH_PORT_NAMES: u32 = 1;

pub const MACH_PORT_TYPE: u32 = 2;

pub const MACH_PORT_RENAME: u32 = 3;

pub const MACH_PORT_ALLOCATE_NAME: u32 = 4;

pub const MACH_PORT_ALLOCATE: u32 = 5;

pub const MACH_PORT_DESTROY: u32 = 6;

pub const MACH_PORT_DEALLOCATE: u32 = 7;

pub const MACH_PORT_GET_REFS: u32 = 8;

pub const MACH_PORT_MOD_REFS: u32 = 9;

pub const MACH_PORT_SET_QLIMIT: u32 = 10;

pub const MACH_PORT_SET_MSCOUNT: u32 = 11;

pub const MACH_PORT_SET_SEQNO: u32 = 12;

pub const MACH_PORT_GET_RECEIVE_STATUS: u32 = 13;

pub const MACH_PORT_GET_SET_STATUS: u32 = 14;

pub const MACH_PORT_MOVE_MEMBER: u32 = 15;

pub const MACH_PORT_REQUEST_NOTIFICATION: u32 = 16;

pub const MACH_PORT_INSERT_RIGHT: u32 = 17;

pub const MACH_PORT_EXTRACT_RIGHT: u32 = 18;
/// Sends, receives, or both. Its reply has results whatever its code.
pub const MACH_MSG: u32 = 19;
/// Creates a space with one name, which holds one of the caller's rights.
pub const SPACE_CREATE: u32 = 20;
/// Removes the caller's space with all its names.
pub const SPACE_DESTROY: u32 = 21;
/// Makes another call at most once, under a request number that the task chooses.
pub const NUMBERED: u32 = 22;
/// Confines the connection to the space that it is attached to. The kernel doesn't know this call.
pub const CONFINE: u32 = 23;
