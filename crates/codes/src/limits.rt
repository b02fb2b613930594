/// Minimum value of a frame's length word, in bytes: a call's number without arguments.
pub const MIN_FRAME_CONTENT: u32 = 4;

/// Maximum value of a frame's length word, in bytes. With the length word itself a frame has at most 65,536 bytes.
pub const MAX_FRAME_CONTENT: u32 = 65_532;

/// Maximum number of names in a space.
pub const MAX_NAMES: usize = 4_096;

/// Maximum number of live ports.
pub const MAX_PORTS: usize = 16_384;

/// Maximum number of spaces.
pub const MAX_SPACES: usize = 256;

/// Queue limit of a new port, in messages (`MACH_PORT_QLIMIT_DEFAULT`).
pub const DEFAULT_QUEUE_LIMIT: u32 = 5;

/// Maximum queue limit of a port, in messages (`MACH_PORT_QLIMIT_MAX`).
pub const MAX_QUEUE_LIMIT: u32 = 64;

/// Maximum number of records in an epoch's segment.
pub const MAX_RECORDS: u64 = 65_536;

/// Number of records in an epoch's segment at which a checkpoint begins.
pub const CHECKPOINT_RECORDS: u64 = 32_768;

/// Length of a message's header in bytes (`mach_msg_header_t`).
pub const HEADER_LENGTH: usize = 24;

/// Maximum length of a message in bytes, header and body.
pub const MAX_MESSAGE_SIZE: u32 = 8_192;

/// Maximum number of ports in the items of a message's body.
pub const MAX_MESSAGE_PORTS: usize = 256;

/// Maximum number of user references of a send right under one name.
pub const MAX_SEND_REFERENCES: u32 = 65_534;

/// Maximum number of user references of a dead name.
pub const MAX_DEAD_REFERENCES: u32 = 65_535;
