//! The numbers of Mach 3's interprocess communication: return codes, rights, names and limits.
#![tactic(auto)]

mod call_number;
mod disposition;
mod kern_return;
mod limits;
mod message_options;
mod name;
mod notification;
mod right;
mod store_version;

pub use call_number::{
    ATTACH, CONFINE, MACH_MSG, MACH_PORT_ALLOCATE, MACH_PORT_ALLOCATE_NAME, MACH_PORT_DEALLOCATE,
    MACH_PORT_DESTROY, MACH_PORT_EXTRACT_RIGHT, MACH_PORT_GET_RECEIVE_STATUS, MACH_PORT_GET_REFS,
    MACH_PORT_GET_SET_STATUS, MACH_PORT_INSERT_RIGHT, MACH_PORT_MOD_REFS, MACH_PORT_MOVE_MEMBER,
    MACH_PORT_NAMES, MACH_PORT_RENAME, MACH_PORT_REQUEST_NOTIFICATION, MACH_PORT_SET_MSCOUNT,
    MACH_PORT_SET_QLIMIT, MACH_PORT_SET_SEQNO, MACH_PORT_TYPE, NUMBERED, SPACE_CREATE,
    SPACE_DESTROY,
};
pub use disposition::Disposition;
pub use kern_return::KernReturn;
pub use limits::{
    CHECKPOINT_RECORDS, DEFAULT_QUEUE_LIMIT, HEADER_LENGTH, MAX_DEAD_REFERENCES, MAX_FRAME_CONTENT,
    MAX_MESSAGE_PORTS, MAX_MESSAGE_SIZE, MAX_NAMES, MAX_PORTS, MAX_QUEUE_LIMIT, MAX_RECORDS,
    MAX_SEND_REFERENCES, MAX_SPACES, MIN_FRAME_CONTENT,
};
pub use message_options::MessageOptions;
pub use name::{FIRST_NAME, FIRST_SPACE, MACH_PORT_DEAD, MACH_PORT_NULL, NO_SPACE};
pub use notification::{
    MACH_NOTIFY_DEAD_NAME, MACH_NOTIFY_NO_SENDERS, MACH_NOTIFY_PORT_DELETED,
    MACH_NOTIFY_PORT_DESTROYED, MACH_NOTIFY_SEND_ONCE,
};
pub use right::Right;
pub use store_version::StoreVersion;
