use crate::{PlainReply, Sequence};
use codes::{
    ATTACH, KernReturn, MACH_MSG, MACH_PORT_ALLOCATE, MACH_PORT_ALLOCATE_NAME,
    MACH_PORT_DEALLOCATE, MACH_PORT_DESTROY, MACH_PORT_EXTRACT_RIGHT, MACH_PORT_GET_RECEIVE_STATUS,
    MACH_PORT_GET_REFS, MACH_PORT_GET_SET_STATUS, MACH_PORT_INSERT_RIGHT, MACH_PORT_MOD_REFS,
    MACH_PORT_MOVE_MEMBER, MACH_PORT_NAMES, MACH_PORT_RENAME, MACH_PORT_REQUEST_NOTIFICATION,
    MACH_PORT_SET_MSCOUNT, MACH_PORT_SET_QLIMIT, MACH_PORT_SET_SEQNO, MACH_PORT_TYPE, SPACE_CREATE,
    SPACE_DESTROY,
};

/// A call of the machine, without a number of its task's. Arguments are kept as they were sent, whether they are
/// allowed or not.
#[derive(Drop)]
pub enum PlainCall {
    /// Number 0: the task moves to this space.
    Attach {
        space: u32,
    },
    /// `mach_port_names`, number 1.
    Names,
    /// `mach_port_type`, number 2: what kind of right a name stands for.
    Type {
        name: u32,
    },
    /// `mach_port_rename`, number 3.
    Rename {
        from: u32,
        to: u32,
    },
    /// `mach_port_allocate_name`, number 4.
    AllocateName {
        right: u32,
        name: u32,
    },
    /// `mach_port_allocate`, number 5: a new name with a new right of this kind.
    Allocate {
        right: u32,
    },
    /// `mach_port_destroy`, number 6.
    Destroy {
        name: u32,
    },
    /// `mach_port_deallocate`, number 7.
    Deallocate {
        name: u32,
    },
    /// `mach_port_get_refs`, number 8.
    GetRefs {
        name: u32,
        right: u32,
    },
    /// `mach_port_mod_refs`, number 9. The delta is in two's complement.
    ModRefs {
        name: u32,
        right: u32,
        delta: u32,
    },
    /// `mach_port_set_qlimit`, number 10.
    SetQlimit {
        name: u32,
        limit: u32,
    },
    /// `mach_port_set_mscount`, number 11.
    SetMscount {
        name: u32,
        count: u32,
    },
    /// `mach_port_set_seqno`, number 12.
    SetSeqno {
        name: u32,
        seqno: u32,
    },
    /// `mach_port_get_receive_status`, number 13.
    GetReceiveStatus {
        name: u32,
    },
    /// `mach_port_get_set_status`, number 14.
    GetSetStatus {
        name: u32,
    },
    /// `mach_port_move_member`, number 15.
    MoveMember {
        member: u32,
        after: u32,
    },
    /// `mach_port_request_notification`, number 16.
    RequestNotification {
        name: u32,
        variant: u32,
        sync: u32,
        notify: u32,
        disposition: u32,
    },
    /// `mach_port_insert_right`, number 17.
    InsertRight {
        name: u32,
        right_name: u32,
        disposition: u32,
    },
    /// `mach_port_extract_right`, number 18.
    ExtractRight {
        name: u32,
        disposition: u32,
    },
    /// `mach_msg` with the option to send, number 19: the message's bytes, header and body.
    Send {
        message: Sequence<u8>,
    },
    /// `mach_msg` with the option to receive, number 19.
    Receive {
        /// The greatest size that is accepted.
        limit: u32,
        /// Whether a message that is too large stays queued (`MACH_RCV_LARGE`).
        large: bool,
        /// The name of a receive right or of a port set.
        name: u32,
        /// Whether this attempt came after a wait.
        waited: bool,
    },
    /// Number 20: makes a space whose one name holds a right copied in from the caller's.
    SpaceCreate {
        name: u32,
        disposition: u32,
    },
    /// Number 21: removes the caller's space with all its names.
    SpaceDestroy,
}

impl PlainCall {
    ghost use Rattle.std.specs.Prelude.{◌≡◌};
    ghost use Rattle.ipc_model.specs.calls.PlainStep.{number_of_call, is_recorded, destroyed_message, has_record, may_be_numbered};

    /// The number of the call in its frame.
    pub fn number(&self) -> u32
        ensures { result ≡ number_of_call self.now }
    {
        match self {
            PlainCall::Attach { .. } => ATTACH,
            PlainCall::Names => MACH_PORT_NAMES,
            PlainCall::Type { .. } => MACH_PORT_TYPE,
            PlainCall::Rename { .. } => MACH_PORT_RENAME,
            PlainCall::AllocateName { .. } => MACH_PORT_ALLOCATE_NAME,
            PlainCall::Allocate { .. } => MACH_PORT_ALLOCATE,
            PlainCall::Destroy { .. } => MACH_PORT_DESTROY,
            PlainCall::Deallocate { .. } => MACH_PORT_DEALLOCATE,
            PlainCall::GetRefs { .. } => MACH_PORT_GET_REFS,
            PlainCall::ModRefs { .. } => MACH_PORT_MOD_REFS,
            PlainCall::SetQlimit { .. } => MACH_PORT_SET_QLIMIT,
            PlainCall::SetMscount { .. } => MACH_PORT_SET_MSCOUNT,
            PlainCall::SetSeqno { .. } => MACH_PORT_SET_SEQNO,
            PlainCall::GetReceiveStatus { .. } => MACH_PORT_GET_RECEIVE_STATUS,
            PlainCall::GetSetStatus { .. } => MACH_PORT_GET_SET_STATUS,
            PlainCall::MoveMember { .. } => MACH_PORT_MOVE_MEMBER,
            PlainCall::RequestNotification { .. } => MACH_PORT_REQUEST_NOTIFICATION,
            PlainCall::InsertRight { .. } => MACH_PORT_INSERT_RIGHT,
            PlainCall::ExtractRight { .. } => MACH_PORT_EXTRACT_RIGHT,
            PlainCall::Send { .. } | PlainCall::Receive { .. } => MACH_MSG,
            PlainCall::SpaceCreate { .. } => SPACE_CREATE,
            PlainCall::SpaceDestroy => SPACE_DESTROY,
        }
    }

    /// Returns whether the call has a record if it is answered by this reply: it may have changed the state.
    pub fn has_record(&self, reply: &PlainReply) -> bool
        ensures { result ≡ has_record self.now reply.now }
    {
        self.is_recorded() && (reply.is_success() || self.destroyed_message(reply))
    }

    /// Returns whether a call with this number can have a record.
    pub fn is_recorded(&self) -> bool
        ensures { result ≡ is_recorded self.now }
    {
        match self {
            PlainCall::Attach { .. }
            | PlainCall::Names
            | PlainCall::Type { .. }
            | PlainCall::GetRefs { .. }
            | PlainCall::GetReceiveStatus { .. }
            | PlainCall::GetSetStatus { .. } => false,
            _ => true,
        }
    }

    /// Returns whether number 22 takes the call. A receive that followed a wait is none that a task asks for.
    pub fn may_be_numbered(&self) -> bool
        ensures { result ≡ may_be_numbered self.now }
    {
        match self {
            PlainCall::SpaceDestroy => false,
            PlainCall::Receive { waited, .. } => !waited,
            _ => self.is_recorded(),
        }
    }

    fn destroyed_message(&self, reply: &PlainReply) -> bool
        ensures { result ≡ destroyed_message self.now reply.now }
    {
        match (self, reply) {
            (PlainCall::Receive { large: false, .. }, PlainReply::Message { code, .. }) => {
                *code == KernReturn::RcvTooLarge
            }
            _ => false,
        }
    }
}
