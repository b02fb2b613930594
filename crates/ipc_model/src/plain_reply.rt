use crate::{RightKind, Sequence};
use codes::{KernReturn, MACH_MSG, MACH_PORT_NULL};
use std::alloc::{AllocError, Global};

/// A name with its type bits.
#[derive(Clone, Copy, PartialEq, Eq)]
pub struct NamedType {
    pub name: u32,
    pub bits: u32,
}

/// What number 13 reports of a port (`mach_port_status_t`).
#[derive(Clone, Copy, PartialEq, Eq)]
pub struct ReceiveStatus {
    /// The name of the set that it is a member of, 0 for none.
    pub set: u32,
    pub sequence_number: u32,
    pub make_send_count: u32,
    pub limit: u32,
    /// How many messages are queued.
    pub messages: u32,
    /// How many send-once rights there are, at most 0xffffffff.
    pub send_once_count: u32,
    /// Whether there are send rights.
    pub has_senders: bool,
    pub has_port_destroyed_request: bool,
    pub has_no_senders_request: bool,
}

/// The answer to a plain call. It shows each choice that the machine made.
#[derive(Drop)]
pub enum PlainReply {
    /// The call with this number was refused, and changed nothing.
    Refused {
        number: u32,
        code: KernReturn,
    },
    /// The call with this number was done, and has no results.
    Done {
        number: u32,
    },
    /// The names of a space in ascending order, with their type bits.
    Names {
        names: Sequence<NamedType>,
    },
    /// The type bits of the name.
    Type {
        bits: u32,
    },
    /// The new name.
    Allocate {
        name: u32,
    },
    /// The user references of the right.
    References {
        count: u32,
    },
    /// The state of a port whose receive right the name holds.
    ReceiveStatus {
        status: ReceiveStatus,
    },
    /// The names of a set's members, in ascending order.
    SetStatus {
        members: Sequence<u32>,
    },
    /// The name of the send-once right that the request held before, 0 for none.
    PreviousTarget {
        name: u32,
    },
    /// The name of the extracted right, and its kind.
    Extracted {
        name: u32,
        kind: RightKind,
    },
    /// The answer of `mach_msg`: for a message that was received or is too large, its size and the name of its port,
    /// else 0 for both; and the received message.
    Message {
        code: KernReturn,
        size: u32,
        member: u32,
        message: Sequence<u8>,
    },
    /// The new space's number, and its one name.
    SpaceCreated {
        space: u32,
        name: u32,
    },
}

impl PlainReply {
    ghost use Rattle.std.specs.Prelude.{◌≡◌, ◌↔◌, IfOk, IsTrue};
    ghost use Rattle.ipc_model.specs.messages.Receiving.{without_message};
    ghost use Rattle.ipc_model.specs.calls.PlainRefusals.{refused_of};
    ghost use Rattle.ipc_model.specs.calls.PlainStep.{succeeded};

    /// The answer of a `mach_msg` that received no message. It takes no memory.
    pub fn without_message(alloc: Global, code: KernReturn, size: u32, member: u32) -> Self
        ensures { result ≡ without_message code size member }
    {
        PlainReply::Message {
            code,
            size,
            member,
            message: Sequence::new(Vec::new(alloc)),
        }
    }

    /// The reply that refuses the call with this number. It takes no memory.
    pub fn refused(alloc: Global, number: u32, code: KernReturn) -> Self
        ensures { result ≡ refused_of number code }
    {
        if number == MACH_MSG {
            PlainReply::without_message(alloc, code, 0, MACH_PORT_NULL)
        } else {
            PlainReply::Refused { number, code }
        }
    }

    /// Returns whether the call was done, which is code 0.
    pub fn is_success(&self) -> bool
        ensures { result ≡ succeeded self.now }
    {
        match self {
            PlainReply::Refused { .. } => false,
            PlainReply::Message { code, .. } => *code == KernReturn::Success,
            _ => true,
        }
    }

    /// The same reply again. If an allocation fails, there is none.
    pub fn copy(&self, alloc: Global) -> Result<PlainReply, AllocError>
        ensures { IfOk result (λ copy. copy ≡ self.now) }
    {
        let copy = match self {
            PlainReply::Refused { number, code } => PlainReply::Refused {
                number: *number,
                code: *code,
            },
            PlainReply::Done { number } => PlainReply::Done { number: *number },
            PlainReply::Names { names } => PlainReply::Names {
                names: Sequence::new(Vec::from_slice(alloc, names.as_slice())?),
            },
            PlainReply::Type { bits } => PlainReply::Type { bits: *bits },
            PlainReply::Allocate { name } => PlainReply::Allocate { name: *name },
            PlainReply::References { count } => PlainReply::References { count: *count },
            PlainReply::ReceiveStatus { status } => PlainReply::ReceiveStatus { status: *status },
            PlainReply::SetStatus { members } => PlainReply::SetStatus {
                members: Sequence::new(Vec::from_slice(alloc, members.as_slice())?),
            },
            PlainReply::PreviousTarget { name } => PlainReply::PreviousTarget { name: *name },
            PlainReply::Extracted { name, kind } => PlainReply::Extracted {
                name: *name,
                kind: *kind,
            },
            PlainReply::Message {
                code,
                size,
                member,
                message,
            } => PlainReply::Message {
                code: *code,
                size: *size,
                member: *member,
                message: Sequence::new(Vec::from_slice(alloc, message.as_slice())?),
            },
            PlainReply::SpaceCreated { space, name } => PlainReply::SpaceCreated {
                space: *space,
                name: *name,
            },
        };
        Ok(copy)
    }

    /// Returns whether two replies are the same.
    pub fn is_same(&self, other: &PlainReply) -> bool
        ensures { IsTrue result ↔ (self.now ≡ other.now) }
    {
        match (self, other) {
            (PlainReply::Refused { number, code }, PlainReply::Refused { number: n, code: c }) =>
                number == n && code == c,
            (PlainReply::Done { number }, PlainReply::Done { number: n }) => number == n,
            (PlainReply::Names { names }, PlainReply::Names { names: others }) => names.as_slice()
                == others.as_slice(),
            (PlainReply::Type { bits }, PlainReply::Type { bits: b }) => bits == b,
            (PlainReply::Allocate { name }, PlainReply::Allocate { name: n }) => name == n,
            (PlainReply::References { count }, PlainReply::References { count: c }) => count == c,
            (PlainReply::ReceiveStatus { status }, PlainReply::ReceiveStatus { status: s }) =>
                status == s,
            (PlainReply::SetStatus { members }, PlainReply::SetStatus { members: others }) =>
                members.as_slice() == others.as_slice(),
            (PlainReply::PreviousTarget { name }, PlainReply::PreviousTarget { name: n }) => name
                == n,
            (PlainReply::Extracted { name, kind }, PlainReply::Extracted { name: n, kind: k }) =>
                name == n && kind == k,
            (
                PlainReply::Message {
                    code,
                    size,
                    member,
                    message,
                },
                PlainReply::Message {
                    code: c,
                    size: s,
                    member: m,
                    message: bytes,
                },
            ) => { code == c && size == s && member == m && message.as_slice() == bytes.as_slice() }
            (
                PlainReply::SpaceCreated { space, name },
                PlainReply::SpaceCreated { space: s, name: n },
            ) => space == s && name == n,
            _ => false,
        }
    }
}
