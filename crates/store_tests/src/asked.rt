//! Calls with numbers only, for tables.

use ipc_model::{Call, PlainCall};

/// A call.
#[derive(Clone, Copy)]
pub(crate) enum Asked {
    /// Of a right of this kind.
    Allocate(u32),
    /// Of a receive right under the name 0x2000.
    AllocateName,
    Type(u32),
    Destroy(u32),
    /// A name and the set to which it moves.
    MoveMember(u32, u32),
    /// A send-once right.
    ExtractRight(u32),
    /// A send right under the name of the port.
    InsertRight(u32),
    /// A notice about a name, by its number, to the port 0x100.
    RequestNotification(u32, u32),
    /// Removes the receive right.
    DropReceive(u32),
    /// With a send right that is made from 0x100.
    SpaceCreate,
    /// From a name, without or after a wait.
    Receive(u32, bool),
}

impl Asked {
    /// Returns the call itself.
    pub(crate) fn call(self) -> Call {
        match self {
            Asked::Allocate(right) => Call::Plain(PlainCall::Allocate { right }),
            Asked::AllocateName => Call::Plain(PlainCall::AllocateName {
                right: 1,
                name: 0x2000,
            }),
            Asked::Type(name) => Call::Plain(PlainCall::Type { name }),
            Asked::Destroy(name) => Call::Plain(PlainCall::Destroy { name }),
            Asked::MoveMember(member, after) => Call::Plain(PlainCall::MoveMember {
                member,
                after,
            }),
            Asked::ExtractRight(name) => Call::Plain(PlainCall::ExtractRight {
                name,
                disposition: 21,
            }),
            Asked::InsertRight(name) => Call::Plain(PlainCall::InsertRight {
                name,
                right_name: name,
                disposition: 20,
            }),
            Asked::RequestNotification(name, variant) => Call::Plain(
                PlainCall::RequestNotification {
                    name,
                    variant,
                    sync: 0,
                    notify: 0x100,
                    disposition: 21,
                },
            ),
            Asked::DropReceive(name) => Call::Plain(PlainCall::ModRefs {
                name,
                right: 1,
                delta: u32::MAX,
            }),
            Asked::SpaceCreate => Call::Plain(PlainCall::SpaceCreate {
                name: 0x100,
                disposition: 20,
            }),
            Asked::Receive(name, waited) => Call::Plain(PlainCall::Receive {
                limit: 24,
                large: false,
                name,
                waited,
            }),
        }
    }
}
