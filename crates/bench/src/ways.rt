//! The states in which calls are measured: a small one, and larger ones of each kind.

use crate::Fault;
use crate::lines::{Line, Maker, make_lines};
use std::alloc::Global;

/// The space in which calls are measured.
pub(crate) const HERE: u32 = 1;

/// The other space, which has a send right 0x100 to the port 0x100, and a port 0x101.
pub(crate) const CLIENT: u32 = 2;

/// Placeholder for the next space.
pub(crate) const NEXT: u32 = 0;

/// Number of ways in which calls are measured. The first one is the small state.
pub(crate) const WAYS: usize = 5;

/// The contents of each way: twelve ports 0x100 to 0x10b, of which 0x100 and 0x101 have send rights, a set 0x200 of ten
/// of them, 0x101 to 0x10a, and the other space. So there are 13 ports, and 13 names in the space of the calls.
static BASE: [Line<'static>; 8] = [
    (HERE, "allocate receive", 0, 12),
    (HERE, "insert_right 0x100 0x100 make_send", 0, 1),
    (HERE, "insert_right 0x101 0x101 make_send", 0, 1),
    (HERE, "mod_refs 0x101 send 1999", 0, 1),
    (HERE, "allocate_name port_set 0x200", 0, 1),
    (HERE, "move_member # 0x200", 0x101, 10),
    (HERE, "space_create 0x100 make_send", 0, 1),
    (CLIENT, "allocate receive", 0, 1),
];

/// Further contents of a way: spaces, with a send right each to the port 0x100; ports in each of the first four of
/// them; dead names in the space of the calls; and messages in the queue of the port 0x10b.
#[derive(Clone, Copy)]
pub(crate) struct Alongside {
    spaces: u32,
    ports: u32,
    names: u32,
    messages: u32,
}

const LITTLE: Alongside = Alongside {
    spaces: 0,
    ports: 0,
    names: 0,
    messages: 0,
};

/// The ways: the small state, 16,000 ports, 4,096 names except ten, 255 spaces, which leaves room for one, and 1,000
/// messages.
pub(crate) static ALL_WAYS: [Alongside; WAYS] = [
    LITTLE,
    Alongside {
        spaces: 4,
        ports: 4_000,
        ..LITTLE
    },
    Alongside {
        names: 4_073,
        ..LITTLE
    },
    Alongside {
        spaces: 253,
        ..LITTLE
    },
    Alongside {
        messages: 1_000,
        ..LITTLE
    },
];

impl Alongside {
    /// Returns the number of the next space.
    pub(crate) fn next_space(&self) -> u32 {
        self.spaces.saturating_add(3)
    }

    /// Returns the same way with at most this many names.
    pub(crate) fn with_names(self, most: u32) -> Alongside {
        Alongside {
            names: self.names.min(most),
            ..self
        }
    }

    /// Makes the base, and these further contents.
    pub(crate) fn make<M: Maker>(self, alloc: Global, maker: &mut M) -> Result<(), Fault> {
        make_lines(alloc, maker, &BASE)?;
        let lines = [
            (HERE, "space_create 0x100 make_send", 0, self.spaces),
            (3, "allocate receive", 0, self.ports),
            (4, "allocate receive", 0, self.ports),
            (5, "allocate receive", 0, self.ports),
            (6, "allocate receive", 0, self.ports),
            (HERE, "allocate_name dead_name #", 0x1000, self.names),
            (HERE, "send make_send_once 0x10b id 7", 0, self.messages),
        ];
        make_lines(alloc, maker, &lines)
    }
}
