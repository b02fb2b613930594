//! States of many ports, names or messages.

use crate::Fault;
use crate::lines::{Maker, make_line};
use crate::messages::send_line;
use crate::ways::HERE;
use std::alloc::Global;

/// Maximum number of ports in one space.
const PORTS_OF_SPACE: u32 = 4_000;

/// Number of messages in a queue.
const MESSAGES_OF_QUEUE: u32 = 5;

/// The contents of a state: the number of spaces, of ports in the first of them, of names in each of them, dead except
/// the first one, and of messages of a size in queues of the first space.
#[derive(Clone, Copy)]
pub(crate) struct Shape {
    pub(crate) spaces: u32,
    pub(crate) ports: u32,
    pub(crate) names: u32,
    pub(crate) messages: u32,
    pub(crate) size: u32,
}

/// The smallest state: one space with one port.
pub(crate) const LEAST: Shape = Shape {
    spaces: 1,
    ports: 1,
    names: 1,
    messages: 0,
    size: 0,
};

/// Makes the contents of one space: ports, and dead names after its first name.
fn make_space<M: Maker>(
    alloc: Global,
    maker: &mut M,
    space: u32,
    shape: Shape,
) -> Result<(), Fault> {
    let others = space.saturating_sub(HERE).saturating_mul(PORTS_OF_SPACE);
    let ports = shape.ports.saturating_sub(others).min(PORTS_OF_SPACE);
    let made = u32::from(space == HERE);
    make_line(
        alloc,
        maker,
        (space, "allocate receive", 0, ports.saturating_sub(made)),
    )?;
    let names = shape.names.saturating_sub(1);
    make_line(alloc, maker, (space, "allocate dead_name", 0, names))
}

/// Makes messages, one in each queue, repeatedly until there are enough.
fn make_messages<M: Maker>(alloc: Global, maker: &mut M, shape: Shape) -> Result<(), Fault> {
    let line = send_line(alloc, "send make_send # id 7", shape.size, 0)?;
    for _ in 0..MESSAGES_OF_QUEUE {
        let queues = shape.messages / MESSAGES_OF_QUEUE;
        make_line(alloc, maker, (HERE, line.as_str(), 0x100, queues))?;
    }
    Ok(())
}

/// Makes a state from an empty one.
pub(crate) fn make_state<M: Maker>(
    alloc: Global,
    maker: &mut M,
    shape: Shape,
) -> Result<(), Fault> {
    let others = shape.spaces.saturating_sub(1);
    make_line(alloc, maker, (HERE, "allocate receive", 0, 1))?;
    make_line(
        alloc,
        maker,
        (HERE, "space_create 0x100 make_send", 0, others),
    )?;
    for space in HERE..shape.spaces.saturating_add(HERE) {
        make_space(alloc, maker, space, shape)?;
    }
    make_messages(alloc, maker, shape)
}
