//! The cost of messages: a send with its receive, by size and by rights, and a request with its reply.

use crate::Fault;
use crate::context::Context;
use crate::turns::{CostLine, Machine, Placed, print_row};
use crate::ways::{CLIENT, HERE};
use std::alloc::{AllocError, Global};

/// The messages that are measured: their size, the number of their rights, and the number of times that five of them
/// are sent and received in a turn.
static MESSAGES: [(&str, u32, u32, u64); 8] = [
    ("24 bytes", 24, 0, 200),
    ("1 KiB", 1_024, 0, 200),
    ("8 KiB", 8_192, 0, 100),
    ("32 bytes with 1 right", 32, 1, 200),
    ("1 KiB with 1 right", 1_024, 1, 200),
    ("8 KiB with 1 right", 8_192, 1, 100),
    ("1,052 bytes with 256 rights", 1_052, 256, 2),
    ("8 KiB with 256 rights", 8_192, 256, 2),
];

/// Messages of 24 bytes to the port in whose queue messages wait in one of the ways; and a request with a reply right,
/// its receive, the reply, and its receive.
static SMALL: [CostLine<'static>; 2] = [
    CostLine {
        label: "24 bytes, where messages wait",
        parts: &[
            ("", HERE, "send make_send_once 0x10b id 7", 0, 1),
            ("", HERE, "receive 0x10b limit 100", 0, 1),
        ],
        rounds: 500,
        is_done: true,
    },
    CostLine {
        label: "a request, its receipt, the reply, its receipt",
        parts: &[
            (
                "",
                CLIENT,
                "send copy_send 0x100 local make_send_once 0x101 id 1",
                0,
                1,
            ),
            ("", HERE, "receive 0x100 limit 100", 0, 1),
            ("", HERE, "send move_send_once 0x10c id 2", 0, 1),
            ("", CLIENT, "receive 0x101 limit 100", 0, 1),
        ],
        rounds: 500,
        is_done: true,
    },
];

/// A send to the port 0x100 by a send right that is made for it.
pub(crate) const BY_SEND: &str = "send make_send 0x100 id 7";

/// Appends an item of `count` bytes.
fn push_item(line: &mut String, count: u32) -> Result<(), AllocError> {
    line.push_str(" item bytes ")?;
    for _ in 0..count {
        line.push_str("5a")?;
    }
    Ok(())
}

/// Appends items of `count` bytes in all, each of at most 4,000 bytes after its descriptor.
fn push_bytes(line: &mut String, count: u32) -> Result<(), AllocError> {
    for _ in 0..count / 4_004 {
        push_item(line, 4_000)?;
    }
    let rest = count % 4_004;
    if rest > 4 {
        push_item(line, rest - 4)?;
    }
    Ok(())
}

/// Appends the items of a message of this size, with this many send rights, which are moved.
fn push_body(line: &mut String, size: u32, rights: u32) -> Result<(), AllocError> {
    let mut left = size.saturating_sub(24);
    if rights > 0 {
        line.push_str(" complex item move_send")?;
        for _ in 0..rights {
            line.push_str(" 0x101")?;
        }
        left = left.saturating_sub(rights.saturating_mul(4).saturating_add(4));
    }
    push_bytes(line, left)
}

/// Returns the line that sends a message in this way, of this size and with this many send rights.
pub(crate) fn send_line(alloc: Global, how: &str, size: u32, rights: u32) -> Result<String, Fault> {
    let mut line = String::new(alloc);
    if line.push_str(how).is_err() || push_body(&mut line, size, rights).is_err() {
        return Err(Fault::Memory);
    }
    Ok(line)
}

/// Measures messages that are sent by this line, and prints the results.
fn print_message<M: Machine>(
    context: &Context<'_>,
    machines: &mut [Placed<M>],
    label: &str,
    line: &str,
    rounds: u64,
) -> Result<(), Fault> {
    let parts = [
        ("", HERE, line, 0, 5),
        ("", HERE, "receive 0x100 limit 8192", 0, 5),
    ];
    let row = CostLine {
        label,
        parts: &parts,
        rounds,
        is_done: true,
    };
    print_row(context, machines, &row, 5)
}

/// Prints the cost of messages.
pub(crate) fn print_messages<M: Machine>(
    context: &Context<'_>,
    machines: &mut [Placed<M>],
) -> Result<(), Fault> {
    context.print_row(
        "nanoseconds of a send and its receipt, and how many times as long beside more",
        &[],
        &[],
    );
    for (label, size, rights, rounds) in &MESSAGES {
        let line = send_line(context.alloc, BY_SEND, *size, *rights)?;
        print_message(context, machines, label, line.as_str(), *rounds)?;
    }
    for row in &SMALL {
        print_row(context, machines, row, 1)?;
    }
    Ok(())
}
