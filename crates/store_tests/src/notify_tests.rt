use crate::expect::same;
use effects::Notice;
use ipc_model::{CarriedRight, PortInMessage, RightKind};
use notify::{message, port_destroyed};
use std::alloc::Global;

/// Returns the id of a notice's message, which carries no rights, and true if this is its body.
fn said(alloc: Global, notice: Notice, body: &[u8]) -> Option<(u32, bool)> {
    let message = message(alloc, notice).ok()?;
    let seen = (message.id, message.body.as_slice() == body);
    drop(message);
    Some(seen)
}

#[test]
fn notices_say_whom_they_tell_of(rt: HostRuntime) {
    let alloc = rt.alloc();
    let name = 0x0102_0304;
    // A type descriptor of one word, and its number.
    let named = &[0x0f, 0x20, 0x01, 0x10, 4, 3, 2, 1];
    let count = &[0x02, 0x20, 0x01, 0x10, 3, 0, 0, 0];
    let seen = [
        said(alloc, Notice::PortDeleted { name }, named),
        said(alloc, Notice::DeadName { name }, named),
        said(alloc, Notice::NoSenders { count: 3 }, count),
        said(alloc, Notice::SendOnce, &[]),
    ];
    let wanted = [
        Some((65, true)),
        Some((72, true)),
        Some((70, true)),
        Some((71, true)),
    ];
    same(&rt, seen, wanted);
}

/// The compared properties of a message with a right: its id, true if it is complex, the number of its rights, and the
/// first right.
type Carried = (u32, bool, usize, Option<CarriedRight>);

/// Returns these properties of the notice about a port's destruction.
fn carried_by_notice(alloc: Global, serial: u64) -> Option<Carried> {
    let message = port_destroyed(alloc, serial).ok()?;
    let seen = (
        message.id,
        message.complex,
        message.rights.as_slice().len(),
        message.rights.as_slice().first().copied(),
    );
    drop(message);
    Some(seen)
}

#[test]
fn a_port_destroyed_notice_brings_the_right(rt: HostRuntime) {
    let right = CarriedRight {
        kind: RightKind::Receive,
        port: PortInMessage::Live(7),
    };
    let seen = carried_by_notice(rt.alloc(), 7);
    same(&rt, seen, Some((69, true, 1, Some(right))));
}
