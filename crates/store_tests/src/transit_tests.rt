use crate::expect::same;
use ipc_state::IpcState;
use notify::port_destroyed;
use std::alloc::Global;
use transit::would_circle;

/// Adds a port, if one more may be made.
fn add_port(state: &mut IpcState) -> Option<()> {
    if state.is_out_of_ports() || state.has_port(state.next_serial()) {
        return None;
    }
    state.add_port().ok()
}

/// Puts the receive right of a port into the queue of another.
fn carry(alloc: Global, state: &mut IpcState, port: u64, queue: u64) -> Option<()> {
    if !state.has_port(port) {
        return None;
    }
    let message = port_destroyed(alloc, port).ok()?;
    state.queue_message(queue, message).ok()
}

/// Makes ports 1 to 3, with the receive right of port 1 in the queue of port 2, and that of port 2 in the queue of port
/// 3.
fn make_two_hops(alloc: Global, state: &mut IpcState) -> Option<()> {
    for _ in 0..3 {
        add_port(state)?;
    }
    carry(alloc, state, 1, 2)?;
    carry(alloc, state, 2, 3)
}

fn circles(alloc: Global, state: &mut IpcState) -> Option<[bool; 6]> {
    make_two_hops(alloc, state)?;
    Some([
        would_circle(state, 1, 1),
        would_circle(state, 2, 1),
        would_circle(state, 3, 1),
        would_circle(state, 1, 2),
        would_circle(state, 1, 3),
        would_circle(state, 4, 1),
    ])
}

fn circles_anew(alloc: Global) -> Option<[bool; 6]> {
    let mut state = IpcState::opening(alloc).ok()?;
    let found = circles(alloc, &mut state);
    drop(state);
    found
}

#[test]
fn finds_a_circle_over_two_hops(rt: HostRuntime) {
    let wanted = [true, true, true, false, false, false];
    same(&rt, circles_anew(rt.alloc()), Some(wanted));
}
