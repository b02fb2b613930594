//! Delivers a message that is ready: queues it, or destroys it if it would travel in a cycle.
ghost use Rattle.std.specs.Prelude.{◌≡◌, ◌∷◌, ◌++◌, Bool, true, false, None, Some, OnOk};
ghost use Rattle.std.specs.List.{list_any};
ghost use Rattle.ipc_model.specs.effects.Effects.{release, releases_of};
ghost use Rattle.ipc_model.specs.messages.Sending.{goes_in_circle, live_port, sent};
ghost use Rattle.ipc_model.specs.state.Circular.{is_circular};
ghost use Rattle.rights.specs.Passed.{carries_live};

use effects::{Effect, Effects};
use ipc_model::{CarriedRight, Message, PortInMessage, RightKind};
use rights::IpcState;
use std::alloc::AllocError;
use transit::would_circle;

/// Returns true if a port's receive right would travel in a cycle in this queue. False if there is no port.
fn would_circle_with(state: &IpcState, queue: u64, port: PortInMessage) -> bool
    ensures { result ≡ elim (live_port port) as (λ _. Bool)
        [ None ↦ false | Some serial ↦ is_circular state.now.current serial queue ] }
{
    match port {
        PortInMessage::Live(serial) => would_circle(state, serial, queue),
        PortInMessage::Null | PortInMessage::Dead => false,
    }
}

/// Returns true if a right of a body is a receive right that would travel to its own queue.
fn goes_in_circle(state: &IpcState, queue: u64, right: CarriedRight) -> bool
    ensures { result ≡ goes_in_circle state.now.current queue right }
{
    match right.kind {
        RightKind::Receive => would_circle_with(state, queue, right.port),
        RightKind::Send | RightKind::SendOnce => false,
    }
}

/// Returns true if a message with these rights would carry a receive right in a cycle.
fn any_goes_in_circle(state: &IpcState, queue: u64, rights: &[CarriedRight]) -> bool
    ensures { result ≡ list_any (goes_in_circle state.now.current queue) rights.now }
{
    rights
        .iter()
        .any(|right| goes_in_circle(state, queue, *right))
}

/// Appends the releases of a message's destination, its reply right and the rights of its body, in this order.
fn destroy(queue: u64, message: &Message, effects: &mut Effects) -> Result<(), AllocError>
    ensures { OnOk result (effects.new ≡ effects.old
        ++ (release message.now.destination queue ∷ releases_of message.now)) }
{
    let kind = message.destination;
    effects.push(Effect::Release { kind, port: queue })?;
    effects.release_message(message)
}

/// Appends a message to a queue, or destroys it if it would carry a receive right in a cycle. Its rights are to live
/// ports. If an allocation fails, the changes must be rolled back.
#[tactic(auto, unfolding(ipc_model::specs::messages::Sending::sent))]
pub(crate) fn deliver(
    state: &mut IpcState,
    queue: u64,
    message: Message,
    effects: &mut Effects,
) -> Result<(), AllocError>
    requires live { carries_live state.old.current message ≡ true }
    ensures state { OnOk result (state.new.current
        ≡ (sent (record { message = message; port = queue; state = state.old.current; notices = effects.old })).0) }
    ensures effects { OnOk result (effects.new
        ≡ (sent (record { message = message; port = queue; state = state.old.current; notices = effects.old })).1) }
    ensures before { state.new.before ≡ state.old.before }
{
    if any_goes_in_circle(state, queue, message.rights.as_slice()) {
        return destroy(queue, &message, effects);
    }
    state.queue_message(queue, message)
}
