ghost use Rattle.std.specs.Prelude.{◌≡◌, ◌++◌, OnOk, Some, None, option_map};
ghost use Rattle.std.specs.FinMap as map;
ghost use Rattle.ipc_model.specs.effects.Effects.{released_if_live, after_death, effects_of_death, sent_to_target};
ghost use Rattle.ipc_model.specs.declared.port.PortState.{PortState};
ghost use Rattle.death.specs.Taking.{taker};
ghost use Rattle.notify.specs.Passed.{numbers_of};

use crate::notices::notify_port_destroyed;
use effects::Effects;
use ipc_model::RightKind;
use std::alloc::{AllocError, Global};
use transit::{IpcState, PortNumbers, would_circle};

/// Handles a released receive right. A port-destroyed request takes the right along, unless it would come back to its
/// own queue. Without such a request the port dies.
pub fn release_receive(
    alloc: Global,
    state: &mut IpcState,
    serial: u64,
    effects: &mut Effects,
) -> Result<(), AllocError>
    ensures state { OnOk result (state.new.current
        ≡ (released_if_live state.old.current serial RightKind.Receive (map.get state.old.current.ports serial)).0) }
    ensures effects { OnOk result (effects.new ≡ effects.old
        ++ (released_if_live state.old.current serial RightKind.Receive (map.get state.old.current.ports serial)).1) }
    ensures before { state.new.before ≡ state.old.before }
{
    let Some(numbers) = state.numbers(serial) else {
        return Ok(());
    };
    match taker(state, serial, numbers.port_destroyed_target) {
        Some(target) => send_to_target(alloc, state, serial, target, numbers),
        None => die(state, serial, numbers, effects),
    }
}

/// Returns the target that takes a released receive right along, or `None` if the port dies.
fn taker(state: &IpcState, serial: u64, request: Option<u64>) -> Option<u64>
    ensures { result ≡ taker state.now.current serial request }
{
    let target = request?;
    (state.has_port(target) && !would_circle(state, serial, target)).then_some(target)
}

/// Sends the receive right of a live port to the request's target, with a port-destroyed notice.
#[tactic(auto, using(crate::proofs::Working::lives_on))]
fn send_to_target(
    alloc: Global,
    state: &mut IpcState,
    serial: u64,
    target: u64,
    numbers: PortNumbers,
) -> Result<(), AllocError>
    requires there { option_map numbers_of (map.get state.old.current.ports serial) ≡ Some numbers }
    ensures ok { OnOk result (state.new.current ≡ sent_to_target state.old.current serial target) }
    ensures before { state.new.before ≡ state.old.before }
{
    let sent = PortNumbers {
        set: None,
        sequence_number: 0,
        make_send_count: 0,
        port_destroyed_target: None,
        ..numbers
    };
    state.set_numbers(serial, sent)?;
    notify_port_destroyed(alloc, state, target, serial)
}

/// Makes a port die. The rights of its messages are released, names of it become dead names with their notices, and
/// carried rights to it become `MACH_PORT_DEAD`. Requests whose target it is are removed, and the targets of its own
/// requests are released if no notice will go to them.
fn die(
    state: &mut IpcState,
    serial: u64,
    numbers: PortNumbers,
    effects: &mut Effects,
) -> Result<(), AllocError>
    ensures state { OnOk result (state.new.current ≡ after_death state.old.current serial) }
    ensures effects { OnOk result ((port : PortState) → map.get state.old.current.ports serial ≡ Some port
        → port.no_senders_target ≡ numbers.no_senders_target
        → effects.new ≡ effects.old ++ effects_of_death state.old.current serial port) }
    ensures before { state.new.before ≡ state.old.before }
{
    state.releases(serial, effects)?;
    state.bury(serial, effects)?;
    effects.release_target(numbers.no_senders_target)
}
