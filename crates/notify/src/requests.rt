ghost use Rattle.std.specs.Prelude.{◌≡◌, IfOk, OnOk, option_and_then};
ghost use Rattle.std.specs.FinMap as map;
ghost use Rattle.ipc_model.specs.state.Ipc.{with_port};
ghost use Rattle.ipc_state.specs.Passed.{AreFewReferences};
ghost use Rattle.notify.specs.Requests.{with_request};

use ipc_model::{Entry, PortRights};
use ipc_state::{IpcState, PortNumbers};
use std::alloc::AllocError;

/// Sets the target of a port's no-senders request, or removes the request if there is no target. Returns the former
/// target. If an allocation fails, the changes must be rolled back.
pub fn replace_no_senders(
    state: &mut IpcState,
    port: u64,
    target: Option<u64>,
) -> Result<Option<u64>, AllocError>
    ensures former { IfOk result (λ former. former ≡ option_and_then
        (λ port. port.no_senders_target) (map.get state.old.current.ports port)) }
    ensures kept { OnOk result (state.new.current ≡ with_port state.old.current port
        (λ port. record port { no_senders_target = target })) }
    ensures before { state.new.before ≡ state.old.before }
{
    let Some(numbers) = state.numbers(port) else {
        return Ok(None);
    };
    let former = numbers.no_senders_target;
    let asked = PortNumbers {
        no_senders_target: target,
        ..numbers
    };
    state.set_numbers(port, asked)?;
    Ok(former)
}

/// Sets the target of a port's port-destroyed request, or removes the request if there is no target. Returns the former
/// target. If an allocation fails, the changes must be rolled back.
pub fn replace_port_destroyed(
    state: &mut IpcState,
    port: u64,
    target: Option<u64>,
) -> Result<Option<u64>, AllocError>
    ensures former { IfOk result (λ former. former ≡ option_and_then
        (λ port. port.port_destroyed_target) (map.get state.old.current.ports port)) }
    ensures kept { OnOk result (state.new.current ≡ with_port state.old.current port
        (λ port. record port { port_destroyed_target = target })) }
    ensures before { state.new.before ≡ state.old.before }
{
    let Some(numbers) = state.numbers(port) else {
        return Ok(None);
    };
    let former = numbers.port_destroyed_target;
    let asked = PortNumbers {
        port_destroyed_target: target,
        ..numbers
    };
    state.set_numbers(port, asked)?;
    Ok(former)
}

/// Returns an entry with its dead-name request replaced. A set has none, and the notice about a dead name is sent at
/// once.
pub fn with_request(entry: Entry, target: Option<u64>) -> Entry
    ensures entry { result ≡ with_request target entry }
    ensures few { AreFewReferences entry → AreFewReferences result }
{
    match entry {
        Entry::Port(rights) => Entry::Port(PortRights {
            dead_name_target: target,
            ..rights
        }),
        Entry::SendOnce { port, .. } => Entry::SendOnce {
            port,
            dead_name_target: target,
        },
        Entry::Set | Entry::Dead { .. } => entry,
    }
}
