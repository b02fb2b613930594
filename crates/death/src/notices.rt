ghost use Rattle.std.specs.Prelude.{◌≡◌, true, OnOk};
ghost use Rattle.ipc_model.specs.effects.Effects.{notified};
ghost use Rattle.ipc_model.specs.messages.Notices as notice;
ghost use Rattle.ipc_model.specs.state.Ipc.{lives};
ghost use Rattle.effects.specs.Meaning.{notice_meant};

use effects::Notice;
use std::alloc::{AllocError, Global};
use transit::IpcState;

/// Queues a notice at its target's port, regardless of the queue's limit. If the port is dead, the notice is dropped.
/// If an allocation fails, the changes must be rolled back.
pub fn notify(
    alloc: Global,
    state: &mut IpcState,
    target: u64,
    notice: Notice,
) -> Result<(), AllocError>
    ensures ok { OnOk result (state.new.current ≡ notified state.old.current target (notice_meant notice)) }
    ensures before { state.new.before ≡ state.old.before }
{
    let message = notify::message(alloc, notice)?;
    state.queue_message(target, message)
}

/// Queues the port-destroyed notice that carries the receive right of a live port, regardless of the queue's limit.
pub fn notify_port_destroyed(
    alloc: Global,
    state: &mut IpcState,
    target: u64,
    serial: u64,
) -> Result<(), AllocError>
    requires live { lives state.old.current serial ≡ true }
    ensures ok { OnOk result (state.new.current ≡ notified state.old.current target (notice.PortDestroyed serial)) }
    ensures before { state.new.before ≡ state.old.before }
{
    let message = notify::port_destroyed(alloc, serial)?;
    state.queue_message(target, message)
}
