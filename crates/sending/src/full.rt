//! The limit of a queue.
ghost use Rattle.std.specs.Prelude.{◌≡◌, ◌&&◌, not};
ghost use Rattle.ipc_model.specs.declared.message.RightKind.TheVariants as kind;
ghost use Rattle.ipc_model.specs.messages.Sending.{is_full};
ghost use Rattle.ipc_model.specs.state.Placed.{same_kind};

use ipc_model::RightKind;
use rights::IpcState;

/// Returns true if a port's queue is at its limit or above it.
fn is_full(state: &IpcState, port: u64) -> bool
    ensures { result ≡ is_full state.now.current port }
{
    let Some(numbers) = state.numbers(port) else {
        return false;
    };
    numbers.limit <= state.message_count(port)
}

/// Returns true if a full queue refuses a message that is sent by this right. A send-once right is never refused.
pub(crate) fn is_stopped(state: &IpcState, port: u64, destination: RightKind) -> bool
    ensures { result ≡ (is_full state.now.current port && not (same_kind destination kind.SendOnce)) }
{
    is_full(state, port) && !is_send_once(destination)
}

fn is_send_once(destination: RightKind) -> bool
    ensures { result ≡ same_kind destination kind.SendOnce }
{
    match destination {
        RightKind::SendOnce => true,
        RightKind::Receive | RightKind::Send => false,
    }
}
