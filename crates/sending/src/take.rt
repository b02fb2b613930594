//! Takes rights from names for a message.
ghost use Rattle.std.specs.Prelude.{◌≡◌, ◌++◌, IfSome, IfNone, true, false, Ok};
ghost use Rattle.ipc_model.specs.calls.Tests.{or_refused};
ghost use Rattle.ipc_model.specs.messages.Sending.{live_port, passed};
ghost use Rattle.ipc_model.specs.rights.CopyIn.{copy_in};
ghost use Rattle.ipc_model.specs.rights.Dispositions.{received_kind};
ghost use Rattle.ipc_model.specs.state.Ipc.{is_null_or_dead};
ghost use Rattle.sending.specs.Agrees.{Agrees};

use crate::SendFault;
use codes::{Disposition, KernReturn, MACH_PORT_DEAD, MACH_PORT_NULL};
use effects::Effects;
use ipc_model::{CarriedRight, PortInMessage, RightKind};
use rights::{IpcState, take_right};

/// Copies a right in from a name. Refused with this code if that fails.
#[tactic(auto, using(crate::proofs::Taken::taken_gave))]
pub(crate) fn take(
    state: &mut IpcState,
    space: u32,
    name: u32,
    disposition: Disposition,
    code: KernReturn,
    effects: &mut Effects,
) -> Result<CarriedRight, SendFault>
    ensures taken { Agrees (or_refused code (copy_in state.old.current space name disposition))
        (λ taken right. (right ≡ taken.right) × (state.new.current ≡ taken.state)
        × (effects.new ≡ effects.old ++ taken.notices)) result }
    ensures before { state.new.before ≡ state.old.before }
{
    match take_right(state, space, name, disposition, effects)? {
        Some(right) => Ok(right),
        None => Err(SendFault::Refused(code)),
    }
}

/// Returns the port of a destination right. `MACH_PORT_NULL` and a dead name are refused.
pub(crate) fn live_port(port: PortInMessage) -> Result<u64, SendFault>
    ensures { Agrees (or_refused KernReturn.SendInvalidDest (live_port port)) (λ serial found. found ≡ serial) result }
{
    match port {
        PortInMessage::Live(serial) => Ok(serial),
        PortInMessage::Null | PortInMessage::Dead => {
            Err(SendFault::Refused(KernReturn::SendInvalidDest))
        }
    }
}

/// Returns the port of `MACH_PORT_NULL` or `MACH_PORT_DEAD` in a message, or `None` for another name.
pub(crate) fn passed(name: u32) -> Option<PortInMessage>
    ensures passed { IfSome result (λ port. (is_null_or_dead name ≡ true) × (port ≡ passed name)) }
    ensures none { IfNone result (is_null_or_dead name ≡ false) }
{
    match name {
        MACH_PORT_NULL => Some(PortInMessage::Null),
        MACH_PORT_DEAD => Some(PortInMessage::Dead),
        _ => None,
    }
}

/// Returns true if a name is `MACH_PORT_NULL` or `MACH_PORT_DEAD`.
pub(crate) fn is_null_or_dead(name: u32) -> bool
    ensures { result ≡ is_null_or_dead name }
{
    name == MACH_PORT_NULL || name == MACH_PORT_DEAD
}

/// Returns the kind of right that a disposition gives the receiver.
pub(crate) fn received_kind(disposition: Disposition) -> RightKind
    ensures { result ≡ received_kind disposition }
{
    match disposition {
        Disposition::MoveReceive => RightKind::Receive,
        Disposition::MoveSend | Disposition::CopySend | Disposition::MakeSend => RightKind::Send,
        Disposition::MoveSendOnce | Disposition::MakeSendOnce => RightKind::SendOnce,
    }
}
