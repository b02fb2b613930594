ghost use Rattle.std.specs.Prelude.{◌≡◌, [], IsSome};
ghost use Rattle.std.specs.FinMap as map;
ghost use Rattle.ipc_model.specs.state.Circular.{Acyclic};
ghost use Rattle.ipc_model.specs.calls.PlainStep.{Acts};
ghost use Rattle.ipc_model.specs.state.Lawful.{Lawful};

use codes::{KernReturn, MACH_PORT_NULL};
use effects::Effects;
use ipc_model::{PlainCall, PlainReply};
use port_calls::IpcState;
use sending::SendFault;
use std::alloc::{AllocError, Global};

/// Makes a send, and rolls its changes back if it is refused. If an allocation fails, the changes must be rolled back.
pub fn send(
    alloc: Global,
    state: &mut IpcState,
    space: u32,
    message: &[u8],
    effects: &mut Effects,
) -> Result<PlainReply, AllocError>
    requires none { effects.old ≡ [] }
    requires there { IsSome (map.get state.old.current.spaces space) }
    requires rest { state.old.before ≡ state.old.current }
    requires lawful { Lawful state.old.current }
    requires acyclic { Acyclic state.old.current }
    ensures acts { Acts state.old.current space (PlainCall.Send message.now) result state.new.current effects.new }
    ensures before { state.new.before ≡ state.old.before }
{
    match sending::send(alloc, state, space, message, effects) {
        Ok(()) => Ok(PlainReply::without_message(alloc, KernReturn::Success, 0, MACH_PORT_NULL)),
        Err(SendFault::Refused(code)) => {
            state.roll_back();
            *effects = Effects::new(alloc);
            Ok(PlainReply::without_message(alloc, code, 0, MACH_PORT_NULL))
        }
        Err(SendFault::NoMemory) => Err(AllocError),
    }
}
