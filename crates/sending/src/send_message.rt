ghost use Rattle.std.specs.Prelude.{◌≡◌, [], IfErr, OnOk, IsSome};
ghost use Rattle.std.specs.FinMap as map;
ghost use Rattle.ipc_model.specs.messages.Sending.{ready_to_send};
ghost use Rattle.ipc_model.specs.state.Circular.{Acyclic};
ghost use Rattle.ipc_model.specs.state.Lawful.{Lawful};
ghost use Rattle.sending.specs.Agrees.{ReportsRefusal};
ghost use Rattle.sending.specs.Sends.{WasSent};

use crate::SendFault;
use crate::deliver::deliver;
use crate::ready::ready;
use effects::Effects;
use rights::IpcState;
use std::alloc::Global;

/// `mach_msg` with `MACH_SEND_MSG`: appends a task's message to its destination's queue, with the rights that it names.
/// A message that would carry a receive right in a cycle is destroyed. The effects of the send are appended to the
/// pending effects. The space must exist, the state must be one that the kernel keeps, and no effects may be pending.
///
/// `Refused`, by the first test that fails: `SendMsgTooSmall` (fewer than 24 bytes, not a multiple of 4, or an item
/// that is cut off), `SendNoBuffer` (more than 8,192 bytes, or more than 256 ports), `SendInvalidHeader`,
/// `SendInvalidMemory` and `SendInvalidType` (an item), `SendInvalidDest`, `SendInvalidReply`, `SendInvalidRight` (a
/// right of the body), `SendTimedOut` (the queue is full). `NoMemory`: out of memory. After either fault the changes
/// must be rolled back.
pub fn send(
    alloc: Global,
    state: &mut IpcState,
    space: u32,
    message: &[u8],
    effects: &mut Effects,
) -> Result<(), SendFault>
    requires none { effects.old ≡ [] }
    requires there { IsSome (map.get state.old.current.spaces space) }
    requires lawful { Lawful state.old.current }
    requires acyclic { Acyclic state.old.current }
    ensures sent { OnOk result (WasSent
        (ready_to_send state.old.current space message.now) state.new.current effects.new) }
    ensures refused { IfErr result (λ fault. ReportsRefusal (ready_to_send state.old.current space message.now) fault) }
    ensures before { state.new.before ≡ state.old.before }
{
    let (ready, queue) = ready(alloc, state, space, message, effects)?;
    deliver(state, queue, ready, effects)?;
    Ok(())
}
