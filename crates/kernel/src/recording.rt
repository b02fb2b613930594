//! Steps that are recorded before they are committed.
ghost use Rattle.std.specs.Prelude.{◌≡◌, ℕ, true, false, None, IfOk, OnOk, OnErr};
ghost use Rattle.std.specs.FinMap as map;
ghost use Rattle.ipc_laws.specs.RecordedSteps.{IsAnsweredWhole};
ghost use Rattle.ipc_model.specs.calls.Step.{Step, has_record};
ghost use Rattle.ipc_model.specs.declared.call.Call.{Call};
ghost use Rattle.ipc_model.specs.declared.reply.Reply.{Reply};
ghost use Rattle.ipc_model.specs.state.Circular.{Acyclic};
ghost use Rattle.ipc_model.specs.state.LawfulState.{LawfulState};
ghost use Rattle.kernel.specs.Keeping.{state_of};

use crate::answering::{Answered, answer_call};
use crate::choices::Shown;
use crate::keeping::keep_recorded;
use ipc_model::{Call, NumberedReply, Reply};
use number_table::NumberTable;
use port_calls::IpcState;
use std::alloc::{AllocError, Global};

/// Writes the record of a call before the call is committed.
pub trait Recorder {
    /// There is room for one more record. The write may still run out of memory.
    ghost has_room: { Self → Type 0 };

    /// Relates the recorder before and after it wrote the record of a call of a task in this space with this reply.
    ghost wrote: { Self → ℕ → Call → Reply → Self → Type 0 };

    /// Writes a record. If an allocation fails, nothing changed.
    fn write(&mut self, space: u32, call: &Call, reply: &Reply) -> Result<(), AllocError>
        requires room { has_room self.old }
        requires whole { IsAnsweredWhole call.now reply.now }
        requires recorded { has_record call.now reply.now ≡ true }
        ensures ok { OnOk result (wrote self.old space call.now reply.now self.new) }
        ensures err { OnErr result (self.new ≡ self.old) };
}

/// A recorder that writes nothing.
#[derive(Drop)]
pub(crate) struct Unrecorded;

impl Recorder for Unrecorded {
    ghost has_room = { λ _. Unit {0} };

    ghost wrote = { λ _ _ _ _ _. Unit {0} };

    fn write(&mut self, _space: u32, _call: &Call, _reply: &Reply) -> Result<(), AllocError> {
        Ok(())
    }
}

/// Makes one step of the machine, updates the space's kept reply and writes the record, if the step is recorded. The
/// changes of the IPC state must then be committed, or rolled back if an allocation failed. In that case nothing else
/// changed.
pub(crate) fn step_recorded<R: Recorder>(
    alloc: Global,
    state: &mut IpcState,
    kept: &mut NumberTable<NumberedReply>,
    space: u32,
    call: &Call,
    recorder: &mut R,
) -> Result<Reply, AllocError>
    requires fresh { map.get state.old.current.ports state.old.current.next ≡ None }
    requires rest { state.old.before ≡ state.old.current }
    requires lawful { LawfulState (state_of state.old.current kept.old) }
    requires acyclic { Acyclic state.old.current }
    requires room { R.has_room recorder.old }
    ensures step { IfOk result (λ reply. Step (state_of state.old.current kept.old) space call.now reply
        (state_of state.new.current kept.new)) }
    ensures written { IfOk result (λ reply. has_record call.now reply ≡ true
        → R.wrote recorder.old space call.now reply recorder.new) }
    ensures unwritten { IfOk result (λ reply. has_record call.now reply ≡ false → recorder.new ≡ recorder.old) }
    ensures before { state.new.before ≡ state.old.before }
    ensures err { OnErr result ((kept.new ≡ kept.old) × (recorder.new ≡ recorder.old)) }
{
    let shown = Shown::nothing(alloc);
    let done = answer_call(alloc, state, kept, space, call, &shown)?;
    let Answered { reply, keeping } = done;
    keep_recorded(kept, space, call, &reply, keeping, recorder)?;
    Ok(reply)
}
