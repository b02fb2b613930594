//! Replays steps from their records.
ghost use Rattle.std.specs.Prelude.{◌≡◌, ◌↔◌, IsTrue, Some, None, OnOk, IsErrOf, option_copied};
ghost use Rattle.std.specs.FinMap as map;
ghost use Rattle.ipc_model.specs.calls.Step.{Step};
ghost use Rattle.ipc_model.specs.state.Circular.{Acyclic};
ghost use Rattle.ipc_model.specs.state.Lawful.{Lawful};
ghost use Rattle.ipc_model.specs.state.State.{State};
ghost use Rattle.kernel.specs.Keeping.{state_of};
ghost use Rattle.kernel.specs.Replaying.{KeepsAlready};

use crate::ReplayFault;
use crate::answering::{Answered, answer_call};
use crate::choices::Shown;
use crate::keeping::keep;
use crate::reply::{inner, is_same_reply};
use ipc_model::{Call, NumberedReply, Record, Reply};
use number_table::NumberTable;
use port_calls::IpcState;
use std::alloc::Global;

/// Returns true if a record is of a numbered call whose reply the space already keeps.
pub fn is_kept_already(kept: &NumberTable<NumberedReply>, record: &Record) -> bool
    ensures { IsTrue result ↔ KeepsAlready kept.now «record».now.space «record».now.call «record».now.reply }
{
    match (&record.call, &record.reply) {
        (Call::Numbered(numbered), Reply::Numbered(given)) => {
            is_kept_as(kept.get(record.space), given, numbered.request)
        }
        _ => false,
    }
}

/// Returns true if the kept reply is this one, and to a request of this number.
fn is_kept_as(kept: Option<&NumberedReply>, given: &NumberedReply, request: u32) -> bool
    ensures { IsTrue result ↔ ((option_copied kept.entry ≡ Some given.now) × (given.now.request ≡ request)) }
{
    match kept {
        Some(kept) => kept.is_same(given) && given.request == request,
        None => false,
    }
}

/// Makes the step of a record. At a fault, the changes must be rolled back.
pub fn step_again(
    alloc: Global,
    state: &mut IpcState,
    kept: &mut NumberTable<NumberedReply>,
    record: &Record,
) -> Result<(), ReplayFault>
    requires fresh { map.get state.old.current.ports state.old.current.next ≡ None }
    requires rest { state.old.before ≡ state.old.current }
    requires lawful { Lawful state.old.current }
    requires acyclic { Acyclic state.old.current }
    ensures step { OnOk result (Step (state_of state.old.current kept.old) «record».now.space «record».now.call
        «record».now.reply (state_of state.new.current kept.new)) }
    ensures mismatch { IsErrOf result ReplayFault.Mismatch → (new : State)
        → Step (state_of state.old.current kept.old) «record».now.space «record».now.call «record».now.reply new → ⊥ }
{
    let shown = Shown::of(alloc, inner(&record.reply))?;
    let done = answer_call(alloc, state, kept, record.space, &record.call, &shown)?;
    let Answered { reply, keeping } = done;
    if !is_same_reply(&reply, &record.reply) {
        return Err(ReplayFault::Mismatch);
    }
    keep(kept, record.space, keeping)?;
    Ok(())
}
