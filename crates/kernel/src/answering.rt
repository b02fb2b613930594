//! Makes a task's call on the IPC state, and says what the space keeps of it. Nothing is committed here.
ghost use Rattle.std.specs.Prelude.{◌≡◌, ◌≤◌, true, false, length, None, IfOk, IfSome, IfNone};
ghost use Rattle.std.specs.FinMap as map;
ghost use Rattle.codes.specs.declared.limits.TheConstants.{MAX_FRAME_CONTENT};
ghost use Rattle.ipc_model.specs.calls.Step.{Step, has_record};
ghost use Rattle.ipc_model.specs.encodings.Encodings.{reply_encoding};
ghost use Rattle.ipc_model.specs.state.Circular.{Acyclic};
ghost use Rattle.ipc_model.specs.state.Lawful.{Lawful};
ghost use Rattle.ipc_model.specs.state.LawfulState.{LawfulState};
ghost use Rattle.ipc_model.specs.state.State.{State};
ghost use Rattle.kernel.specs.Answering.{PrefersReply};
ghost use Rattle.kernel.specs.Keeping.{kept_by, keeping_plain, keeping_numbered, state_of};

use crate::choices::Shown;
use crate::stepping::step;
use crate::testing::{code_of_unnumberable, test_numbered};
use codes::{KernReturn, NUMBERED};
use ipc_model::{Call, NumberedCall, NumberedReply, PlainCall, PlainReply, Reply};
use number_table::NumberTable;
use port_calls::IpcState;
use std::alloc::{AllocError, Global};

/// The kept reply of a space once its call is committed.
#[derive(Drop)]
pub enum Keeping {
    /// The reply that the space kept before the call.
    Same,
    /// Nothing: the call removed the space.
    Nothing,
    /// The reply to a numbered call.
    Answer(NumberedReply),
}

/// A call that was made but isn't committed yet.
#[derive(Drop)]
pub struct Answered {
    pub reply: Reply,
    pub keeping: Keeping,
}

/// Makes one step of the machine: the call of a task in this space. If a reply that shows these choices is possible, it
/// is the reply. The changes must then be committed, or rolled back if an allocation failed.
pub fn answer_call(
    alloc: Global,
    state: &mut IpcState,
    kept: &NumberTable<NumberedReply>,
    space: u32,
    call: &Call,
    shown: &Shown,
) -> Result<Answered, AllocError>
    requires fresh { map.get state.old.current.ports state.old.current.next ≡ None }
    requires rest { state.old.before ≡ state.old.current }
    requires lawful { Lawful state.old.current }
    requires acyclic { Acyclic state.old.current }
    ensures step { IfOk result (λ done. Step (state_of state.old.current kept.now) space call.now done.reply
        (state_of state.new.current (kept_by done.keeping kept.now space))) }
    ensures shown { IfOk result
        (λ done. PrefersReply (state_of state.old.current kept.now) space call.now shown.now done.reply) }
    ensures before { state.new.before ≡ state.old.before }
{
    match call {
        Call::Plain(plain) => {
            let reply = step(alloc, state, space, plain, shown)?;
            let keeping = keeping_plain(plain, &reply);
            Ok(Answered {
                reply: Reply::Plain(reply),
                keeping,
            })
        }
        Call::Numbered(numbered) => {
            let done = answer_numbered(alloc, state, kept, space, numbered, shown)?;
            Ok(done)
        }
        Call::Unnumberable => {
            let code = code_of_unnumberable(state, space);
            Ok(refusal(code))
        }
    }
}

/// Returns the reply of `answer_call` to a call whose step isn't recorded, or `None` if the step is recorded. The
/// changes must be rolled back.
pub fn try_answer(
    alloc: Global,
    state: &mut IpcState,
    kept: &NumberTable<NumberedReply>,
    space: u32,
    call: &Call,
) -> Result<Option<Reply>, AllocError>
    requires fresh { map.get state.old.current.ports state.old.current.next ≡ None }
    requires rest { state.old.before ≡ state.old.current }
    requires lawful { LawfulState (state_of state.old.current kept.now) }
    requires acyclic { Acyclic state.old.current }
    ensures answered { IfOk result (λ answer. IfSome answer
        (λ reply. Step (state_of state.old.current kept.now) space call.now reply (state_of state.old.current kept.now)
        × (has_record call.now reply ≡ false))) }
    ensures none { IfOk result (λ answer. IfNone answer ((reply : Reply) × (new : State)
        × Step (state_of state.old.current kept.now) space call.now reply new × (has_record call.now reply ≡ true))) }
    ensures fits { IfOk result (λ answer. IfSome answer (λ reply. length (reply_encoding reply) ≤ MAX_FRAME_CONTENT)) }
    ensures before { state.new.before ≡ state.old.before }
{
    let shown = Shown::nothing(alloc);
    let done = answer_call(alloc, state, kept, space, call, &shown)?;
    let Answered { reply, keeping: _ } = done;
    if call.has_record(&reply) {
        return Ok(None);
    }
    Ok(Some(reply))
}

/// Answers a numbered call: refuses it, returns the reply that the space keeps, or makes it.
fn answer_numbered(
    alloc: Global,
    state: &mut IpcState,
    kept: &NumberTable<NumberedReply>,
    space: u32,
    numbered: &NumberedCall,
    shown: &Shown,
) -> Result<Answered, AllocError>
    requires fresh { map.get state.old.current.ports state.old.current.next ≡ None }
    requires rest { state.old.before ≡ state.old.current }
    requires lawful { Lawful state.old.current }
    requires acyclic { Acyclic state.old.current }
    ensures step { IfOk result (λ done. Step (state_of state.old.current kept.now) space (Call.Numbered numbered.now)
        done.reply (state_of state.new.current (kept_by done.keeping kept.now space))) }
    ensures shown { IfOk result (λ done. PrefersReply (state_of state.old.current kept.now) space
        (Call.Numbered numbered.now) shown.now done.reply) }
    ensures before { state.new.before ≡ state.old.before }
{
    match test_numbered(state, kept, space, numbered) {
        Err(code) => Ok(refusal(code)),
        Ok(Some(again)) => {
            let again = again.copy(alloc)?;
            Ok(Answered {
                reply: Reply::Repeated(again),
                keeping: Keeping::Same,
            })
        }
        Ok(None) => {
            let reply = step(alloc, state, space, &numbered.call, shown)?;
            let given = NumberedReply {
                request: numbered.request,
                reply,
            };
            let keeping = keeping_numbered(alloc, &numbered.call, &given)?;
            Ok(Answered {
                reply: Reply::Numbered(given),
                keeping,
            })
        }
    }
}

/// Returns the refusal of number 22 with this code.
fn refusal(code: KernReturn) -> Answered
    ensures reply { result.reply ≡ Reply.Plain (PlainReply.Refused NUMBERED code) }
    ensures keeping { result.keeping ≡ Keeping.Same }
{
    Answered {
        reply: Reply::Plain(PlainReply::Refused {
            number: NUMBERED,
            code,
        }),
        keeping: Keeping::Same,
    }
}

/// Returns what a space keeps after a plain call.
fn keeping_plain(call: &PlainCall, reply: &PlainReply) -> Keeping
    ensures { result ≡ keeping_plain call.now reply.now }
{
    match call {
        PlainCall::SpaceDestroy => {
            if reply.is_success() {
                Keeping::Nothing
            } else {
                Keeping::Same
            }
        }
        _ => Keeping::Same,
    }
}

/// Returns what a space keeps after a numbered call that was made: the reply, if the call is recorded.
fn keeping_numbered(
    alloc: Global,
    call: &PlainCall,
    given: &NumberedReply,
) -> Result<Keeping, AllocError>
    ensures { IfOk result (λ keeping. keeping ≡ keeping_numbered call.now given.now) }
{
    if !call.has_record(&given.reply) {
        return Ok(Keeping::Same);
    }
    let copy = given.copy(alloc)?;
    Ok(Keeping::Answer(copy))
}
