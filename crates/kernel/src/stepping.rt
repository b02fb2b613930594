ghost use Rattle.std.specs.Prelude.{◌≡◌, [], true, false, None, IfOk, IsSome, OnOk};
ghost use Rattle.std.specs.FinMap as map;
ghost use Rattle.ipc_laws.specs.PortCallLaws.{is_port_call};
ghost use Rattle.ipc_model.specs.calls.PlainStep.{PlainStep};
ghost use Rattle.ipc_model.specs.effects.Effects.{Settles};
ghost use Rattle.ipc_model.specs.state.Circular.{Acyclic};
ghost use Rattle.ipc_model.specs.state.Lawful.{Lawful};
ghost use Rattle.kernel.specs.Choosing.{Prefers, only_reads, sets_nothing_off};
ghost use Rattle.kernel.specs.Stepping.{PrefersStep};
ghost use Rattle.port_calls.specs.Trying.{Tries};

use crate::choices::Shown;
use crate::dispatch::{change, exchange, give_rights_up, hand_over, read};
use crate::reply::is_refusal;
use codes::KernReturn;
use death::settle;
use effects::Effects;
use ipc_model::{PlainCall, PlainReply};
use port_calls::IpcState;
use std::alloc::{AllocError, Global};

/// Makes one step of the machine: the call of a task in this space. If a reply that shows these choices is possible, it
/// is the reply. The changes must then be committed, or rolled back if an allocation failed.
pub fn step(
    alloc: Global,
    state: &mut IpcState,
    space: u32,
    call: &PlainCall,
    shown: &Shown,
) -> Result<PlainReply, AllocError>
    requires fresh { map.get state.old.current.ports state.old.current.next ≡ None }
    requires rest { state.old.before ≡ state.old.current }
    requires lawful { Lawful state.old.current }
    requires acyclic { Acyclic state.old.current }
    ensures step { IfOk result (λ reply. PlainStep state.old.current space call.now reply state.new.current) }
    ensures shown { IfOk result (λ reply. PrefersStep state.old.current space call.now shown.now reply) }
    ensures before { state.new.before ≡ state.old.before }
{
    if !state.has_space(space) {
        return Ok(PlainReply::refused(alloc, call.number(), KernReturn::InvalidTask));
    }
    if let Some(reply) = read(alloc, state, space, call)? {
        return Ok(reply);
    }
    if let Some(reply) = change(alloc, state, space, call, shown)? {
        return Ok(reply);
    }
    let reply = step_by_effects(alloc, state, space, call, shown)?;
    Ok(reply)
}

/// Makes a step that may take rights and have effects.
fn step_by_effects(
    alloc: Global,
    state: &mut IpcState,
    space: u32,
    call: &PlainCall,
    shown: &Shown,
) -> Result<PlainReply, AllocError>
    requires there { IsSome (map.get state.old.current.spaces space) }
    requires rest { state.old.before ≡ state.old.current }
    requires lawful { Lawful state.old.current }
    requires acyclic { Acyclic state.old.current }
    requires no_read { only_reads call.now ≡ false }
    requires no_change { sets_nothing_off call.now ≡ false }
    ensures step { IfOk result (λ reply. PlainStep state.old.current space call.now reply state.new.current) }
    ensures shown { IfOk result (λ reply. PrefersStep state.old.current space call.now shown.now reply) }
    ensures before { state.new.before ≡ state.old.before }
{
    let mut effects = Effects::new(alloc);
    if let Some(reply) = exchange(alloc, state, space, call, shown, &mut effects)? {
        let reply = settle_after(alloc, state, effects, reply)?;
        return Ok(reply);
    }
    let reply = try_call(alloc, state, space, call, shown, &mut effects)?;
    if is_refusal(&reply) {
        state.roll_back();
        return Ok(reply);
    }
    let reply = settle_after(alloc, state, effects, reply)?;
    Ok(reply)
}

/// Drains the effects of a call, and returns its reply.
fn settle_after(
    alloc: Global,
    state: &mut IpcState,
    effects: Effects,
    reply: PlainReply,
) -> Result<PlainReply, AllocError>
    ensures reply { IfOk result (λ r. r ≡ reply) }
    ensures settled { OnOk result (Settles state.old.current effects state.new.current) }
    ensures before { state.new.before ≡ state.old.before }
{
    let mut effects = effects;
    settle(alloc, state, &mut effects)?;
    Ok(reply)
}

/// Makes the call's own action, for a call that gives up rights or copies one in. If it is refused or an allocation
/// fails, the changes must be rolled back.
fn try_call(
    alloc: Global,
    state: &mut IpcState,
    space: u32,
    call: &PlainCall,
    shown: &Shown,
    effects: &mut Effects,
) -> Result<PlainReply, AllocError>
    requires none { effects.old ≡ [] }
    requires there { IsSome (map.get state.old.current.spaces space) }
    requires no_read { only_reads call.now ≡ false }
    requires no_change { sets_nothing_off call.now ≡ false }
    requires no_message { is_port_call call.now ≡ true }
    ensures tries { IfOk result (λ reply. Tries state.old.current space call.now reply state.new.current effects.new) }
    ensures shown { IfOk result (λ reply. Prefers state.old.current space call.now shown.now reply) }
    ensures before { state.new.before ≡ state.old.before }
{
    if let Some(reply) = give_rights_up(alloc, state, space, call, effects)? {
        return Ok(reply);
    }
    let Some(reply) = hand_over(alloc, state, space, call, shown, effects)? else {
        unreachable!()
    };
    Ok(reply)
}
