ghost use Rattle.std.specs.Prelude.{◌≡◌, [], false, true, None, IfOk, IfSome, IfNone, IsSome};
ghost use Rattle.std.specs.FinMap as map;
ghost use Rattle.ipc_model.specs.calls.PortCalls.{names_in};
ghost use Rattle.ipc_model.specs.calls.PlainStep.{ActsIn};
ghost use Rattle.ipc_model.specs.state.Circular.{Acyclic};
ghost use Rattle.ipc_model.specs.state.Lawful.{Lawful};
ghost use Rattle.ipc_laws.specs.PortCallLaws.{is_port_call};
ghost use Rattle.kernel.specs.Choosing.{Prefers, gives_up, hands_over, only_reads, sets_nothing_off};
ghost use Rattle.port_calls.specs.Trying.{Tries};

use crate::choices::Shown;
use crate::messages::send;
use effects::Effects;
use ipc_model::{PlainCall, PlainReply};
use port_calls::{IpcState, NoticeRequest};
use receiving::{Asked, receive};
use std::alloc::{AllocError, Global};

/// Returns the reply to a call that only reads, or `None` for another call.
pub fn read(
    alloc: Global,
    state: &IpcState,
    space: u32,
    call: &PlainCall,
) -> Result<Option<PlainReply>, AllocError>
    ensures acts { IfOk result (λ done. IfSome done
        (λ reply. ActsIn state.now.current space (names_in state.now.current space) call.now reply state.now.current
        [])) }
    ensures reads { IfOk result (λ done. IfSome done (λ reply. only_reads call.now ≡ true)) }
    ensures none { IfOk result (λ done. IfNone done (only_reads call.now ≡ false)) }
{
    match call {
        PlainCall::Attach { space: other } => Ok(Some(port_calls::attach(state, space, *other))),
        PlainCall::Names => {
            let reply = port_calls::names(alloc, state, space)?;
            Ok(Some(reply))
        }
        PlainCall::Type { name } => Ok(Some(port_calls::port_type(state, space, *name))),
        PlainCall::GetRefs { name, right } => Ok(Some(port_calls::get_refs(
            state, space, *name, *right,
        ))),
        PlainCall::GetReceiveStatus { name } => {
            Ok(Some(port_calls::receive_status(state, space, *name)))
        }
        PlainCall::GetSetStatus { name } => {
            let reply = port_calls::get_set_status(alloc, state, space, *name)?;
            Ok(Some(reply))
        }
        _ => Ok(None),
    }
}

/// Makes a call that changes the state and has no effects, or returns `None` for another call. If an allocation fails,
/// the changes must be rolled back.
pub fn change(
    alloc: Global,
    state: &mut IpcState,
    space: u32,
    call: &PlainCall,
    shown: &Shown,
) -> Result<Option<PlainReply>, AllocError>
    requires there { IsSome (map.get state.old.current.spaces space) }
    requires fresh { map.get state.old.current.ports state.old.current.next ≡ None }
    ensures acts { IfOk result (λ done. IfSome done
        (λ reply. ActsIn state.old.current space (names_in state.old.current space) call.now reply state.new.current
        [])) }
    ensures changes { IfOk result (λ done. IfSome done (λ reply. sets_nothing_off call.now ≡ true)) }
    ensures shown { IfOk result (λ done. IfSome done
        (λ reply. Prefers state.old.current space call.now shown.now reply)) }
    ensures none { IfOk result (λ done. IfNone done (sets_nothing_off call.now ≡ false)) }
    ensures same { IfOk result (λ done. IfNone done (state.new ≡ state.old)) }
    ensures before { state.new.before ≡ state.old.before }
{
    match call {
        PlainCall::Rename { from, to } => {
            let reply = port_calls::rename(alloc, state, space, *from, *to)?;
            Ok(Some(reply))
        }
        PlainCall::AllocateName { right, name } => {
            let reply = port_calls::allocate_name(state, space, *right, *name)?;
            Ok(Some(reply))
        }
        PlainCall::Allocate { right } => {
            let reply = port_calls::allocate(state, space, *right, shown.name)?;
            Ok(Some(reply))
        }
        PlainCall::SetQlimit { name, limit } => {
            let reply = port_calls::set_qlimit(state, space, *name, *limit)?;
            Ok(Some(reply))
        }
        PlainCall::SetMscount { name, count } => {
            let reply = port_calls::set_mscount(state, space, *name, *count)?;
            Ok(Some(reply))
        }
        PlainCall::SetSeqno { name, seqno } => {
            let reply = port_calls::set_seqno(state, space, *name, *seqno)?;
            Ok(Some(reply))
        }
        PlainCall::MoveMember { member, after } => {
            let reply = port_calls::move_member(state, space, *member, *after)?;
            Ok(Some(reply))
        }
        _ => Ok(None),
    }
}

/// Makes a call that gives up rights, or returns `None` for another call. If the call is refused or an allocation
/// fails, the changes must be rolled back.
pub fn give_rights_up(
    alloc: Global,
    state: &mut IpcState,
    space: u32,
    call: &PlainCall,
    effects: &mut Effects,
) -> Result<Option<PlainReply>, AllocError>
    requires none { effects.old ≡ [] }
    requires there { IsSome (map.get state.old.current.spaces space) }
    ensures tries { IfOk result (λ done. IfSome done
        (λ reply. Tries state.old.current space call.now reply state.new.current effects.new)) }
    ensures gives { IfOk result (λ done. IfSome done (λ reply. gives_up call.now ≡ true)) }
    ensures none { IfOk result
        (λ done. IfNone done ((gives_up call.now ≡ false) × (state.new ≡ state.old) × (effects.new ≡ effects.old))) }
    ensures before { state.new.before ≡ state.old.before }
{
    match call {
        PlainCall::Destroy { name } => {
            let reply = port_calls::destroy(alloc, state, space, *name, effects)?;
            Ok(Some(reply))
        }
        PlainCall::Deallocate { name } => {
            let reply = port_calls::deallocate(state, space, *name, effects)?;
            Ok(Some(reply))
        }
        PlainCall::ModRefs { name, right, delta } => {
            let reply = port_calls::mod_refs(alloc, state, space, *name, *right, *delta, effects)?;
            Ok(Some(reply))
        }
        PlainCall::SpaceDestroy => {
            let reply = port_calls::space_destroy(alloc, state, space, effects)?;
            Ok(Some(reply))
        }
        _ => Ok(None),
    }
}

/// Makes a call that copies a right in, or returns `None` for another call. If the call is refused or an allocation
/// fails, the changes must be rolled back.
pub fn hand_over(
    alloc: Global,
    state: &mut IpcState,
    space: u32,
    call: &PlainCall,
    shown: &Shown,
    effects: &mut Effects,
) -> Result<Option<PlainReply>, AllocError>
    requires none { effects.old ≡ [] }
    requires there { IsSome (map.get state.old.current.spaces space) }
    ensures tries { IfOk result (λ done. IfSome done
        (λ reply. Tries state.old.current space call.now reply state.new.current effects.new)) }
    ensures hands { IfOk result (λ done. IfSome done (λ reply. hands_over call.now ≡ true)) }
    ensures shown { IfOk result (λ done. IfSome done
        (λ reply. Prefers state.old.current space call.now shown.now reply)) }
    ensures none { IfOk result (λ done. IfNone done ((hands_over call.now ≡ false) × (state.new ≡ state.old))) }
    ensures before { state.new.before ≡ state.old.before }
{
    match call {
        PlainCall::RequestNotification {
            name,
            variant,
            sync,
            notify,
            disposition,
        } => {
            let asked = NoticeRequest {
                name: *name,
                variant: *variant,
                sync: *sync,
                notify: *notify,
                disposition: *disposition,
            };
            let reply = port_calls::request_notification(state, space, asked, shown.name, effects)?;
            Ok(Some(reply))
        }
        PlainCall::InsertRight {
            name,
            right_name,
            disposition,
        } => {
            let reply = port_calls::insert_right(
                state,
                space,
                *name,
                *right_name,
                *disposition,
                effects,
            )?;
            Ok(Some(reply))
        }
        PlainCall::ExtractRight { name, disposition } => {
            let reply = port_calls::extract_right(
                state,
                space,
                *name,
                *disposition,
                shown.name,
                effects,
            )?;
            Ok(Some(reply))
        }
        PlainCall::SpaceCreate { name, disposition } => {
            let reply = port_calls::space_create(
                alloc,
                state,
                space,
                *name,
                *disposition,
                shown.space,
                effects,
            )?;
            Ok(Some(reply))
        }
        _ => Ok(None),
    }
}

/// Makes a send or a receive, or returns `None` for another call. If an allocation fails, the changes must be rolled
/// back.
pub fn exchange(
    alloc: Global,
    state: &mut IpcState,
    space: u32,
    call: &PlainCall,
    shown: &Shown,
    effects: &mut Effects,
) -> Result<Option<PlainReply>, AllocError>
    requires none { effects.old ≡ [] }
    requires there { IsSome (map.get state.old.current.spaces space) }
    requires rest { state.old.before ≡ state.old.current }
    requires lawful { Lawful state.old.current }
    requires acyclic { Acyclic state.old.current }
    ensures acts { IfOk result (λ done. IfSome done
        (λ reply. ActsIn state.old.current space
        (names_in state.old.current space) call.now reply state.new.current effects.new)) }
    ensures shown { IfOk result (λ done. IfSome done
        (λ reply. Prefers state.old.current space call.now shown.now reply)) }
    ensures none { IfOk result
        (λ done. IfNone done ((is_port_call call.now ≡ true) × (state.new ≡ state.old) × (effects.new ≡ effects.old))) }
    ensures before { state.new.before ≡ state.old.before }
{
    match call {
        PlainCall::Send { message } => {
            let reply = send(alloc, state, space, message.as_slice(), effects)?;
            Ok(Some(reply))
        }
        PlainCall::Receive {
            limit,
            large,
            name,
            waited,
        } => {
            let asked = Asked {
                limit: *limit,
                large: *large,
                name: *name,
                waited: *waited,
            };
            let names = shown.names.as_slice();
            let reply = receive(alloc, state, space, asked, shown.preference, names, effects)?;
            Ok(Some(reply))
        }
        _ => Ok(None),
    }
}
