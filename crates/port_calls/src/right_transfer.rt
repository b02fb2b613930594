ghost use Rattle.std.specs.Prelude.{◌≡◌, ℕ, ◌<◌, ◌&&◌, ◌∷◌, [], not, Some, None, IfOk, IfErr, IfSome, IfNone, OnOk, IsSome, List};
ghost use Rattle.std.specs.FinMap as map;
ghost use Rattle.ipc_model.specs.calls.Actions.{taken_by};
ghost use Rattle.ipc_model.specs.rights.CopyIn.{copy_in};
ghost use Rattle.ipc_model.specs.rights.CopyOut.{MayArrive, names_after};
ghost use Rattle.ipc_model.specs.declared.plain_call.PlainCall.TheVariants as call;
ghost use Rattle.ipc_model.specs.effects.Effects.{Effect};
ghost use Rattle.ipc_model.specs.calls.PortCalls.{is_in_use, names_are_used_up, is_send_once_kind, is_taken_otherwise, names_in, passes_bound, stands_elsewhere, tests_of};
ghost use Rattle.ipc_model.specs.state.Ipc.{Ipc, with_names};
ghost use Rattle.ipc_model.specs.calls.PlainStep.{ActsIn};
ghost use Rattle.ipc_model.specs.calls.Tests.{first_failing};
ghost use Rattle.port_calls.specs.Trying.{Tries};

use crate::name_lookup::{is_null_or_dead, named};
use crate::reply::refused;
use codes::{
    Disposition, KernReturn, MACH_PORT_EXTRACT_RIGHT, MACH_PORT_INSERT_RIGHT, MAX_NAMES,
    MAX_SEND_REFERENCES,
};
use effects::Effects;
use ipc_model::{CarriedRight, Entry, PlainReply, PortInMessage, RightKind};
use rights::{IpcState, arrival_needed, names_needed, put_right, take_right};
use std::alloc::AllocError;

/// `mach_port_insert_right`: copies a right in from a name, and puts it under a name that the task chooses. The space
/// must exist, and no effects may be pending. If the call is refused or an allocation fails, the changes must be rolled
/// back.
#[tactic(auto, unfolding(ipc_model::specs::calls::PortCalls::tests_of, ipc_model::specs::calls::Actions::Done))]
pub fn insert_right(
    state: &mut IpcState,
    space: u32,
    name: u32,
    right_name: u32,
    disposition: u32,
    effects: &mut Effects,
) -> Result<PlainReply, AllocError>
    requires none { effects.old ≡ [] }
    requires there { IsSome (map.get state.old.current.spaces space) }
    ensures tries { IfOk result
        (λ reply. Tries state.old.current space
        (call.InsertRight name right_name disposition) reply state.new.current effects.new) }
    ensures before { state.new.before ≡ state.old.before }
{
    let number = MACH_PORT_INSERT_RIGHT;
    if is_null_or_dead(name) {
        return Ok(refused(number, KernReturn::InvalidValue));
    }
    let Some(disposition) = Disposition::from_number(disposition) else {
        return Ok(refused(number, KernReturn::InvalidValue));
    };
    let Some(right) = take_given(state, space, right_name, disposition, effects)? else {
        return Ok(refused(number, KernReturn::InvalidCapability));
    };
    let PortInMessage::Live(port) = right.port else {
        return Ok(refused(number, KernReturn::InvalidCapability));
    };
    if let Some(code) = refusal_of_insert(state, space, name, right.kind, port) {
        return Ok(refused(number, code));
    }
    put_given(state, space, right, name)?;
    Ok(PlainReply::Done { number })
}

/// Copies in the right from its name.
#[tactic(auto, using(crate::proofs::Handed::taken_is))]
fn take_given(
    state: &mut IpcState,
    space: u32,
    name: u32,
    disposition: Disposition,
    effects: &mut Effects,
) -> Result<Option<CarriedRight>, AllocError>
    requires none { effects.old ≡ [] }
    requires there { IsSome (map.get state.old.current.spaces space) }
    ensures taken { IfOk result (λ taken. IfSome taken
        (λ right. copy_in state.old.current space name disposition
        ≡ Some (record { right = right; state = state.new.current; notices = effects.new }))) }
    ensures refused { IfOk result (λ taken. IfNone taken (copy_in state.old.current space name disposition ≡ None)) }
    ensures there { IfOk result (λ taken. IfSome taken (λ right. IsSome (map.get state.new.current.spaces space))) }
    ensures before { state.new.before ≡ state.old.before }
{
    // Each reply has its own exit, at which its contract is proved.
    let Some(right) = take_right(state, space, name, disposition, effects)? else {
        return Ok(None);
    };
    Ok(Some(right))
}

/// Puts a copied-in right under a name.
fn put_given(
    state: &mut IpcState,
    space: u32,
    right: CarriedRight,
    name: u32,
) -> Result<(), AllocError>
    requires there { IsSome (map.get state.old.current.spaces space) }
    requires room { map.get (names_in state.old.current space) name ≡ None
        → map.len (names_in state.old.current space) < MAX_NAMES }
    ensures ok { OnOk result (state.new.current
        ≡ with_names state.old.current space
        (names_after (names_in state.old.current space) right.kind right.port name)) }
    ensures before { state.new.before ≡ state.old.before }
{
    put_right(state, space, right, name)
}

/// Returns the code with which the chosen name refuses a right to a port, or `None` if it doesn't.
fn refusal_of_insert(
    state: &IpcState,
    space: u32,
    name: u32,
    kind: RightKind,
    port: u64,
) -> Option<KernReturn>
    ensures refusal { result ≡ first_failing
        ((
          not (is_send_once_kind kind) && stands_elsewhere (names_in state.now.current space) name port,
          KernReturn.RightExists,
        )
        ∷ (is_taken_otherwise kind port (map.get (names_in state.now.current space) name), KernReturn.NameExists)
        ∷ (passes_bound kind (map.get (names_in state.now.current space) name), KernReturn.UrefsOverflow)
        ∷ (
          not (is_in_use (names_in state.now.current space) name)
              && names_are_used_up (names_in state.now.current space),
          KernReturn.NoSpace,
        ) ∷ []) }
    ensures room { IfNone result (map.get (names_in state.now.current space) name ≡ None
        → map.len (names_in state.now.current space) < MAX_NAMES) }
{
    if kind != RightKind::SendOnce && state.stands_elsewhere(space, name, port) {
        return Some(KernReturn::RightExists);
    }
    let entry = state.entry(space, name);
    if is_taken_otherwise(kind, port, entry) {
        return Some(KernReturn::NameExists);
    }
    if passes_bound(kind, entry) {
        return Some(KernReturn::UrefsOverflow);
    }
    if entry.is_none() && state.name_count(space) >= MAX_NAMES {
        return Some(KernReturn::NoSpace);
    }
    None
}

/// Returns true if a name can't take a right to a port: it is in use and doesn't hold the port's send or receive right,
/// or the right is a send-once right.
fn is_taken_otherwise(kind: RightKind, port: u64, entry: Option<Entry>) -> bool
    ensures { result ≡ is_taken_otherwise kind port entry }
{
    match entry {
        None => false,
        Some(Entry::Port(rights)) => kind == RightKind::SendOnce || rights.port != port,
        Some(_) => true,
    }
}

/// Returns true if one more send right would exceed the maximum number of references.
fn passes_bound(kind: RightKind, entry: Option<Entry>) -> bool
    ensures { result ≡ passes_bound kind entry }
{
    match entry {
        Some(Entry::Port(rights)) => {
            kind == RightKind::Send && rights.send >= MAX_SEND_REFERENCES
        }
        _ => false,
    }
}

/// `mach_port_extract_right`: copies a right in from a name, and puts it under its port's name or a new one, which is
/// the preferred one if possible. The space must exist, and no effects may be pending. If the call is refused or an
/// allocation fails, the changes must be rolled back.
#[tactic(auto, unfolding(ipc_model::specs::calls::PortCalls::tests_of, ipc_model::specs::calls::Actions::Done))]
pub fn extract_right(
    state: &mut IpcState,
    space: u32,
    name: u32,
    disposition: u32,
    wanted: Option<u32>,
    effects: &mut Effects,
) -> Result<PlainReply, AllocError>
    requires none { effects.old ≡ [] }
    requires there { IsSome (map.get state.old.current.spaces space) }
    ensures acts { IfOk result
        (λ reply. Tries state.old.current space
        (call.ExtractRight name disposition) reply state.new.current effects.new) }
    ensures wanted { IfOk result (λ reply. (shown : ℕ) → wanted ≡ Some shown → (kind : RightKind) → (new : Ipc)
        → (effects : List Effect)
        → ActsIn state.old.current space (names_in state.old.current space) (call.ExtractRight name disposition)
        (PlainReply.Extracted shown kind) new effects → reply ≡ PlainReply.Extracted shown kind) }
    ensures before { state.new.before ≡ state.old.before }
{
    let right = match take_extracted(state, space, name, disposition, effects)? {
        Ok(right) => right,
        Err(code) => return Ok(refused(MACH_PORT_EXTRACT_RIGHT, code)),
    };
    let shown = arrival_needed(state, space, right, wanted);
    put_given(state, space, right, shown)?;
    Ok(PlainReply::Extracted {
        name: shown,
        kind: right.kind,
    })
}

/// Copies in the right to be extracted, or returns the code with which that is refused.
#[tactic(auto, unfolding(ipc_model::specs::calls::PortCalls::tests_of), using(rights::specs::Room::room_to_come))]
fn take_extracted(
    state: &mut IpcState,
    space: u32,
    name: u32,
    disposition: u32,
    effects: &mut Effects,
) -> Result<Result<CarriedRight, KernReturn>, AllocError>
    requires none { effects.old ≡ [] }
    requires there { IsSome (map.get state.old.current.spaces space) }
    ensures refused { IfOk result (λ taken. IfErr taken
        (λ code. first_failing (tests_of state.old.current space (names_in state.old.current space)
        (call.ExtractRight name disposition)) ≡ Some code)) }
    ensures passed { IfOk result (λ taken. IfOk taken
        (λ right. first_failing (tests_of state.old.current space (names_in state.old.current space)
        (call.ExtractRight name disposition)) ≡ None)) }
    ensures taken { IfOk result (λ taken. IfOk taken
        (λ right. taken_by state.old.current space name disposition
        ≡ Some (record { right = right; state = state.new.current; notices = effects.new }))) }
    ensures there { IfOk result (λ taken. IfOk taken (λ right. IsSome (map.get state.new.current.spaces space))) }
    ensures room { IfOk result (λ taken. IfOk taken
        (λ right. (name : ℕ) → MayArrive (names_in state.new.current space) right.kind right.port name
        → map.get (names_in state.new.current space) name ≡ None
        → map.len (names_in state.new.current space) < MAX_NAMES)) }
    ensures before { state.new.before ≡ state.old.before }
{
    let Some(disposition) = Disposition::from_number(disposition) else {
        return Ok(Err(KernReturn::InvalidValue));
    };
    if named(state, space, name).is_none() {
        return Ok(Err(KernReturn::InvalidName));
    }
    let Some(right) = take_given(state, space, name, disposition, effects)? else {
        return Ok(Err(KernReturn::InvalidRight));
    };
    let PortInMessage::Live(_) = right.port else {
        return Ok(Err(KernReturn::InvalidRight));
    };
    if state.name_count(space) > MAX_NAMES - names_needed(state, space, &[right]) {
        return Ok(Err(KernReturn::NoSpace));
    }
    Ok(Ok(right))
}
