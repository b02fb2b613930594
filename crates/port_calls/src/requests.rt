ghost use Rattle.std.specs.Prelude.{◌≡◌, ◌<◌, ◌++◌, ℕ, List, [], Some, None, IfOk, IfErr, OnOk, IsSome, is_none};
ghost use Rattle.std.specs.FinMap as map;
ghost use Rattle.ipc_model.specs.calls.Actions.{GivesBack, dead_name_request_set, lacks_senders, make_send_count_of, port_request_set, request_set_under, target_for};
ghost use Rattle.ipc_model.specs.declared.plain_call.PlainCall.TheVariants as call;
ghost use Rattle.ipc_model.specs.effects.Effects as machine;
ghost use Rattle.ipc_model.specs.calls.PortCalls.{dead_references, is_variant, names_in, notify_disposition, target_under, tests_of, tests_of_request, tests_of_variant};
ghost use Rattle.ipc_model.specs.state.Ipc.{Ipc, entry_at};
ghost use Rattle.ipc_model.specs.calls.PlainStep.{ActsIn};
ghost use Rattle.ipc_model.specs.calls.Tests.{first_failing};
ghost use Rattle.port_calls.specs.Trying.{Tries};
ghost use Rattle.rights.specs.Passed.{AreFewReferences};

use crate::allocation::chosen_name;
use crate::name_lookup::named;
use crate::reply::refused;
use codes::{
    Disposition, KernReturn, MACH_NOTIFY_DEAD_NAME, MACH_NOTIFY_NO_SENDERS,
    MACH_NOTIFY_PORT_DESTROYED, MACH_PORT_NULL, MACH_PORT_REQUEST_NOTIFICATION,
    MAX_DEAD_REFERENCES, MAX_NAMES,
};
use effects::{Effect, Effects, Notice};
use ipc_model::{Entry, PlainReply, PortInMessage};
use notify::{replace_no_senders, replace_port_destroyed, with_request};
use port_set::received_port;
use rights::{IpcState, request_of, take_right};
use std::alloc::AllocError;

/// The arguments of `mach_port_request_notification`.
#[derive(Clone, Copy)]
pub struct NoticeRequest {
    /// The name that the notice is about.
    pub name: u32,
    /// The id of the notice.
    pub variant: u32,
    /// The make-send count that the task knows, or, for other notices, a flag: notify at once if it is already due.
    pub sync: u32,
    /// The name of the right that receives the notice. `MACH_PORT_NULL` cancels the request.
    pub notify: u32,
    /// The disposition of that right.
    pub disposition: u32,
}

/// `mach_port_request_notification`: requests a notice, or cancels the request if `notify` is `MACH_PORT_NULL`. The
/// former target is returned as a send-once right, under the preferred name if that is unused, otherwise under the
/// least unused one. If the call is refused or an allocation fails, the changes must be rolled back.
#[tactic(auto, unfolding(ipc_model::specs::calls::Actions::Done))]
pub fn request_notification(
    state: &mut IpcState,
    space: u32,
    asked: NoticeRequest,
    wanted: Option<u32>,
    effects: &mut Effects,
) -> Result<PlainReply, AllocError>
    requires none { effects.old ≡ [] }
    ensures tries { IfOk result
        (λ reply. Tries state.old.current space
        (call.RequestNotification asked.name asked.variant asked.sync asked.notify asked.disposition) reply
        state.new.current effects.new) }
    ensures wanted { IfOk result (λ reply. (shown : ℕ) → wanted ≡ Some shown → (new : Ipc)
        → (effects : List machine.Effect)
        → ActsIn state.old.current space (names_in state.old.current space)
        (call.RequestNotification asked.name asked.variant asked.sync asked.notify asked.disposition)
        (PlainReply.PreviousTarget shown) new effects → reply ≡ PlainReply.PreviousTarget shown) }
    ensures before { state.new.before ≡ state.old.before }
{
    match take_target(state, space, asked, effects)? {
        Err(code) => Ok(refused(MACH_PORT_REQUEST_NOTIFICATION, code)),
        Ok(target) => {
            let name = replace_target(state, space, asked, target, wanted, effects)?;
            Ok(PlainReply::PreviousTarget { name })
        }
    }
}

/// Copies in the target of a request. Returns no target if the request is to be cancelled, or the code with which the
/// call is refused.
#[tactic(auto, unfolding(ipc_model::specs::calls::PortCalls::tests_of))]
fn take_target(
    state: &mut IpcState,
    space: u32,
    asked: NoticeRequest,
    effects: &mut Effects,
) -> Result<Result<Option<u64>, KernReturn>, AllocError>
    requires none { effects.old ≡ [] }
    ensures refused { IfOk result (λ outcome. IfErr outcome
        (λ code. first_failing (tests_of state.old.current space (names_in state.old.current space)
        (call.RequestNotification asked.name asked.variant asked.sync asked.notify asked.disposition))
        ≡ Some code)) }
    ensures passed { IfOk result (λ outcome. IfOk outcome
        (λ target. first_failing (tests_of state.old.current space (names_in state.old.current space)
        (call.RequestNotification asked.name asked.variant asked.sync asked.notify asked.disposition)) ≡ None)) }
    ensures taken { IfOk result (λ outcome. IfOk outcome
        (λ target. target_for state.old.current space asked.notify asked.disposition
        ≡ record { target = target; state = state.new.current; notices = effects.new })) }
    ensures allowed { IfOk result (λ outcome. IfOk outcome
        (λ target. first_failing (tests_of_request state.new.current space asked.name asked.variant asked.sync
        (is_none target)) ≡ None)) }
    ensures before { state.new.before ≡ state.old.before }
{
    if !is_variant(asked.variant) {
        return Ok(Err(KernReturn::InvalidValue));
    }
    if asked.notify == MACH_PORT_NULL {
        if let Some(code) = refusal_of_request(state, space, asked, true) {
            return Ok(Err(code));
        }
        return Ok(Ok(None));
    }
    let Some(disposition) = notify_disposition(asked.disposition) else {
        return Ok(Err(KernReturn::InvalidValue));
    };
    let Some(right) = take_right(state, space, asked.notify, disposition, effects)? else {
        return Ok(Err(KernReturn::InvalidCapability));
    };
    let PortInMessage::Live(port) = right.port else {
        return Ok(Err(KernReturn::InvalidCapability));
    };
    if let Some(code) = refusal_of_request(state, space, asked, false) {
        return Ok(Err(code));
    }
    Ok(Ok(Some(port)))
}

/// Returns true if a notice with this id can be requested.
fn is_variant(variant: u32) -> bool
    ensures { result ≡ is_variant variant }
{
    variant == MACH_NOTIFY_PORT_DESTROYED
        || variant == MACH_NOTIFY_NO_SENDERS
        || variant == MACH_NOTIFY_DEAD_NAME
}

/// Returns the disposition of a notice's right, which is moved or made as a send-once right.
fn notify_disposition(disposition: u32) -> Option<Disposition>
    ensures { result ≡ notify_disposition disposition }
{
    match Disposition::from_number(disposition)? {
        Disposition::MoveSendOnce => Some(Disposition::MoveSendOnce),
        Disposition::MakeSendOnce => Some(Disposition::MakeSendOnce),
        _ => None,
    }
}

/// Returns the code with which a request about a name is refused, or `None` if it isn't.
fn refusal_of_request(
    state: &IpcState,
    space: u32,
    asked: NoticeRequest,
    cancels: bool,
) -> Option<KernReturn>
    ensures { result ≡ first_failing
        (tests_of_request state.now.current space asked.name asked.variant asked.sync cancels) }
{
    let Some(entry) = named(state, space, asked.name) else {
        return Some(KernReturn::InvalidName);
    };
    if let Some(code) = refusal_of_variant(state, space, asked, entry, cancels) {
        return Some(code);
    }
    if target_under(state, space, asked.name, asked.variant).is_none() {
        return None;
    }
    if state.name_count(space) >= MAX_NAMES {
        return Some(KernReturn::NoSpace);
    }
    None
}

/// Returns the code with which the name's entry makes a request for this notice fail, or `None` if it doesn't.
fn refusal_of_variant(
    state: &IpcState,
    space: u32,
    asked: NoticeRequest,
    entry: Entry,
    cancels: bool,
) -> Option<KernReturn>
    requires named { map.get (names_in state.now.current space) asked.name ≡ Some entry }
    ensures { result ≡ first_failing
        (tests_of_variant (names_in state.now.current space) asked.name asked.variant asked.sync cancels) }
{
    if asked.variant == MACH_NOTIFY_PORT_DESTROYED {
        if asked.sync != 0 {
            return Some(KernReturn::InvalidValue);
        }
        if received_port(entry).is_none() {
            return Some(KernReturn::InvalidRight);
        }
        return None;
    }
    if asked.variant == MACH_NOTIFY_NO_SENDERS {
        if received_port(entry).is_none() {
            return Some(KernReturn::InvalidRight);
        }
        return None;
    }
    match entry {
        Entry::Port(_) | Entry::SendOnce { .. } => None,
        Entry::Set => Some(KernReturn::InvalidRight),
        Entry::Dead { references } => {
            if asked.sync == 0 || cancels {
                return Some(KernReturn::InvalidArgument);
            }
            if references >= MAX_DEAD_REFERENCES {
                return Some(KernReturn::UrefsOverflow);
            }
            None
        }
    }
}

/// Returns the target of the request for this notice about a name.
fn target_under(state: &IpcState, space: u32, name: u32, variant: u32) -> Option<u64>
    ensures { result ≡ target_under state.now.current (names_in state.now.current space) variant name }
{
    let Some(entry) = state.entry(space, name) else {
        return None;
    };
    if variant == MACH_NOTIFY_DEAD_NAME {
        return request_of(entry);
    }
    let Some(port) = received_port(entry) else {
        return None;
    };
    let Some(numbers) = state.numbers(port) else {
        return None;
    };
    if variant == MACH_NOTIFY_PORT_DESTROYED {
        return numbers.port_destroyed_target;
    }
    numbers.no_senders_target
}

/// Sets the target of the request about a name, and returns the former target to the task. Returns the name that the
/// former target got.
fn replace_target(
    state: &mut IpcState,
    space: u32,
    asked: NoticeRequest,
    target: Option<u64>,
    wanted: Option<u32>,
    effects: &mut Effects,
) -> Result<u32, AllocError>
    requires allowed { first_failing
        (tests_of_request state.old.current space asked.name asked.variant asked.sync (is_none target)) ≡ None }
    ensures given { IfOk result
        (λ given. GivesBack (request_set_under state.old.current space asked.name asked.variant asked.sync target).0
        space (target_under state.old.current (names_in state.old.current space) asked.variant asked.name) given
        state.new.current) }
    ensures effects { OnOk result (effects.new ≡ effects.old
        ++ (request_set_under state.old.current space asked.name asked.variant asked.sync target).1) }
    ensures wanted { IfOk result (λ given. (shown : ℕ) → wanted ≡ Some shown → (new : Ipc)
        → GivesBack (request_set_under state.old.current space asked.name asked.variant asked.sync target).0 space
        (target_under state.old.current (names_in state.old.current space) asked.variant asked.name) shown new
        → given ≡ shown) }
    ensures before { state.new.before ≡ state.old.before }
{
    let former = target_under(state, space, asked.name, asked.variant);
    set_request(state, space, asked, target, effects)?;
    let given = give_back(state, space, former, wanted)?;
    Ok(given)
}

/// Sets the target of the request about a name. If the notice is due, it is sent at once instead.
fn set_request(
    state: &mut IpcState,
    space: u32,
    asked: NoticeRequest,
    target: Option<u64>,
    effects: &mut Effects,
) -> Result<(), AllocError>
    requires allowed { first_failing
        (tests_of_request state.old.current space asked.name asked.variant asked.sync (is_none target)) ≡ None }
    ensures state { OnOk result (state.new.current
        ≡ (request_set_under state.old.current space asked.name asked.variant asked.sync target).0) }
    ensures effects { OnOk result (effects.new ≡ effects.old
        ++ (request_set_under state.old.current space asked.name asked.variant asked.sync target).1) }
    ensures before { state.new.before ≡ state.old.before }
{
    let Some(entry) = state.entry(space, asked.name) else {
        return Ok(());
    };
    if asked.variant == MACH_NOTIFY_DEAD_NAME {
        set_dead_name_request(state, space, asked.name, target, entry, effects)?;
        return Ok(());
    }
    let Some(port) = received_port(entry) else {
        return Ok(());
    };
    set_port_request(state, asked.variant, asked.sync, port, target, effects)?;
    Ok(())
}

/// Sets a name's dead-name request. For a dead name the notice is sent at once, and the name gets one more reference.
fn set_dead_name_request(
    state: &mut IpcState,
    space: u32,
    name: u32,
    target: Option<u64>,
    entry: Entry,
    effects: &mut Effects,
) -> Result<(), AllocError>
    requires named { entry_at state.old.current space name ≡ Some entry }
    requires few { AreFewReferences entry }
    requires one_more { dead_references entry < MAX_DEAD_REFERENCES }
    ensures state { OnOk result (state.new.current
        ≡ (dead_name_request_set state.old.current space name target entry).0) }
    ensures effects { OnOk result (effects.new ≡ effects.old
        ++ (dead_name_request_set state.old.current space name target entry).1) }
    ensures before { state.new.before ≡ state.old.before }
{
    match entry {
        Entry::Port(_) | Entry::SendOnce { .. } => {
            state.put_name(space, name, with_request(entry, target))
        }
        Entry::Set => Ok(()),
        Entry::Dead { references } => {
            if target.is_none() {
                return Ok(());
            }
            effects.dead_name(name, target)?;
            state.put_name(
                space,
                name,
                Entry::Dead {
                    references: references + 1,
                },
            )
        }
    }
}

/// Sets a request on a port. If its notice is due, it is sent at once, and the request isn't kept.
fn set_port_request(
    state: &mut IpcState,
    variant: u32,
    sync: u32,
    port: u64,
    target: Option<u64>,
    effects: &mut Effects,
) -> Result<(), AllocError>
    ensures state { OnOk result (state.new.current ≡ (port_request_set state.old.current variant sync port target).0) }
    ensures effects { OnOk result (effects.new ≡ effects.old
        ++ (port_request_set state.old.current variant sync port target).1) }
    ensures before { state.new.before ≡ state.old.before }
{
    if variant == MACH_NOTIFY_PORT_DESTROYED {
        replace_port_destroyed(state, port, target)?;
        return Ok(());
    }
    let Some(asked) = target else {
        replace_no_senders(state, port, None)?;
        return Ok(());
    };
    if !lacks_senders(state, sync, port) {
        replace_no_senders(state, port, target)?;
        return Ok(());
    }
    let count = make_send_count(state, port);
    effects.push(Effect::Notify {
        target: asked,
        notice: Notice::NoSenders { count },
    })?;
    replace_no_senders(state, port, None)?;
    Ok(())
}

/// Returns true if a port has no send right, and at least as many were made as the task knows.
fn lacks_senders(state: &IpcState, sync: u32, port: u64) -> bool
    ensures { result ≡ lacks_senders state.now.current sync port }
{
    let Some(numbers) = state.numbers(port) else {
        return false;
    };
    if state.has_senders(port) {
        return false;
    }
    sync <= numbers.make_send_count
}

fn make_send_count(state: &IpcState, port: u64) -> u32
    ensures { result ≡ make_send_count_of state.now.current port }
{
    match state.numbers(port) {
        Some(numbers) => numbers.make_send_count,
        None => 0,
    }
}

/// Returns the former target of a request to the task as a send-once right: under the preferred name if that is unused,
/// otherwise under the least unused one. Returns the name, or `MACH_PORT_NULL` if there was no target.
fn give_back(
    state: &mut IpcState,
    space: u32,
    former: Option<u64>,
    wanted: Option<u32>,
) -> Result<u32, AllocError>
    requires room { IsSome former → map.len (names_in state.old.current space) < MAX_NAMES }
    ensures given { IfOk result (λ given. GivesBack state.old.current space former given state.new.current) }
    ensures wanted { IfOk result (λ given. (shown : ℕ) → wanted ≡ Some shown → (new : Ipc)
        → GivesBack state.old.current space former shown new → given ≡ shown) }
    ensures before { state.new.before ≡ state.old.before }
{
    let Some(port) = former else {
        return Ok(MACH_PORT_NULL);
    };
    let name = chosen_name(state, space, wanted);
    state.put_name(
        space,
        name,
        Entry::SendOnce {
            port,
            dead_name_target: None,
        },
    )?;
    Ok(name)
}
