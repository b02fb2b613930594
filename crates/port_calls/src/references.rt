ghost use Rattle.std.specs.Prelude.{◌≡◌, ◌++◌, ◌∷◌, ◌==◌, ◌≤◌, ◌||◌, ◌&&◌, [], OnOk, IsSome, Some};
ghost use Rattle.codes.specs.declared.limits.TheConstants.{MAX_SEND_REFERENCES};
ghost use Rattle.ipc_model.specs.calls.Actions.{release_if, effects_of_name};
ghost use Rattle.ipc_model.specs.calls.PlainStep.{Acts};
ghost use Rattle.ipc_model.specs.rights.CopyIn.{with_left, notices_of_left};
ghost use Rattle.ipc_model.specs.declared.plain_call.PlainCall.TheVariants as call;
ghost use Rattle.ipc_model.specs.effects.Effects.{release, port_deleted};
ghost use Rattle.ipc_model.specs.calls.PortCalls.{is_set, has_receive, send_references};
ghost use Rattle.ipc_model.specs.state.Ipc.{entry_at, without_name};

use crate::name_lookup::named;
use crate::reply::refused;
use codes::{KernReturn, MACH_PORT_DEALLOCATE};
use effects::{Effect, Effects};
use ipc_model::{Entry, PlainReply, PortRights, RightKind};
use rights::{IpcState, announce_left, set_left};
use std::alloc::AllocError;

/// `mach_port_deallocate`: removes one reference of a send right, a send-once right or a dead name.
#[tactic(auto, unfolding(ipc_model::specs::calls::PortCalls::tests_of, ipc_model::specs::calls::Actions::Done))]
pub fn deallocate(
    state: &mut IpcState,
    space: u32,
    name: u32,
    effects: &mut Effects,
) -> Result<PlainReply, AllocError>
    requires none { effects.old ≡ [] }
    ensures acts { Acts state.old.current space (call.Deallocate name) result state.new.current effects.new }
    ensures before { state.new.before ≡ state.old.before }
{
    let number = MACH_PORT_DEALLOCATE;
    let Some(entry) = named(state, space, name) else {
        return Ok(refused(number, KernReturn::InvalidName));
    };
    if has_no_references(entry) {
        return Ok(refused(number, KernReturn::InvalidRight));
    }
    match entry {
        Entry::Port(rights) => send_left(
            state,
            space,
            name,
            rights,
            rights.send.saturating_sub(1),
            effects,
        )?,
        Entry::SendOnce {
            port,
            dead_name_target,
        } => send_once_gone(state, space, name, port, dead_name_target, effects)?,
        Entry::Set => {}
        Entry::Dead { references } => set_left(
            state,
            space,
            name,
            Entry::Dead {
                references: references.saturating_sub(1),
            },
        )?,
    }
    Ok(PlainReply::Done { number })
}

/// Returns true if a name is a set or holds only a receive right.
fn has_no_references(entry: Entry) -> bool
    ensures { result ≡ (is_set entry || (has_receive entry && send_references entry == 0)) }
{
    match entry {
        Entry::Port(rights) => rights.receive && rights.send == 0,
        Entry::Set => true,
        Entry::SendOnce { .. } | Entry::Dead { .. } => false,
    }
}

/// Sets the references of a send right under a name. If none are left, the right is released.
pub fn send_left(
    state: &mut IpcState,
    space: u32,
    name: u32,
    rights: PortRights,
    left: u32,
    effects: &mut Effects,
) -> Result<(), AllocError>
    requires named { IsSome (entry_at state.old.current space name) }
    requires few { left ≤ MAX_SEND_REFERENCES }
    ensures state { OnOk result (state.new.current
        ≡ with_left state.old.current space name (Entry.Port (record rights { send = left }))) }
    ensures effects { OnOk result (effects.new ≡ effects.old
        ++ (release_if (left == 0) (release RightKind.Send rights.port)
        ++ notices_of_left name (Entry.Port (record rights { send = left })))) }
    ensures before { state.new.before ≡ state.old.before }
{
    let entry = Entry::Port(PortRights {
        send: left,
        ..rights
    });
    if left == 0 {
        release(effects, RightKind::Send, rights.port)?;
    }
    announce_left(effects, name, entry)?;
    set_left(state, space, name, entry)
}

/// Appends the release of a right to the effects.
pub fn release(effects: &mut Effects, kind: RightKind, port: u64) -> Result<(), AllocError>
    ensures { OnOk result (effects.new ≡ effects.old ++ release kind port ∷ []) }
{
    effects.push(Effect::Release { kind, port })
}

/// Removes the single reference of a send-once right, and its name.
pub fn send_once_gone(
    state: &mut IpcState,
    space: u32,
    name: u32,
    port: u64,
    request: Option<u64>,
    effects: &mut Effects,
) -> Result<(), AllocError>
    ensures state { OnOk result (state.new.current ≡ without_name state.old.current space name) }
    ensures effects { OnOk result (effects.new ≡ effects.old
        ++ (release RightKind.SendOnce port ∷ port_deleted name request)) }
    ensures before { state.new.before ≡ state.old.before }
{
    release(effects, RightKind::SendOnce, port)?;
    effects.port_deleted(name, request)?;
    state.remove_name(space, name)
}

/// Appends the releases of all rights under a name, and its port-deleted notice.
pub fn release_name(effects: &mut Effects, name: u32, entry: Entry) -> Result<(), AllocError>
    ensures { OnOk result (effects.new ≡ effects.old ++ effects_of_name name entry) }
{
    match entry {
        Entry::Port(rights) => release_rights(effects, name, rights),
        Entry::SendOnce {
            port,
            dead_name_target,
        } => {
            release(effects, RightKind::SendOnce, port)?;
            effects.port_deleted(name, dead_name_target)
        }
        Entry::Set | Entry::Dead { .. } => Ok(()),
    }
}

fn release_rights(effects: &mut Effects, name: u32, rights: PortRights) -> Result<(), AllocError>
    ensures { OnOk result (effects.new ≡ effects.old ++ effects_of_name name (Entry.Port rights)) }
{
    if rights.send != 0 {
        release(effects, RightKind::Send, rights.port)?;
    }
    if rights.receive {
        release(effects, RightKind::Receive, rights.port)?;
    }
    effects.port_deleted(name, rights.dead_name_target)
}
