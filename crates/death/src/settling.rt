ghost use Rattle.std.specs.Prelude.{◌≡◌, ◌++◌, OnOk};
ghost use Rattle.std.specs.FinMap as map;
ghost use Rattle.ipc_model.specs.effects.Effects.{Settles, effect, released_if_live};
ghost use Rattle.effects.specs.Meaning.{effect_meant};

use crate::notices::notify;
use crate::receive::release_receive;
use crate::release::{release_send, release_send_once};
use effects::{Effect, Effects};
use ipc_model::RightKind;
use std::alloc::{AllocError, Global};
use transit::IpcState;

/// Drains the effects of a call in their order until none is left. Deaths append further effects. If an allocation
/// fails, the changes must be rolled back.
pub fn settle(alloc: Global, state: &mut IpcState, effects: &mut Effects) -> Result<(), AllocError>
    ensures settled { OnOk result (Settles state.old.current effects.old state.new.current) }
    ensures before { state.new.before ≡ state.old.before }
{
    while let Some(first) = effects.take() {
        run(alloc, state, first, effects)?;
    }
    Ok(())
}

/// Runs one effect, and appends the effects that follow from it.
#[tactic(auto, unfolding(ipc_model::specs::effects::Effects::effect))]
fn run(
    alloc: Global,
    state: &mut IpcState,
    first: Effect,
    effects: &mut Effects,
) -> Result<(), AllocError>
    ensures state { OnOk result (state.new.current ≡ (effect state.old.current (effect_meant first)).0) }
    ensures effects { OnOk result (effects.new ≡ effects.old ++ (effect state.old.current (effect_meant first)).1) }
    ensures before { state.new.before ≡ state.old.before }
{
    match first {
        Effect::Notify { target, notice } => notify(alloc, state, target, notice),
        Effect::Release { kind, port } => release(alloc, state, kind, port, effects),
    }
}

fn release(
    alloc: Global,
    state: &mut IpcState,
    kind: RightKind,
    port: u64,
    effects: &mut Effects,
) -> Result<(), AllocError>
    ensures state { OnOk result (state.new.current
        ≡ (released_if_live state.old.current port kind (map.get state.old.current.ports port)).0) }
    ensures effects { OnOk result (effects.new ≡ effects.old
        ++ (released_if_live state.old.current port kind (map.get state.old.current.ports port)).1) }
    ensures before { state.new.before ≡ state.old.before }
{
    match kind {
        RightKind::Send => release_send(alloc, state, port),
        RightKind::SendOnce => release_send_once(alloc, state, port),
        RightKind::Receive => release_receive(alloc, state, port, effects),
    }
}
