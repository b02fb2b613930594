//! The rights of a body's port items.
ghost use Rattle.std.specs.Prelude.{◌≡◌, ◌++◌, [], map, false};
ghost use Rattle.ipc_model.specs.calls.Tests.{or_refused};
ghost use Rattle.ipc_model.specs.messages.Items.{names_of_item};
ghost use Rattle.ipc_model.specs.messages.Sending as sending;
ghost use Rattle.ipc_model.specs.rights.Dispositions.{disposition_of};
ghost use Rattle.ipc_model.specs.state.Ipc.{is_null_or_dead};
ghost use Rattle.sending.specs.Agrees.{Agrees};
ghost use Rattle.sending.specs.SoFar.{so_far};
ghost use Rattle.type_desc.specs.Values.{item_value};

use crate::SendFault;
use crate::take::{passed, received_kind, take};
use codes::{Disposition, KernReturn};
use effects::Effects;
use ipc_model::CarriedRight;
use rights::IpcState;
use std::alloc::Global;
use type_desc::Item;

/// Takes the right of one more name. `MACH_PORT_NULL` and `MACH_PORT_DEAD` are passed on.
fn take_one(
    state: &mut IpcState,
    space: u32,
    name: u32,
    disposition: Disposition,
    rights: &mut Vec<CarriedRight>,
    effects: &mut Effects,
) -> Result<(), SendFault>
    ensures taken { Agrees (or_refused KernReturn.SendInvalidRight
        (sending.take_right space name disposition (so_far rights.old.items state.old.current effects.old)))
        (λ taken _. so_far rights.new.items state.new.current effects.new ≡ taken) result }
    ensures before { state.new.before ≡ state.old.before }
{
    rights.reserve(1)?;
    if let Some(port) = passed(name) {
        let kind = received_kind(disposition);
        rights.push_reserved(CarriedRight { kind, port });
        return Ok(());
    }
    take_named(state, space, name, disposition, rights, effects)
}

/// Takes the right of a name that is neither `MACH_PORT_NULL` nor `MACH_PORT_DEAD`.
fn take_named(
    state: &mut IpcState,
    space: u32,
    name: u32,
    disposition: Disposition,
    rights: &mut Vec<CarriedRight>,
    effects: &mut Effects,
) -> Result<(), SendFault>
    requires { is_null_or_dead name ≡ false }
    ensures taken { Agrees (or_refused KernReturn.SendInvalidRight
        (sending.take_right space name disposition (so_far rights.old.items state.old.current effects.old)))
        (λ taken _. so_far rights.new.items state.new.current effects.new ≡ taken) result }
    ensures before { state.new.before ≡ state.old.before }
{
    rights.reserve(1)?;
    let right = take(
        state,
        space,
        name,
        disposition,
        KernReturn::SendInvalidRight,
        effects,
    )?;
    rights.push_reserved(right);
    Ok(())
}

/// Takes the rights of the names in a port item, from the left.
fn take_names(
    state: &mut IpcState,
    space: u32,
    item: &Item<'_>,
    disposition: Disposition,
    rights: &mut Vec<CarriedRight>,
    effects: &mut Effects,
) -> Result<(), SendFault>
    ensures taken { Agrees (or_refused KernReturn.SendInvalidRight
        (sending.take_rights space disposition (names_of_item (item_value item.now))
        (so_far rights.old.items state.old.current effects.old)))
        (λ taken _. so_far rights.new.items state.new.current effects.new ≡ taken) result }
    ensures before { state.new.before ≡ state.old.before }
{
    for index in 0..item.port_count() {
        take_one(state, space, item.name(index), disposition, rights, effects)?;
    }
    Ok(())
}

/// Takes the rights of an item, if it has any.
fn take_item(
    state: &mut IpcState,
    space: u32,
    item: &Item<'_>,
    rights: &mut Vec<CarriedRight>,
    effects: &mut Effects,
) -> Result<(), SendFault>
    ensures taken { Agrees (or_refused KernReturn.SendInvalidRight
        (sending.take_item space (item_value item.now) (disposition_of item.now.type_name)
        (so_far rights.old.items state.old.current effects.old)))
        (λ taken _. so_far rights.new.items state.new.current effects.new ≡ taken) result }
    ensures before { state.new.before ≡ state.old.before }
{
    match item.disposition() {
        Some(disposition) => take_names(state, space, item, disposition, rights, effects),
        None => Ok(()),
    }
}

/// Takes the rights of items, from the left, and appends them.
fn take_items(
    state: &mut IpcState,
    space: u32,
    items: &[Item<'_>],
    rights: &mut Vec<CarriedRight>,
    effects: &mut Effects,
) -> Result<(), SendFault>
    ensures taken { Agrees (or_refused KernReturn.SendInvalidRight
        (sending.take_items space (map item_value items.now) (so_far rights.old.items state.old.current effects.old)))
        (λ taken _. so_far rights.new.items state.new.current effects.new ≡ taken) result }
    ensures before { state.new.before ≡ state.old.before }
{
    for item in items {
        take_item(state, space, item, rights, effects)?;
    }
    Ok(())
}

/// Returns the number of ports in items, including `MACH_PORT_NULL` and `MACH_PORT_DEAD`.
fn count_ports(items: &[Item<'_>]) -> usize {
    let mut count: usize = 0;
    for item in items {
        count = count.saturating_add(item.port_count() as usize);
    }
    count
}

/// Takes the rights of all port items of a body, from the left. It allocates room for all of them at once.
pub(crate) fn take_body(
    alloc: Global,
    state: &mut IpcState,
    space: u32,
    items: &[Item<'_>],
    effects: &mut Effects,
) -> Result<Vec<CarriedRight>, SendFault>
    ensures taken { Agrees (or_refused KernReturn.SendInvalidRight
        (sending.take_items space (map item_value items.now) (so_far [] state.old.current [])))
        (λ taken rights. (rights.items ≡ taken.rights) × (state.new.current ≡ taken.state)
        × (effects.new ≡ effects.old ++ taken.notices)) result }
    ensures before { state.new.before ≡ state.old.before }
{
    let mut rights = Vec::with_capacity(alloc, count_ports(items))?;
    take_items(state, space, items, &mut rights, effects)?;
    Ok(rights)
}
