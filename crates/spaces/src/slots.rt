// Operations on one slot, or on the touched ones.
ghost use Rattle.std.specs.Prelude.{◌≡◌, ◌<◌, [], None, Some, IfOk, OnOk, OnErr, IfSome, option_map};
ghost use Rattle.std.specs.FinMap as map;
ghost use Rattle.codes.specs.declared.limits.TheConstants.{MAX_NAMES};
ghost use Rattle.ipc_model.specs.state.Ipc.{Names};
ghost use Rattle.port_space.specs.References.{AreFewReferences};
ghost use Rattle.spaces.specs.Slots.{SpaceSlot, slot_at_rest, was, is, committed_slot, rolled_back_slot, slot_changed, slot_opened, stood_at};
ghost use Rattle.tracked_map.specs.Slots.{picked};
ghost use Rattle.tracked_map.specs.Touched.{AreTouched, turned};

use crate::slot::Space;
use ipc_model::Entry;
use number_table::NumberTable;
use std::alloc::{AllocError, Global};

/// Adds a space without names if the slot is empty.
pub(crate) fn open_at(
    alloc: Global,
    slots: &mut NumberTable<Space>,
    space: u32,
) -> Result<(), AllocError>
    requires absent { (slot : SpaceSlot) → map.get slots.old space ≡ Some slot → slot.current ≡ None }
    ensures ok { OnOk result (slots.new ≡ slot_opened slots.old space) }
    ensures err { OnErr result (slots.new ≡ slots.old) }
{
    if let Some(slot) = slots.get_mut(space) {
        slot.open();
        return Ok(());
    }
    let mut slot = Space::new(alloc);
    slot.open();
    drop(slots.insert(space, slot)?);
    Ok(())
}

/// Removes a space without names.
pub(crate) fn close_at(slots: &mut NumberTable<Space>, space: u32)
    requires empty { (slot : SpaceSlot) → map.get slots.old space ≡ Some slot → (names : Names)
        → slot.current ≡ Some names → names ≡ map.empty }
    ensures { slots.new ≡ slot_changed slots.old space (λ slot. record slot { current = None }) }
{
    if let Some(slot) = slots.get_mut(space) {
        slot.close();
    }
}

/// Replaces the entry of a name in a space, and returns the former one. If an allocation fails, the changes of the
/// space are rolled back.
pub(crate) fn put_at(
    slots: &mut NumberTable<Space>,
    space: u32,
    name: u32,
    entry: Entry,
) -> Result<Option<Entry>, AllocError>
    requires room { (slot : SpaceSlot) → map.get slots.old space ≡ Some slot → (names : Names)
        → slot.current ≡ Some names → map.get names name ≡ None → map.len names < MAX_NAMES }
    requires few { AreFewReferences entry }
    ensures former { IfOk result (λ former. former ≡ stood_at slots.old space name) }
    ensures ok { OnOk result (slots.new ≡ slot_changed slots.old space
        (λ slot. record slot { current = option_map (λ names. map.insert names name entry) slot.current })) }
    ensures err { OnErr result (slots.new ≡ slot_changed slots.old space (λ slot. slot_at_rest slot.before)) }
{
    match slots.get_mut(space) {
        Some(slot) => slot.put(name, entry),
        None => Ok(None),
    }
}

/// Removes a name from a space, and returns its entry. If an allocation fails, the changes of the space are rolled
/// back.
pub(crate) fn remove_at(
    slots: &mut NumberTable<Space>,
    space: u32,
    name: u32,
) -> Result<Option<Entry>, AllocError>
    ensures former { IfOk result (λ former. former ≡ stood_at slots.old space name) }
    ensures few { IfOk result (λ former. IfSome former AreFewReferences) }
    ensures ok { OnOk result (slots.new ≡ slot_changed slots.old space
        (λ slot. record slot { current = option_map (λ names. map.remove names name) slot.current })) }
    ensures err { OnErr result (slots.new ≡ slot_changed slots.old space (λ slot. slot_at_rest slot.before)) }
{
    match slots.get_mut(space) {
        Some(slot) => slot.remove(name),
        None => Ok(None),
    }
}

/// Commits the changes of the slots with these keys.
pub(crate) fn commit_slots(slots: &mut NumberTable<Space>, touched: &[u32])
    requires { AreTouched was is slots.old touched.now }
    ensures shown { picked is slots.new ≡ picked is slots.old }
    ensures rest { AreTouched was is slots.new [] }
{
    let mut rest = touched;
    while let Some((key, before)) = rest.split_last() {
        commit_slot(slots, *key);
        rest = before;
    }
}

fn commit_slot(slots: &mut NumberTable<Space>, key: u32)
    ensures { slots.new ≡ turned is committed_slot slots.old key }
{
    let Some(slot) = slots.get_mut(key) else {
        return;
    };
    if slot.is_there() {
        slot.commit();
        return;
    }
    drop(slots.remove(key));
}

/// Rolls back the changes of the slots with these keys.
pub(crate) fn roll_slots_back(slots: &mut NumberTable<Space>, touched: &[u32])
    requires { AreTouched is was slots.old touched.now }
    ensures shown { picked was slots.new ≡ picked was slots.old }
    ensures rest { AreTouched is was slots.new [] }
{
    let mut rest = touched;
    while let Some((key, before)) = rest.split_last() {
        roll_slot_back(slots, *key);
        rest = before;
    }
}

fn roll_slot_back(slots: &mut NumberTable<Space>, key: u32)
    ensures { slots.new ≡ turned was rolled_back_slot slots.old key }
{
    let Some(slot) = slots.get_mut(key) else {
        return;
    };
    if slot.was_there() {
        slot.roll_back();
        return;
    }
    drop(slots.remove(key));
}
