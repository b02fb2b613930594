//! A map from numbers to values whose changes are committed or rolled back, without allocations.
#![tactic(auto)]

ghost use Rattle.std.specs.Prelude.{◌≡◌, ℕ, ◌≤◌, ◌<◌, ◌||◌, [], true, false, Some, None, IfOk, OnOk, OnErr, MatchOption, is_some, option_copied, ◌^◌};
ghost use Rattle.std.specs.FinMap as map;
ghost use Rattle.std.specs.Option.{option_flatten};
ghost use Rattle.tracked_map.specs.Tracked.{at_rest, is_mark, len_after, over, shown, unmarked, AreMarked, AreRemoved, HasSlots};

use number_map::NumberMap;
use std::alloc::{AllocError, Global};
use std::marker::Model;

/// A map from numbers to values that also remembers its state at the last commit or rollback. Contracts see the map at
/// that time (`before`) and the current one (`current`).
///
/// A value that is replaced or removed goes to a list of former values. Its slot stays until the commit or rollback, so
/// that a rollback writes in place. A slot without a value belongs to a removed key.
#[derive(Drop)]
pub struct TrackedMap<V> {
    slots: NumberMap<Option<V>>,
    former: Vec<(u128, Option<V>)>,
    removed: Vec<u128>,
    is_refilled: bool,
    len: usize,
    len_before: usize,
}

impl<V> Model for TrackedMap<V> {
    ghost use Rattle.std.specs.Prelude.{◌≡◌, false};
    ghost use Rattle.tracked_map.specs.Tracked.{Tracked, tracked_code, over, shown, AreRemoved, IsSound};

    ghost Value = { Tracked V };

    ghost coded = { tracked_code V.code };

    ghost view = { λ t. record { before = over (shown t.slots) t.former.items; current = shown t.slots } };

    ghost invariant = { λ t. IsSound t.slots t.former.items t.len t.len_before
        × (t.is_refilled ≡ false → AreRemoved t.slots t.removed.items) };
}

impl<V> TrackedMap<V> {
    /// Creates an empty map. It allocates nothing.
    pub fn new(alloc: Global) -> Self
        ensures { result ≡ at_rest map.empty }
    {
        TrackedMap {
            slots: NumberMap::new(alloc),
            former: Vec::new(alloc),
            removed: Vec::new(alloc),
            is_refilled: false,
            len: 0,
            len_before: 0,
        }
    }

    /// Returns the number of keys with a value.
    pub fn len(&self) -> usize
        ensures { result ≡ map.len self.now.current }
    {
        self.len
    }

    /// Returns the value of a key.
    pub fn get(&self, key: u128) -> Option<&V>
        ensures { option_copied result ≡ map.get self.now.current key }
    {
        let Some(slot) = self.slots.get(key) else {
            return None;
        };
        slot.as_ref()
    }

    /// Returns true if a key has a value.
    pub fn contains_key(&self, key: u128) -> bool
        ensures { result ≡ is_some (map.get self.now.current key) }
    {
        self.get(key).is_some()
    }

    /// Returns the least key with a value from this one on, and its value.
    pub fn next_from(&self, from: u128) -> Option<(u128, &V)>
        ensures { MatchOption result ((key : ℕ) → from ≤ key → key < 2 ^ 128 → map.get self.now.current key ≡ None)
            (λ e. (from ≤ e.0) × (map.get self.now.current e.0 ≡ Some e.1.now)
            × ((key : ℕ) → from ≤ key → key < e.0 → map.get self.now.current key ≡ None)) }
    {
        self.next_within(from, u128::MAX)
    }

    /// Returns the least key with a value in a range, both ends included, and its value. It skips removed keys only
    /// within that range.
    pub fn next_within(&self, from: u128, last: u128) -> Option<(u128, &V)>
        ensures { MatchOption result ((key : ℕ) → from ≤ key → key ≤ last → map.get self.now.current key ≡ None)
            (λ e. (from ≤ e.0) × (e.0 ≤ last) × (map.get self.now.current e.0 ≡ Some e.1.now)
            × ((key : ℕ) → from ≤ key → key < e.0 → map.get self.now.current key ≡ None)) }
    {
        let mut rest = self.slots.range_from(from);
        while let Some((key, slot)) = rest.next() {
            if last < *key {
                return None;
            }
            if let Some(value) = slot {
                return Some((*key, value));
            }
        }
        None
    }
}

impl<V: Copy + Drop> TrackedMap<V> {
    /// Sets the value of a key. If an allocation fails, nothing changed.
    pub fn set(&mut self, key: u128, value: V) -> Result<(), AllocError>
        ensures ok { OnOk result (self.new ≡ record self.old { current = map.insert self.old.current key value }) }
        ensures err { OnErr result (self.new ≡ self.old) }
    {
        self.replace(key, value)?;
        Ok(())
    }

    /// Sets the value of a key, and returns the former one. If an allocation fails, nothing changed.
    pub fn replace(&mut self, key: u128, value: V) -> Result<Option<V>, AllocError>
        ensures before { IfOk result (λ before. before ≡ map.get self.old.current key) }
        ensures ok { OnOk result (self.new ≡ record self.old { current = map.insert self.old.current key value }) }
        ensures err { OnErr result (self.new ≡ self.old) }
    {
        self.former.reserve(1)?;
        let found = self.slots.insert(key, Some(value))?;
        self.is_refilled = either(self.is_refilled, is_mark(found));
        let before = found.flatten();
        self.len = len_with(self.len, before.is_some(), self.slots.len());
        self.former.push_reserved((key, before));
        Ok(before)
    }

    /// Removes the value of a key, if it has one. If an allocation fails, nothing changed.
    pub fn remove(&mut self, key: u128) -> Result<(), AllocError>
        ensures ok { OnOk result (self.new ≡ record self.old { current = map.remove self.old.current key }) }
        ensures err { OnErr result (self.new ≡ self.old) }
    {
        self.take(key)?;
        Ok(())
    }

    /// Removes the value of a key, if it has one, and returns it. If an allocation fails, nothing changed.
    pub fn take(&mut self, key: u128) -> Result<Option<V>, AllocError>
        ensures before { IfOk result (λ before. before ≡ map.get self.old.current key) }
        ensures ok { OnOk result (self.new ≡ record self.old { current = map.remove self.old.current key }) }
        ensures err { OnErr result (self.new ≡ self.old) }
    {
        self.former.reserve(1)?;
        self.removed.reserve(1)?;
        let Some(before) = take_value(&mut self.slots, key) else {
            return Ok(None);
        };
        self.len -= 1;
        self.former.push_reserved((key, Some(before)));
        self.removed.push_reserved(key);
        Ok(Some(before))
    }

    /// Commits the changes. It allocates nothing.
    pub fn commit(&mut self)
        ensures { self.new ≡ at_rest self.old.current }
    {
        forget(
            &mut self.slots,
            &self.former,
            &self.removed,
            self.is_refilled,
            self.len,
        );
        self.former.clear();
        self.removed.clear();
        self.is_refilled = false;
        self.len_before = self.len;
    }

    /// Rolls the changes back. It allocates nothing.
    pub fn roll_back(&mut self)
        ensures { self.new ≡ at_rest self.old.before }
    {
        put_back(&mut self.slots, &self.former);
        forget_marks(&mut self.slots, &self.former, self.len_before);
        self.former.clear();
        self.removed.clear();
        self.is_refilled = false;
        self.len = self.len_before;
    }
}

/// Takes the value from a slot, if it has one.
fn take_value<V>(slots: &mut NumberMap<Option<V>>, key: u128) -> Option<V>
    ensures value { result ≡ option_flatten (map.get slots.old key) }
    ensures slots { MatchOption result (slots.new ≡ slots.old) (λ _. slots.new ≡ map.insert slots.old key None) }
{
    match slots.get_mut(key) {
        Some(slot) => slot.take(),
        None => None,
    }
}

/// Returns true if there is a slot and it has no value.
fn is_mark<V: Copy>(found: Option<Option<V>>) -> bool
    ensures { result ≡ is_mark found }
{
    match found {
        Some(None) => true,
        Some(Some(_)) | None => false,
    }
}

/// Returns true if at least one of the two is true.
fn either(one: bool, other: bool) -> bool
    ensures { result ≡ (one || other) }
{
    one || other
}

/// Returns the number of values after one key was set, given whether it had a value before. There are at most `most`.
fn len_with(len: usize, had: bool, most: usize) -> usize
    requires { len_after len had true ≤ most }
    ensures { result ≡ len_after len had true }
{
    if had { len } else { len + 1 }
}

/// Writes former values back to their slots, the last one first.
fn put_back<V: Copy + Drop>(slots: &mut NumberMap<Option<V>>, former: &[(u128, Option<V>)])
    requires kept { HasSlots slots.old former.now }
    requires marked { AreMarked slots.old former.now }
    ensures shown { shown slots.new ≡ over (shown slots.old) former.now }
    ensures marked { AreMarked slots.new former.now }
{
    let mut rest = former;
    while let Some(((key, value), before)) = rest.split_last() {
        write(slots, *key, *value);
        rest = before;
    }
}

/// Sets the value of an existing slot.
fn write<V: Drop>(slots: &mut NumberMap<Option<V>>, key: u128, value: Option<V>)
    requires { is_some (map.get slots.old key) ≡ true }
    ensures { slots.new ≡ map.insert slots.old key value }
{
    if let Some(slot) = slots.get_mut(key) {
        *slot = value;
    }
}

/// Removes the slots without a value. They belong to keys that were removed and not set again.
fn forget<V: Drop>(
    slots: &mut NumberMap<Option<V>>,
    former: &[(u128, Option<V>)],
    removed: &[u128],
    is_refilled: bool,
    len: usize,
)
    requires marked { AreMarked slots.old former.now }
    requires counted { len ≡ map.len (shown slots.old) }
    requires removed { is_refilled ≡ false → AreRemoved slots.old removed.now }
    ensures shown { shown slots.new ≡ shown slots.old }
    ensures none { AreMarked slots.new [] }
{
    if is_refilled {
        forget_marks(slots, former, len);
        return;
    }
    forget_removed(slots, removed);
}

/// Removes the slots without a value, which are among those of these keys. `len` slots have a value. If there are no
/// more slots than that, it looks at none.
fn forget_marks<V: Drop>(slots: &mut NumberMap<Option<V>>, former: &[(u128, Option<V>)], len: usize)
    requires marked { AreMarked slots.old former.now }
    requires counted { len ≡ map.len (shown slots.old) }
    ensures shown { shown slots.new ≡ shown slots.old }
    ensures none { AreMarked slots.new [] }
{
    if slots.len() == len {
        return;
    }
    let mut rest = former;
    while let Some(((key, _), before)) = rest.split_last() {
        forget_mark(slots, *key);
        rest = before;
    }
}

/// Removes the slots of these keys, which are the slots without a value.
fn forget_removed<V: Drop>(slots: &mut NumberMap<Option<V>>, removed: &[u128])
    requires { AreRemoved slots.old removed.now }
    ensures shown { shown slots.new ≡ shown slots.old }
    ensures none { AreMarked slots.new [] }
{
    let mut rest = removed;
    while let Some((key, before)) = rest.split_last() {
        drop(slots.remove(*key));
        rest = before;
    }
}

/// Removes a slot, if it has no value.
fn forget_mark<V: Drop>(slots: &mut NumberMap<Option<V>>, key: u128)
    ensures { slots.new ≡ unmarked slots.old key }
{
    if matches!(slots.get(key), Some(None)) {
        slots.remove(key);
    }
}
