//! A map from numbers to values, which contracts see as a finite map.
#![tactic(auto)]

ghost use Rattle.std.specs.Prelude.{◌≡◌, ◌≤◌, ◌<◌, ◌==◌, IfOk, OnOk, OnErr, MatchOption, is_some, None, Some, option_copied, ℕ};
ghost use Rattle.std.specs.Ordering.{nat_cmp};
ghost use Rattle.std.specs.FinMap as map;
ghost use Rattle.std.specs.Map.Iter.{ShowsInOrder, ShowsValuesInOrder, deref_pair};
ghost use Rattle.std.specs.Borrow.{LendsIf, sem};
ghost use Rattle.std.specs.Option.{option_copied_mut};
ghost use Rattle.number_map.specs.From.{IsFrom};
ghost use Rattle.number_map.specs.contracts.NumberMap.{the_row};

use std::alloc::{AllocError, Global};
use std::collections::BTreeMap;
use std::collections::btree_map::{Iter, Range};
use std::marker::Model;

/// A map from numbers to values.
#[derive(Drop)]
pub struct NumberMap<V> {
    entries: BTreeMap<u128, V>,
}

impl<V> Model for NumberMap<V> {
    ghost use Rattle.std.specs.Ordering.{nat_cmp};
    ghost use Rattle.std.specs.FinMap as map;
    ghost use Rattle.std.specs.Coded.{coded_ℕ};

    ghost Value = { map.FinMap nat_cmp V };

    ghost coded = { map.code coded_ℕ V.code };

    ghost view = { λ m. map.from_entries m.entries.entries };
}

impl<V> NumberMap<V> {
    /// Creates an empty map. It allocates nothing.
    pub fn new(alloc: Global) -> Self
        ensures { result ≡ map.empty }
    {
        NumberMap {
            entries: BTreeMap::new(alloc),
        }
    }

    /// Returns the number of keys with a value.
    pub fn len(&self) -> usize
        ensures { result ≡ map.len self.now }
    {
        self.entries.len()
    }

    /// Returns true if no key has a value.
    pub fn is_empty(&self) -> bool
        ensures { result ≡ (map.len self.now == 0) }
    {
        self.len() == 0
    }

    /// Returns true if a key has a value.
    pub fn contains_key(&self, key: u128) -> bool
        ensures { result ≡ is_some (map.get self.now key) }
    {
        self.entries.contains_key(&key)
    }

    /// Returns the value of a key.
    pub fn get(&self, key: u128) -> Option<&V>
        ensures { option_copied result ≡ map.get self.now key }
    {
        self.entries.get(&key)
    }

    /// Returns the value of a key for changes in place. The value that the borrow leaves there becomes the key's value.
    pub fn get_mut(&mut self, key: u128) -> Option<&mut V>
        ensures* writes_back { sem 𝓛 (LendsIf (the_row V.row) V.row self.entry result
            (map.insert self.old key) self.old) }
        ensures value { option_copied_mut result ≡ map.get self.old key }
    {
        self.entries.get_mut(&key)
    }

    /// Returns the least key with a value from this one on, and its value.
    pub fn next_from(&self, from: u128) -> Option<(u128, &V)>
        ensures { MatchOption result ((key : ℕ) → from ≤ key → map.get self.now key ≡ None)
            (λ e. (from ≤ e.0) × (map.get self.now e.0 ≡ Some e.1.now)
            × ((key : ℕ) → from ≤ key → key < e.0 → map.get self.now key ≡ None)) }
    {
        let Some((key, value)) = self.entries.range(from..).next() else {
            return None;
        };
        Some((*key, value))
    }

    /// Returns the entries from this key on, in ascending order of keys.
    pub fn range_from(&self, from: u128) -> Range<'_, u128, V>
        ensures rest { IsFrom self.now from result }
        ensures runs { ShowsInOrder (deref_pair {K = ℕ} {X = V}) }
    {
        self.entries.range(from..)
    }

    /// Returns the entries, in ascending order of keys.
    #[tactic(auto, using(crate::proofs::Viewed::same_rest))]
    pub fn iter(&self) -> Iter<'_, u128, V>
        ensures rest { result ≡ map.entries self.now }
        ensures runs { ShowsInOrder (deref_pair {K = ℕ} {X = V}) }
        ensures values_run { ShowsValuesInOrder (deref_pair {K = ℕ} {X = V}) }
    {
        self.entries.iter()
    }
}

impl<V: Drop> NumberMap<V> {
    /// Sets the value of a key, and returns the former one. It allocates only for a key without a value. If that fails,
    /// nothing changed.
    pub fn insert(&mut self, key: u128, value: V) -> Result<Option<V>, AllocError>
        ensures before { IfOk result (λ before. before ≡ map.get self.old key) }
        ensures ok { OnOk result (self.new ≡ map.insert self.old key value) }
        ensures err { OnErr result (self.new ≡ self.old) }
        ensures absent { OnErr result (map.get self.old key ≡ None) }
    {
        Ok(self.entries.insert(key, value)?)
    }

    /// Removes the value of a key, and returns it.
    pub fn remove(&mut self, key: u128) -> Option<V>
        ensures before { result ≡ map.get self.old key }
        ensures removed { self.new ≡ map.remove self.old key }
    {
        self.entries.remove(&key)
    }
}
