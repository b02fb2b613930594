//! A map from small numbers to values. A look-up is one array access. Contracts see it as a finite map.
#![tactic(auto)]

ghost use Rattle.std.specs.Prelude.{◌≡◌, ◌≤◌, ◌<◌, ℕ, IfOk, OnOk, OnErr, MatchOption, None, Some, option_copied, length, slice_index_or, slice_set};
ghost use Rattle.std.specs.FinMap as map;
ghost use Rattle.std.specs.Borrow.{LendsIf, sem};
ghost use Rattle.std.specs.Option.{option_copied_mut};
ghost use Rattle.number_table.specs.Rows.{rows_from};
ghost use Rattle.number_table.specs.contracts.NumberTable.{the_row};

use std::alloc::{AllocError, Global};
use std::marker::Model;
use std::mem;

/// A map from numbers to values. It is an array up to the greatest number so far, so it suits numbers that are
/// allocated from the least on. A look-up takes constant time.
#[derive(Drop)]
pub struct NumberTable<V> {
    rows: Vec<Option<V>>,
}

impl<V> Model for NumberTable<V> {
    ghost use Rattle.std.specs.Ordering.{nat_cmp};
    ghost use Rattle.std.specs.FinMap as map;
    ghost use Rattle.std.specs.Coded.{coded_ℕ};
    ghost use Rattle.number_table.specs.Rows.{rows_from};

    ghost Value = { map.FinMap nat_cmp V };

    ghost coded = { map.code coded_ℕ V.code };

    ghost view = { λ t. rows_from 0 t.rows.items };
}

impl<V> NumberTable<V> {
    /// Creates an empty table. It allocates nothing.
    pub fn new(alloc: Global) -> Self
        ensures { result ≡ map.empty }
    {
        NumberTable {
            rows: Vec::new(alloc),
        }
    }

    /// Returns the value of a number.
    pub fn get(&self, number: u32) -> Option<&V>
        ensures { option_copied result ≡ map.get self.now number }
    {
        match self.rows.get(number as usize) {
            Some(row) => row.as_ref(),
            None => None,
        }
    }

    /// Returns the value of a number for changes in place. The value that the borrow leaves there becomes the number's
    /// value.
    pub fn get_mut(&mut self, number: u32) -> Option<&mut V>
        ensures* writes_back { sem 𝓛 (LendsIf (the_row V.row) V.row self.entry result
            (map.insert self.old number) self.old) }
        ensures value { option_copied_mut result ≡ map.get self.old number }
    {
        match self.rows.get_mut(number as usize) {
            Some(row) => row.as_mut(),
            None => None,
        }
    }

    /// Returns the least number with a value from this one on, and its value.
    pub fn next_from(&self, from: u64) -> Option<(u64, &V)>
        ensures { MatchOption result ((number : ℕ) → from ≤ number → map.get self.now number ≡ None)
            (λ e. (from ≤ e.0) × (map.get self.now e.0 ≡ Some e.1.now)
            × ((number : ℕ) → from ≤ number → number < e.0 → map.get self.now number ≡ None)) }
    {
        let mut at = from as usize;
        while let Some(row) = self.rows.get(at) {
            if let Some(value) = row {
                return Some((at as u64, value));
            }
            at += 1;
        }
        None
    }
}

impl<V: Drop> NumberTable<V> {
    /// Sets the value of a number, and returns the former one. It allocates only for a number without a value. If that
    /// fails, nothing changed.
    pub fn insert(&mut self, number: u32, value: V) -> Result<Option<V>, AllocError>
        ensures before { IfOk result (λ before. before ≡ map.get self.old number) }
        ensures ok { OnOk result (self.new ≡ map.insert self.old number value) }
        ensures err { OnErr result (self.new ≡ self.old) }
        ensures absent { OnErr result (map.get self.old number ≡ None) }
    {
        let at = number as usize;
        grow(&mut self.rows, at)?;
        Ok(replace_at(&mut self.rows, at, Some(value)))
    }

    /// Removes the value of a number, and returns it.
    pub fn remove(&mut self, number: u32) -> Option<V>
        ensures before { result ≡ map.get self.old number }
        ensures removed { self.new ≡ map.remove self.old number }
    {
        let at = number as usize;
        if at < self.rows.len() {
            replace_at(&mut self.rows, at, None)
        } else {
            None
        }
    }
}

/// Extends the array so that it has this index. It allocates only if the array is too short.
fn grow<V: Drop>(rows: &mut Vec<Option<V>>, at: usize) -> Result<(), AllocError>
    ensures same { rows_from 0 rows.new.items ≡ rows_from 0 rows.old.items }
    ensures long { OnOk result (at < length rows.new.items) }
    ensures short { OnErr result (length rows.old.items ≤ at) }
{
    while rows.len() <= at {
        rows.push(None)?;
    }
    Ok(())
}

/// Replaces the item at an index of the array, and returns the former one.
fn replace_at<V>(rows: &mut Vec<Option<V>>, at: usize, row: Option<V>) -> Option<V>
    requires { at < length rows.old.items }
    ensures before { result ≡ slice_index_or rows.old.items at None }
    ensures set { rows.new.items ≡ slice_set rows.old.items at row }
{
    mem::replace(&mut rows[at], row)
}
