ghost use Rattle.std.specs.Prelude.{◌≡◌, IfOk};

use crate::Entry;
use boxcar::tag::Tag;
use std::alloc::{AllocError, Global};
use std::marker::Model;

/// An entry as it lies in its cell, and ghost: all entries before it.
#[derive(Drop)]
pub(crate) struct Held {
    entry: Entry,
    before: Tag,
}

impl Model for Held {
    ghost use Rattle.history.specs.Entries.{PlacedValue, placed_code};

    ghost Value = { PlacedValue };

    ghost coded = { placed_code };

    ghost view = { λ h. record { entry = h.entry; before = h.before.numbers } };
}

impl Held {
    /// An entry that comes after those that the tag stands for, in a box as its cell takes it.
    pub(crate) fn boxed(alloc: Global, entry: Entry, before: Tag) -> Result<Box<Self>, AllocError>
        ensures { IfOk result (λ held. held.value ≡ record { entry = entry; before = before.numbers }) }
    {
        Ok(Box::new(alloc, Held { entry, before })?)
    }

    /// The entry itself.
    pub(crate) fn entry(&self) -> &Entry
        ensures { result.now ≡ self.now.entry }
    {
        &self.entry
    }
}
