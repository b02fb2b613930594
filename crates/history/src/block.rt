ghost use Rattle.std.specs.Prelude.{◌≡◌, ◌≤◌, Some, None, MatchOption, IfSome, length, IfOk, IsErrOf, slice_get, option_map};
ghost use Rattle.once_cell.specs.Once.{Agrees};

use crate::AddFault;
use crate::cell::set_cell;
use crate::held::Held;
use crate::link::Link;
use once_cell::race::{Note, OnceBox};
use std::alloc::{AllocError, Global};
use std::marker::Model;

/// An entry block: cells that are each set at most once, one for each entry and one that links to the next block.
/// Contracts see the cells' names.
pub struct EntryBlock {
    link: OnceBox<Link>,
    cells: Vec<OnceBox<Held>>,
}

// Written out, so that proofs above know one function and not its parts.
impl Drop for EntryBlock {
    fn drop(self) {
        let EntryBlock { link, cells } = self;
        drop(link);
        drop(cells);
    }
}

impl Model for EntryBlock {
    ghost use Rattle.std.specs.Prelude.{map};
    ghost use Rattle.once_cell.specs.Once.{cell_name};
    ghost use Rattle.history.specs.Blocks.{BlockNames, names_code};

    ghost Value = { BlockNames };

    ghost coded = { names_code };

    ghost view = { λ block. record { link = cell_name block.link; cells = map cell_name block.cells.items } };
}

impl EntryBlock {
    /// A block of `capacity` empty cells.
    pub fn new(alloc: Global, capacity: usize) -> Result<Self, AllocError>
        ensures { IfOk result (λ block. length block.cells ≡ capacity) }
    {
        let mut cells = Vec::with_capacity(alloc, capacity)?;
        for _ in 0..capacity {
            cells.push_reserved(OnceBox::new(alloc));
        }
        let link = OnceBox::new(alloc);
        Ok(EntryBlock { link, cells })
    }

    /// Returns how many entries it has room for.
    pub fn capacity(&self) -> usize
        ensures { result ≡ length self.now.cells }
    {
        self.cells.len()
    }

    /// Sets the cell at a place, and returns a note that knows what lies there now.
    pub(crate) fn set(&self, at: usize, held: Box<Held>) -> Result<Note<Held>, AddFault>
        ensures cell { IfOk result (λ note. slice_get self.now.cells at ≡ Some note.cell) }
        ensures known { IfOk result (λ note. note.known ≡ Some held.value) }
        ensures full { IsErrOf result AddFault.BlockFull → length self.now.cells ≤ at }
    {
        match self.cells.get(at) {
            Some(cell) => set_cell(cell, held),
            None => Err(AddFault::BlockFull),
        }
    }

    /// What lies in the cell at a place, which a note knows.
    pub(crate) fn look<'a>(&'a self, at: usize, note: &mut Note<Held>) -> Option<&'a Held>
        requires { slice_get self.now.cells at ≡ Some note.old.cell }
        ensures cell { note.new.cell ≡ note.old.cell }
        ensures value { MatchOption result ((note.old.known ≡ None) × (note.new.known ≡ None))
            (λ r. (note.new.known ≡ Some r.now) × Agrees note.old.known r.now) }
    {
        match self.cells.get(at) {
            Some(cell) => cell.get_as(note),
            None => None,
        }
    }

    /// Sets the link, and returns a note that knows it.
    pub(crate) fn set_link(&self, alloc: Global, link: Link) -> Result<Note<Link>, AddFault>
        ensures cell { IfOk result (λ note. note.cell ≡ self.now.link) }
        ensures known { IfOk result (λ note. note.known ≡ Some link) }
        ensures full { IsErrOf result AddFault.BlockFull → ⊥ }
    {
        let boxed = link.boxed(alloc)?;
        set_cell(&self.link, boxed)
    }

    /// Returns how many entries there were when this block was left, with a note that knows the link. `None` if it
    /// wasn't left yet.
    pub(crate) fn left(&self) -> Option<(usize, Note<Link>)>
        ensures cell { IfSome result (λ r. r.1.cell ≡ self.now.link) }
        ensures start { IfSome result (λ r. option_map (λ l. l.start) r.1.known ≡ Some r.0) }
    {
        let mut note = self.link.note();
        let link = self.link.get_as(&mut note)?;
        let start = link.start();
        Some((start, note))
    }
}
