ghost use Rattle.std.specs.Prelude.{◌≡◌, ◌+◌, ◌-◌, ◌<◌, ◌≤◌, ◌∷◌, [], ◌++◌, length, IfOk, OnOk, OnErr, IsErrOf};
ghost use Rattle.std.specs.Arc.{arc_value};
ghost use Rattle.history.specs.Entries.{numbers_of};

use crate::held::Held;
use crate::notes::copy_rest;
use crate::place::Place;
use crate::{AddFault, Entry, EntryBlock, Founding};
use boxcar::tag::{Names, Tag};
use once_cell::race::Note;
use std::alloc::{AllocError, Global};
use std::marker::Model;
use std::sync::Arc;

/// A prefix of the history, up to an entry block that it keeps. Contracts see its entries, how many blocks came before
/// its block, where that block begins, and the names of its cells.
pub struct Past<L: Founding> {
    pub(crate) alloc: Global,
    pub(crate) place: Place<L>,

    // A note for each entry. Notes take no memory.
    pub(crate) notes: Vec<Note<Held>>,
}

// Written out, so that proofs above know one function and not its parts.
impl<L: Founding> Drop for Past<L> {
    fn drop(self) {
        let Past {
            alloc: _,
            place,
            notes,
        } = self;
        drop(place);
        drop(notes);
    }
}

impl<L: Founding> Model for Past<L> {
    ghost use Rattle.std.specs.Prelude.{length, map};
    ghost use Rattle.history.specs.Pasts.{PastValue, past_code, IsPast, known_entries};

    ghost Value = { PastValue };

    ghost coded = { past_code };

    ghost view = { λ p. record {
      entries = known_entries (map (λ n. n.known) p.notes.items);
      blocks = length p.place.links;
      start = p.place.start;
      block = p.place.block;
    } };

    ghost invariant = { λ p. IsPast L.first p.place (map (λ n. n.cell) p.notes.items)
        (map (λ n. n.known) p.notes.items) };
}

/// All entries before the next one.
struct AllBefore;

impl<L: Founding> Names<Past<L>> for AllBefore {
    ghost use Rattle.history.specs.Entries.{numbers_of};

    ghost numbers = { λ past. numbers_of past.entries };
}

impl<L: Founding> Past<L> {
    /// The prefix that has no entry, in the first entry block.
    pub fn new(alloc: Global, block: Arc<EntryBlock, Global>) -> Self
        requires { arc_value block ≡ L.first }
        ensures { result ≡ record { entries = []; blocks = 0; start = 0; block = L.first } }
    {
        Past {
            alloc,
            place: Place::new(alloc, block),
            notes: Vec::new(alloc),
        }
    }

    /// The same entries again.
    pub fn again(&mut self) -> Result<Self, AllocError>
        ensures same { self.new ≡ self.old }
        ensures past { IfOk result (λ past. past ≡ self.old) }
    {
        let alloc = self.alloc;
        let place = self.place.again(alloc)?;
        let mut notes = Vec::with_capacity(alloc, self.notes.len())?;
        copy_rest(&mut notes, &mut self.notes);
        Ok(Past {
            alloc,
            place,
            notes,
        })
    }

    /// Returns how many entries it has.
    pub fn len(&self) -> usize
        ensures { result ≡ length self.now.entries }
    {
        self.notes.len()
    }

    /// Returns how many entry blocks came before its block.
    pub fn blocks(&self) -> usize
        ensures { result ≡ self.now.blocks }
    {
        self.place.blocks()
    }

    /// Returns how many entries came before its entry block.
    pub fn start(&self) -> usize
        ensures start { result ≡ self.now.start }
        ensures within { self.now.start ≤ length self.now.entries }
    {
        let _ = &self.notes;
        self.place.start()
    }

    /// Returns how many entries its block has room for.
    pub fn capacity(&self) -> usize
        ensures { result ≡ length self.now.block.cells }
    {
        self.place.block().capacity()
    }

    /// Returns true if nothing else holds its entry block, which is freed with it then.
    pub fn owns_block(&self) -> bool {
        self.place.owns_block()
    }

    /// Adds an entry after all that it has.
    pub fn add(&mut self, entry: Entry) -> Result<(), AddFault>
        ensures ok { OnOk result (self.new ≡ record self.old { entries = self.old.entries ++ entry ∷ [] }) }
        ensures full { IsErrOf result AddFault.BlockFull
            → self.old.start + length self.old.block.cells ≤ length self.old.entries }
        ensures err { OnErr result (self.new ≡ self.old) }
    {
        let before = Tag::of::<Past<L>, AllBefore>(self);
        let held = Held::boxed(self.alloc, entry, before)?;
        self.put(held)
    }

    fn put(&mut self, held: Box<Held>) -> Result<(), AddFault>
        requires { held.value.before ≡ numbers_of self.old.entries }
        ensures ok { OnOk result (self.new ≡ record self.old { entries = self.old.entries ++ held.value.entry ∷ [] }) }
        ensures full { IsErrOf result AddFault.BlockFull
            → self.old.start + length self.old.block.cells ≤ length self.old.entries }
        ensures err { OnErr result (self.new ≡ self.old) }
    {
        self.notes.reserve(1)?;
        let at = self.notes.len() - self.place.start();
        match self.place.block().set(at, held) {
            Ok(note) => {
                self.notes.push_reserved(note);
                Ok(())
            }
            Err(fault) => Err(fault),
        }
    }

    /// Goes on in another entry block, whose entries come after all that it has.
    ///
    /// `NoMemory`: an allocation failed. `CellTaken`: another prefix moved on from this block before.
    pub fn begin_block(&mut self, block: Arc<EntryBlock, Global>) -> Result<(), AddFault>
        ensures ok { OnOk result (self.new
            ≡ record {
              entries = self.old.entries;
              blocks = self.old.blocks + 1;
              start = length self.old.entries;
              block = arc_value block;
            }) }
        ensures full { IsErrOf result AddFault.BlockFull → ⊥ }
        ensures err { OnErr result (self.new ≡ self.old) }
    {
        self.place.begin(self.alloc, self.notes.len(), block)?;
        Ok(())
    }
}
