ghost use Rattle.std.specs.Prelude.{◌≡◌, ◌+◌, ◌≤◌, Some, true, length, slice_get, is_some, option_map, MatchOption};

use crate::held::Held;
use crate::notes::again_at;
use crate::{Founding, Past};
use ipc_model::Record;
use once_cell::race::Note;
use std::marker::Model;

/// What a prefix knows of the entry in a cell of its block. It takes no memory.
#[derive(Drop)]
pub struct EntryNote {
    note: Note<Held>,
}

impl Model for EntryNote {
    ghost use Rattle.std.specs.Prelude.{option_map};
    ghost use Rattle.history.specs.Pasts.{NoteValue, note_code};

    ghost Value = { NoteValue };

    ghost coded = { note_code };

    ghost view = { λ n. record { cell = n.note.cell; known = option_map (λ p. p.entry) n.note.known } };
}

impl<L: Founding> Past<L> {
    /// Returns what it knows of the entry at a place of its block, or `None` if it has none there.
    pub fn note(&mut self, at: usize) -> Option<EntryNote>
        ensures same { self.new ≡ self.old }
        ensures note { MatchOption result (length self.old.entries ≤ self.old.start + at)
            (λ note. (slice_get self.old.block.cells at ≡ Some note.cell)
            × (slice_get self.old.entries (self.old.start + at) ≡ note.known)
            × (is_some note.known ≡ true)) }
    {
        let all = self.len() - self.start();
        if at >= all {
            return None;
        }
        // This shows that the block's cells are those of the last notes.
        let _ = self.place.block();
        let note = again_at(&mut self.notes, self.place.start() + at);
        Some(EntryNote { note })
    }

    /// Returns the record in a cell of its block, by a note that knows it. It takes neither lock nor memory.
    pub fn record(&self, at: usize, note: EntryNote) -> &Record
        requires cell { slice_get self.now.block.cells at ≡ Some note.cell }
        requires known { is_some note.known ≡ true }
        ensures { option_map (λ e. e.record) note.known ≡ Some result.now }
    {
        let EntryNote { note } = note;
        let mut note = note;
        match self.place.block().look(at, &mut note) {
            Some(held) => &held.entry().record,
            None => unreachable!(),
        }
    }
}
