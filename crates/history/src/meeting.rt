ghost use Rattle.std.specs.Prelude.{◌≡◌, ◌≢◌, ◌+◌, ◌-◌, ◌<◌, ◌≤◌, ◌∷◌, [], ◌++◌, length, take, drop, map, slice_get, true, false, Ok, OnOk, OnErr, IsErrOf, vec_capacity};
ghost use Rattle.history.specs.Entries.{Begins};
ghost use Rattle.history.specs.Pasts.{known_entries, AreKnown, AreNotes};
ghost use Rattle.history.specs.Blocks.{names_after, Leads};

use crate::held::Held;
use crate::notes::{again_at, compare_at, copy_rest};
use crate::place::Place;
use crate::{AddFault, CatchUpFault, Entry, Founding, Past};
use once_cell::race::Note;
use std::alloc::AllocError;

impl<L: Founding> Past<L> {
    /// Compares two prefixes, after which the shorter is known to begin the longer. Returns whether they could be
    /// compared, which two in one entry block always can.
    pub fn agree(&mut self, other: &mut Past<L>) -> bool
        ensures same { (self.new ≡ self.old) × (other.new ≡ other.old) }
        ensures begins { result ≡ true → length self.old.entries ≤ length other.old.entries
            → Begins self.old.entries other.old.entries }
        ensures goes_on { result ≡ true → length other.old.entries ≤ length self.old.entries
            → Begins other.old.entries self.old.entries }
        ensures beyond { result ≡ true → self.old.blocks < other.old.blocks
            → length self.old.entries ≤ length other.old.entries }
        ensures ahead { result ≡ true → other.old.blocks < self.old.blocks
            → length other.old.entries ≤ length self.old.entries }
        ensures known { self.old.blocks ≡ other.old.blocks → result ≡ true }
    {
        let own = self.blocks();
        let theirs = other.blocks();
        if own < theirs {
            return self.begins(other);
        }
        if theirs < own {
            return other.begins(self);
        }
        self.agree_in_block(other);
        true
    }

    /// Adds an entry after all that both have, so that both have it. If it isn't added, nothing changed.
    pub fn add_to_both(&mut self, other: &mut Past<L>, entry: Entry) -> Result<(), AddFault>
        requires blocks { self.old.blocks ≡ other.old.blocks }
        requires entries { length self.old.entries ≡ length other.old.entries }
        ensures ok { OnOk result ((self.new ≡ record self.old { entries = self.old.entries ++ entry ∷ [] })
            × (other.new ≡ record other.old { entries = other.old.entries ++ entry ∷ [] })) }
        ensures full { IsErrOf result AddFault.BlockFull
            → self.old.start + length self.old.block.cells ≤ length self.old.entries }
        ensures err { OnErr result ((self.new ≡ self.old) × (other.new ≡ other.old)) }
    {
        other.notes.reserve(1)?;
        match self.add(entry) {
            Ok(()) => {
                other.place.agree(&mut self.place);
                let own = other.notes.len();
                compare_last(&mut other.notes, &mut self.notes, own);
                copy_rest(&mut other.notes, &mut self.notes);
                Ok(())
            }
            Err(fault) => Err(fault),
        }
    }

    /// Compares two prefixes in one entry block.
    fn agree_in_block(&mut self, other: &mut Past<L>)
        requires { self.old.blocks ≡ other.old.blocks }
        ensures same { (self.new ≡ self.old) × (other.new ≡ other.old) }
        ensures begins { length self.old.entries ≤ length other.old.entries
            → Begins self.old.entries other.old.entries }
        ensures goes_on { length other.old.entries ≤ length self.old.entries
            → Begins other.old.entries self.old.entries }
    {
        self.place.agree(&mut other.place);
        let both = self.notes.len().min(other.notes.len());
        compare_last(&mut self.notes, &mut other.notes, both);
    }

    /// Returns whether this one is seen to begin one that is in a later entry block.
    fn begins(&mut self, other: &mut Past<L>) -> bool
        requires { self.old.blocks < other.old.blocks }
        ensures same { (self.new ≡ self.old) × (other.new ≡ other.old) }
        ensures begins { result ≡ true → (length self.old.entries ≤ length other.old.entries)
            × Begins self.old.entries other.old.entries }
    {
        begin_in_block_before(
            &mut self.place,
            &mut self.notes,
            &mut other.place,
            &mut other.notes,
        )
    }

    /// Moves on to the later entry block of a prefix that this one is seen to begin. Returns whether it is.
    fn follow(&mut self, other: &mut Past<L>) -> Result<bool, AllocError>
        requires { self.old.blocks < other.old.blocks }
        ensures same { other.new ≡ other.old }
        ensures moved { result ≡ Ok true → (self.new ≡ other.old)
            × (length self.old.entries ≤ length other.old.entries) × Begins self.old.entries other.old.entries }
        ensures apart { result ≡ Ok false → self.new ≡ self.old }
        ensures err { OnErr result (self.new ≡ self.old) }
    {
        if !begin_in_block_before(
            &mut self.place,
            &mut self.notes,
            &mut other.place,
            &mut other.notes,
        ) {
            return Ok(false);
        }
        let place = other.place.again(self.alloc)?;
        self.notes.reserve(other.notes.len() - self.notes.len())?;
        copy_rest(&mut self.notes, &mut other.notes);
        self.place = place;
        Ok(true)
    }

    /// Learns what another prefix has beyond this one, and moves on to its entry block. It then has the longer of the
    /// two.
    pub fn catch_up(&mut self, other: &mut Past<L>) -> Result<(), CatchUpFault>
        ensures same { other.new ≡ other.old }
        ensures ok { OnOk result (self.new.entries ≡ self.old.entries
            ++ drop (length self.old.entries) other.old.entries) }
        ensures begins { OnOk result (Begins self.old.entries self.new.entries
            × Begins other.old.entries self.new.entries) }
        ensures moved { OnOk result (self.old.blocks < other.old.blocks → self.new ≡ other.old) }
        ensures stayed { OnOk result (other.old.blocks ≤ self.old.blocks
            → self.new ≡ record self.old { entries = self.new.entries }) }
        ensures apart { IsErrOf result CatchUpFault.Apart → self.old.blocks ≢ other.old.blocks }
        ensures err { OnErr result (self.new ≡ self.old) }
    {
        let own = self.blocks();
        let theirs = other.blocks();
        if own == theirs {
            self.learn(other)?;
            return Ok(());
        }
        if own < theirs {
            if self.follow(other)? {
                return Ok(());
            }
            return Err(CatchUpFault::Apart);
        }
        if other.begins(self) {
            return Ok(());
        }
        Err(CatchUpFault::Apart)
    }

    /// Learns what another prefix in its entry block has beyond this one.
    fn learn(&mut self, other: &mut Past<L>) -> Result<(), AllocError>
        requires { self.old.blocks ≡ other.old.blocks }
        ensures same { other.new ≡ other.old }
        ensures ok { OnOk result (self.new
            ≡ record self.old { entries = self.old.entries ++ drop (length self.old.entries) other.old.entries }) }
        ensures begins { OnOk result (Begins self.old.entries self.new.entries
            × Begins other.old.entries self.new.entries) }
        ensures err { OnErr result (self.new ≡ self.old) }
    {
        self.place.agree(&mut other.place);
        let own = self.notes.len();
        let theirs = other.notes.len();
        compare_last(&mut self.notes, &mut other.notes, own.min(theirs));
        if own < theirs {
            self.notes.reserve(theirs - own)?;
            copy_rest(&mut self.notes, &mut other.notes);
        }
        Ok(())
    }
}

/// Returns whether notes up to an earlier entry block are seen to be of the same cells as the first ones up to a later
/// block, and to know a prefix of what those know.
fn begin_in_block_before<L: Founding>(
    place: &mut Place<L>,
    notes: &mut Vec<Note<Held>>,
    later: &mut Place<L>,
    more: &mut Vec<Note<Held>>,
) -> bool
    requires blocks { length place.old.links < length later.old.links }
    requires notes { AreNotes (names_after L.first place.old.links).cells (map (λ n. n.cell) notes.old.items)
        (map (λ n. n.known) notes.old.items) }
    requires more { AreNotes (names_after L.first later.old.links).cells (map (λ n. n.cell) more.old.items)
        (map (λ n. n.known) more.old.items) }
    requires leads { Leads L.first later.old.links (names_after L.first later.old.links).cells
        (length (map (λ n. n.cell) more.old.items)) }
    ensures same { (place.new ≡ place.old) × (later.new ≡ later.old) × (notes.new.items ≡ notes.old.items)
        × (more.new.items ≡ more.old.items) }
    ensures less { result ≡ true → length notes.old.items ≤ length more.old.items }
    ensures cells { result ≡ true → map (λ n. n.cell) notes.old.items
        ≡ take (length notes.old.items) (map (λ n. n.cell) more.old.items) }
    ensures begins { result ≡ true
        → Begins (known_entries (map (λ n. n.known) notes.old.items))
        (known_entries (map (λ n. n.known) more.old.items)) }
{
    place.agree(later);
    let Some(start) = place.left(later) else {
        return false;
    };
    let long = notes.len();
    if start < long {
        return false;
    }
    compare_last(notes, more, long);
    true
}

/// Compares what is known of the last one of `long` cells: it is one entry, with all entries before it.
fn compare_last(mine: &mut Vec<Note<Held>>, theirs: &mut Vec<Note<Held>>, long: usize)
    requires known { AreKnown (map (λ n. n.known) mine.old.items) × AreKnown (map (λ n. n.known) theirs.old.items) }
    requires within { (long ≤ length mine.old.items) × (long ≤ length theirs.old.items) }
    requires cell { 0 < long → slice_get (map (λ n. n.cell) mine.old.items) (long - 1)
        ≡ slice_get (map (λ n. n.cell) theirs.old.items) (long - 1) }
    ensures same_mine { mine.new.items ≡ mine.old.items }
    ensures same_theirs { theirs.new.items ≡ theirs.old.items }
    ensures room { vec_capacity mine.new ≡ vec_capacity mine.old }
    ensures begins { length mine.old.items ≡ long
        → Begins (known_entries (map (λ n. n.known) mine.old.items))
        (known_entries (map (λ n. n.known) theirs.old.items)) }
    ensures goes_on { length theirs.old.items ≡ long
        → Begins (known_entries (map (λ n. n.known) theirs.old.items))
        (known_entries (map (λ n. n.known) mine.old.items)) }
{
    if long == 0 {
        return;
    }
    let note = again_at(theirs, long - 1);
    compare_at(mine, long - 1, note);
}
