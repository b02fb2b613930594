ghost use Rattle.std.specs.Prelude.{◌≡◌, ◌≤◌, ◌<◌, Some, [], IfOk, OnOk, OnErr, IsErrOf, IfSome, length, map, take, slice_get, option_map};
ghost use Rattle.std.specs.Arc.{arc_value};
ghost use Rattle.history.specs.Blocks.{names_after, place_after, known_links, AreLinks, IsBlockAt};

use crate::link::Link;
use crate::notes::{again_at, compare_at, copy_rest};
use crate::{AddFault, EntryBlock, Founding};
use boxcar::tag::{Names, Tag};
use once_cell::race::Note;
use std::alloc::{AllocError, Global};
use std::marker::{Model, PhantomData};
use std::sync::Arc;

/// An entry block of the history, and the notes of the links that lead there from the first block.
#[derive(Drop)]
pub(crate) struct Place<L: Founding> {
    links: Vec<Note<Link>>,
    block: Arc<EntryBlock, Global>,
    start: usize,
    of: PhantomData<L>,
}

impl<L: Founding> Model for Place<L> {
    ghost use Rattle.std.specs.Prelude.{map};
    ghost use Rattle.std.specs.Arc.{arc_value};
    ghost use Rattle.history.specs.Blocks.{PlaceValue, place_code, IsPlace, known_links};

    ghost Value = { PlaceValue };

    ghost coded = { place_code };

    ghost view = { λ p. record {
      links = known_links (map (λ n. n.known) p.links.items);
      start = p.start;
      block = arc_value p.block;
    } };

    ghost invariant = { λ p. IsPlace L.first (arc_value p.block) (map (λ n. n.cell) p.links.items)
        (map (λ n. n.known) p.links.items) p.start };
}

/// The names so far, at a place.
struct Here;

impl<L: Founding> Names<Place<L>> for Here {
    ghost use Rattle.history.specs.Blocks.{names_after, numbers_of_names};

    ghost numbers = { λ place. numbers_of_names (names_after L.first place.links) };
}

/// The names of an entry block.
struct Own;

impl Names<EntryBlock> for Own {
    ghost use Rattle.history.specs.Blocks.{numbers_of_names};

    ghost numbers = { λ block. numbers_of_names block };
}

impl<L: Founding> Place<L> {
    /// The first entry block.
    pub(crate) fn new(alloc: Global, block: Arc<EntryBlock, Global>) -> Self
        requires { arc_value block ≡ L.first }
        ensures { result ≡ record { links = []; start = 0; block = L.first } }
    {
        Place {
            links: Vec::new(alloc),
            block,
            start: 0,
            of: PhantomData,
        }
    }

    /// Its entry block.
    pub(crate) fn block(&self) -> &EntryBlock
        ensures block { result.now ≡ self.now.block }
        ensures here { IsBlockAt L.first self.now.links self.now.start self.now.block }
    {
        &self.block
    }

    /// Returns true if nothing else holds its entry block.
    pub(crate) fn owns_block(&self) -> bool {
        Arc::strong_count(&self.block) == 1
    }

    /// Returns how many entries come before its block.
    pub(crate) fn start(&self) -> usize
        ensures { result ≡ self.now.start }
    {
        self.start
    }

    /// Returns how many blocks come before its block.
    pub(crate) fn blocks(&self) -> usize
        ensures { result ≡ length self.now.links }
    {
        self.links.len()
    }

    /// The same place again.
    pub(crate) fn again(&mut self, alloc: Global) -> Result<Self, AllocError>
        ensures same { self.new ≡ self.old }
        ensures place { IfOk result (λ place. place ≡ self.old) }
    {
        let block = Arc::try_clone(&self.block)?;
        let mut links = Vec::with_capacity(alloc, self.links.len())?;
        copy_rest(&mut links, &mut self.links);
        let start = self.start;
        Ok(Place {
            links,
            block,
            start,
            of: PhantomData,
        })
    }

    /// Of two places of one history, the links that led to one are a prefix of those that led to the other.
    pub(crate) fn agree(&mut self, other: &mut Place<L>)
        ensures same { (self.new ≡ self.old) × (other.new ≡ other.old) }
        ensures begins { length self.old.links ≤ length other.old.links
            → take (length self.old.links) other.old.links ≡ self.old.links }
        ensures goes_on { length other.old.links ≤ length self.old.links
            → take (length other.old.links) self.old.links ≡ other.old.links }
    {
        let both = self.links.len().min(other.links.len());
        agree_links::<L>(&mut self.links, &mut other.links, both);
    }

    /// Moves on to another entry block, after `start` entries.
    pub(crate) fn begin(
        &mut self,
        alloc: Global,
        long: usize,
        block: Arc<EntryBlock, Global>,
    ) -> Result<(), AddFault>
        requires { long ≤ length (names_after L.first self.old.links).cells }
        ensures ok { OnOk result (self.new ≡ place_after L.first self.old long (arc_value block)) }
        ensures full { IsErrOf result AddFault.BlockFull → ⊥ }
        ensures err { OnErr result (self.new ≡ self.old) }
    {
        let here = Tag::of::<Place<L>, Here>(self);
        let own = Tag::of::<EntryBlock, Own>(&block);
        let link = Link::new(here, long, own);
        self.links.reserve(1)?;
        match self.block.set_link(alloc, link) {
            Ok(note) => {
                self.links.push_reserved(note);
                self.block = block;
                self.start = long;
                Ok(())
            }
            Err(fault) => Err(fault),
        }
    }

    /// Returns how many entries there were when this entry block was left; the links of a place further on show the
    /// same. `None` if the block wasn't left yet.
    pub(crate) fn left(&self, other: &mut Place<L>) -> Option<usize>
        requires more { length self.now.links < length other.old.links }
        requires begins { take (length self.now.links) other.old.links ≡ self.now.links }
        ensures same { other.new ≡ other.old }
        ensures start { IfSome result (λ s. option_map
            (λ l. l.start) (slice_get other.old.links (length self.now.links)) ≡ Some s) }
    {
        let (start, note) = self.block.left()?;
        compare_at(&mut other.links, self.links.len(), note);
        Some(start)
    }
}

/// The links that two places both have are the same.
fn agree_links<L: Founding>(mine: &mut Vec<Note<Link>>, theirs: &mut Vec<Note<Link>>, both: usize)
    requires mine { AreLinks L.first (map (λ n. n.cell) mine.old.items) (map (λ n. n.known) mine.old.items) }
    requires theirs { AreLinks L.first (map (λ n. n.cell) theirs.old.items) (map (λ n. n.known) theirs.old.items) }
    requires both { (both ≤ length mine.old.items) × (both ≤ length theirs.old.items) }
    ensures same_mine { mine.new.items ≡ mine.old.items }
    ensures same_theirs { theirs.new.items ≡ theirs.old.items }
    ensures agree { take both (known_links (map (λ n. n.known) mine.old.items))
        ≡ take both (known_links (map (λ n. n.known) theirs.old.items)) }
{
    for at in 0..both {
        let note = again_at(theirs, at);
        compare_at(mine, at, note);
    }
}
