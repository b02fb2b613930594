ghost use Rattle.std.specs.Prelude.{◌≡◌, IfOk};
ghost use Rattle.history.specs.Blocks.{names_of_numbers, numbers_of_names, next_names};

use boxcar::tag::{Names, Tag};
use std::alloc::{AllocError, Global};
use std::marker::Model;

/// Where one entry block ended and the next began, and ghost: the names of the cells from then on.
#[derive(Drop)]
pub(crate) struct Link {
    start: usize,
    next: Tag,
}

impl Model for Link {
    ghost use Rattle.history.specs.Blocks.{LinkValue, link_code, names_of_numbers};

    ghost Value = { LinkValue };

    ghost coded = { link_code };

    ghost view = { λ l. record { start = l.start; next = names_of_numbers l.next.numbers } };
}

/// The names so far, and those of the block that comes next.
struct Left {
    here: Tag,
    long: usize,
    block: Tag,
}

/// The names from then on.
struct NextNames;

impl Names<Left> for NextNames {
    ghost use Rattle.history.specs.Blocks.{names_of_numbers, numbers_of_names, next_names};

    ghost numbers = { λ left. numbers_of_names (next_names (names_of_numbers left.here.numbers) left.long
        (names_of_numbers left.block.numbers)) };
}

impl Link {
    /// The link from the names so far, after `long` entries, to an entry block.
    pub(crate) fn new(here: Tag, long: usize, block: Tag) -> Self
        ensures { result ≡ record {
          start = long;
          next = next_names (names_of_numbers here.numbers) long (names_of_numbers block.numbers);
        } }
    {
        let left = Left { here, long, block };
        let next = Tag::of::<Left, NextNames>(&left);
        let Left {
            here: _,
            long: _,
            block: _,
        } = left;
        Link { start: long, next }
    }

    /// The link in a box, as its cell takes it.
    pub(crate) fn boxed(self, alloc: Global) -> Result<Box<Self>, AllocError>
        ensures { IfOk result (λ link. link.value ≡ self) }
    {
        Ok(Box::new(alloc, self)?)
    }

    /// Returns how many entries there were.
    pub(crate) fn start(&self) -> usize
        ensures { result ≡ self.now.start }
    {
        self.start
    }
}
