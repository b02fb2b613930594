// The cell that ties what is stored to what is known of it.
ghost use Rattle.std.specs.Prelude.{◌≡◌};

use crate::Founding;
use crate::tokens::Storing;
use atomic_table::{Join, Split};
use crossbeam_utils::atomic::seq_cell::{Pass, RuledSeqCell};
use crossbeam_utils::rule::{Outcome, Protocol};
use std::alloc::{AllocError, Global};
use std::marker::{Model, PhantomData};

// What a pass knows: the counting one, how many are stored; any, that so many at least are. No value of it is made.
pub struct View {
    pub counts: bool,
    pub stored: u64,
    pub known: u64,
}

// The word is how many are stored.
pub struct Counting;

impl Protocol<[u64; 1], View> for Counting {
    ghost use Rattle.history.specs.Marks.{IsKept, counting};

    ghost holds = { IsKept };

    ghost first = { counting 0 };
}

pub struct Counts;

impl Outcome<[u64; 1], View> for Counts {
    ghost use Rattle.history.specs.Marks.{Counted};

    ghost then = { Counted };
}

pub struct Compares;

impl Outcome<[u64; 1], View> for Compares {
    ghost use Rattle.history.specs.Marks.{Compared};

    ghost then = { Compared };
}

// The counting pass gives one that knows how many are stored, and takes one in to compare it.
pub struct HandsOut;

impl Split<View> for HandsOut {
    ghost use Rattle.history.specs.Marks.{knowing};

    ghost left = { λ v. v };

    ghost right = { λ v. knowing v.stored };
}

impl Join<View> for HandsOut {
    ghost use Rattle.history.specs.Marks.{alongside, knowing};

    ghost both = { alongside };

    ghost spent = { knowing 0 };
}

// A pass that knows something gives one that knows the same.
pub struct Copies;

impl Split<View> for Copies {
    ghost use Rattle.history.specs.Marks.{knowing};

    ghost left = { λ v. v };

    ghost right = { λ v. knowing v.known };
}

pub(crate) type Cell = RuledSeqCell<[u64; 1], View, Counting, 1>;

pub(crate) type CellPass = Pass<[u64; 1], View>;

/// A mark that has no name yet, at which nothing is stored. Contracts see which cell it is.
#[derive(Drop)]
pub struct NewMark {
    cell: Cell,
    pass: CellPass,
}

impl Model for NewMark {
    ghost use Rattle.std.specs.Prelude.{◌≡◌};
    ghost use Rattle.atomic_table.specs.Seated.{TableId, table_id_coded};
    ghost use Rattle.crossbeam_utils.specs.Seq.{cell_view};
    ghost use Rattle.history.specs.Marks.{counting};

    ghost Value = { TableId };

    ghost coded = { table_id_coded };

    ghost view = { λ m. m.cell.table.shared.table_id };

    ghost invariant = { λ m. (m.pass.table_id ≡ m.cell.table.shared.table_id) × (cell_view m.pass ≡ counting 0) };
}

impl NewMark {
    /// A new mark.
    pub fn new(alloc: Global) -> Result<NewMark, AllocError> {
        let (cell, pass) = Cell::ruled(alloc, [0])?;
        Ok(NewMark { cell, pass })
    }

    /// The mark under a name, and the right to count at it.
    pub fn named<M: Founding>(self) -> (Mark<M>, Storing<M>)
        requires { self ≡ M.table }
        ensures { result.1 ≡ 0 }
    {
        let NewMark { cell, pass } = self;
        (
            Mark {
                cell,
                of: PhantomData,
            },
            Storing::new(pass),
        )
    }
}

/// A mark: how many records are stored, for all threads.
#[derive(Drop)]
pub struct Mark<M: Founding> {
    pub(crate) cell: Cell,
    of: PhantomData<M>,
    ghost named: { cell.table.shared.table_id ≡ M.table },
}
