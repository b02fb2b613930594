// The right to count at a mark, and what is known of it.
ghost use Rattle.std.specs.Prelude.{◌≡◌, ◌+◌, ◌<◌, ◌≤◌, ◌^◌};
ghost use Rattle.crossbeam_utils.specs.Seq.{cell_view};
ghost use Rattle.history.specs.Marks.{counting};

use crate::Founding;
use crate::mark::{CellPass, Compares, Copies, Counts, HandsOut, Mark};
use std::marker::{Model, PhantomData};
use std::sync::Wait;

/// The right to count what is stored. Each mark has one. Contracts see how many are stored.
#[derive(Drop)]
pub struct Storing<M: Founding> {
    stored: u64,
    pass: CellPass,
    of: PhantomData<M>,
}

impl<M: Founding> Model for Storing<M> {
    ghost use Rattle.std.specs.Prelude.{◌≡◌, ℕ};
    ghost use Rattle.crossbeam_utils.specs.Seq.{cell_view};
    ghost use Rattle.history.specs.Marks.{counting};

    ghost Value = { ℕ };

    ghost view = { λ s. s.stored };

    ghost invariant = { λ s. (s.pass.table_id ≡ M.table) × (cell_view s.pass ≡ counting s.stored) };
}

/// That so many records are stored, for good. Contracts see how many.
#[derive(Drop)]
pub struct Stored<M: Founding> {
    known: u64,
    pass: CellPass,
    of: PhantomData<M>,
}

impl<M: Founding> Model for Stored<M> {
    ghost use Rattle.std.specs.Prelude.{◌≡◌, ℕ, []};
    ghost use Rattle.crossbeam_utils.specs.Seq.{cell_view};
    ghost use Rattle.history.specs.Marks.{knowing};

    ghost Value = { ℕ };

    ghost view = { λ s. s.known };

    ghost invariant = { λ s. (s.pass.table_id ≡ M.table) × (s.pass.me.1 ≡ [])
        × (cell_view s.pass ≡ knowing s.known) };
}

impl<M: Founding> Storing<M> {
    /// The right to count at a mark at which nothing is stored.
    pub(crate) fn new(pass: CellPass) -> Self
        requires table { pass.table_id ≡ M.table }
        requires none { cell_view pass ≡ counting 0 }
        ensures { result ≡ 0 }
    {
        Storing {
            stored: 0,
            pass,
            of: PhantomData,
        }
    }

    /// Returns how many were counted.
    pub fn count(&self) -> u64
        ensures { result ≡ self.now }
    {
        self.stored
    }

    /// Counts so many more.
    pub fn add<R: Wait>(&mut self, rt: &R, mark: &Mark<M>, more: u64)
        requires { self.old + more < 2 ^ 64 }
        ensures { self.new ≡ self.old + more }
    {
        let stored = self.stored + more;
        mark.cell.swap_as::<Counts, R>(rt, &mut self.pass, [stored]);
        self.stored = stored;
    }

    /// That as many are stored as were counted.
    pub fn stored(&mut self, mark: &Mark<M>) -> Stored<M>
        ensures same { self.new ≡ self.old }
        ensures stored { result ≡ self.old }
    {
        let pass = mark.cell.split_pass::<HandsOut>(&mut self.pass);
        Stored {
            known: self.stored,
            pass,
            of: PhantomData,
        }
    }

    /// What is known to be stored was counted.
    pub fn covers<R: Wait>(&mut self, rt: &R, mark: &Mark<M>, known: Stored<M>)
        ensures same { self.new ≡ self.old }
        ensures covered { known ≤ self.old }
    {
        let Stored {
            known: _,
            pass,
            of: _,
        } = known;
        mark.cell.join_pass::<HandsOut>(&mut self.pass, pass);
        mark.cell.load_as::<Compares, R>(rt, &mut self.pass);
    }
}

impl<M: Founding> Stored<M> {
    /// Returns how many are known to be stored.
    pub fn count(&self) -> u64
        ensures { result ≡ self.now }
    {
        self.known
    }

    /// The same again.
    pub fn again(&mut self, mark: &Mark<M>) -> Stored<M>
        ensures same { self.new ≡ self.old }
        ensures again { result ≡ self.old }
    {
        // Both are new ones, since of a pass that another one came from it isn't known that it can be compared.
        let own = mark.cell.split_pass::<Copies>(&mut self.pass);
        let pass = mark.cell.split_pass::<Copies>(&mut self.pass);
        self.pass = own;
        Stored {
            known: self.known,
            pass,
            of: PhantomData,
        }
    }
}
