use std::marker::Brand;
use std::sync::ledger::Ledger;

/// Which history it is. A program picks it at a call.
pub trait Founding: Ledger {
    ghost use Rattle.atomic_table.specs.Seated.{TableId};
    ghost use Rattle.history.specs.Blocks.{BlockNames};
    ghost use Rattle.ipc_model.specs.state.State.{State};

    /// The names of its first entry block's cells.
    ghost first: { BlockNames };

    /// The mark of how many of its records are stored.
    ghost table: { TableId };

    /// The state that it begins with.
    ghost base: { State };
}

impl Founding for Brand {
    ghost use Rattle.std.specs.Prelude.{[]};
    ghost use Rattle.history.specs.Marks.{no_table};
    ghost use Rattle.ipc_model.specs.state.State.{opening_state};

    ghost first = { record { link = 0; cells = [] } };

    ghost table = { no_table };

    ghost base = { opening_state };
}
