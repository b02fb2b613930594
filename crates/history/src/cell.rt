ghost use Rattle.std.specs.Prelude.{◌≡◌, Some, IfOk, IsErrOf};
ghost use Rattle.once_cell.specs.Once.{cell_name};

use crate::AddFault;
use once_cell::race::{Note, OnceBox};

/// Sets an empty cell, and returns a note that knows what lies there now.
pub(crate) fn set_cell<T: Drop>(cell: &OnceBox<T>, boxed: Box<T>) -> Result<Note<T>, AddFault>
    ensures cell { IfOk result (λ note. note.cell ≡ cell_name cell.now) }
    ensures known { IfOk result (λ note. note.known ≡ Some boxed.value) }
    ensures full { IsErrOf result AddFault.BlockFull → ⊥ }
{
    let mut note = cell.note();
    if cell.set_as(boxed, &mut note).is_err() {
        return Err(AddFault::CellTaken);
    }
    Ok(note)
}
