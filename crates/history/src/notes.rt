// What is known of cells, a note for each. A note is read only by `&mut`, so these functions say that notes stay as
// they were.
ghost use Rattle.std.specs.Prelude.{◌≡◌, ◌<◌, ◌≤◌, ◌++◌, Some, IfSome, length, map, drop, slice_get, vec_capacity};

use once_cell::race::Note;

/// A copy of the note at a place.
pub(crate) fn again_at<T>(notes: &mut Vec<Note<T>>, at: usize) -> Note<T>
    requires { at < length notes.old.items }
    ensures same { notes.new.items ≡ notes.old.items }
    ensures note { slice_get notes.old.items at ≡ Some result }
{
    notes[at].again()
}

/// What the note at a place knows is what another note of that cell knows.
pub(crate) fn compare_at<T>(notes: &mut Vec<Note<T>>, at: usize, note: Note<T>)
    requires within { at < length notes.old.items }
    requires cell { slice_get (map (λ n. n.cell) notes.old.items) at ≡ Some note.cell }
    ensures same { notes.new.items ≡ notes.old.items }
    ensures room { vec_capacity notes.new ≡ vec_capacity notes.old }
    ensures known { IfSome note.known
        (λ seen. IfSome (slice_get (map (λ n. n.known) notes.old.items) at)
        (λ known. IfSome known (λ own. own ≡ seen))) }
{
    notes[at].compare(note);
}

/// Copies the notes that the others have in addition. It takes no memory.
pub(crate) fn copy_rest<T>(notes: &mut Vec<Note<T>>, others: &mut Vec<Note<T>>)
    requires { length others.old.items ≤ vec_capacity notes.old }
    ensures new { notes.new.items ≡ notes.old.items ++ drop (length notes.old.items) others.old.items }
    ensures same { others.new.items ≡ others.old.items }
{
    let known = notes.len();
    for at in known..others.len() {
        notes.push_reserved(again_at(others, at));
    }
}
