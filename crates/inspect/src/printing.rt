ghost use Rattle.std.specs.Prelude.{◌≡◌, ◌≢◌, ◌++◌, ℕ, List, Err, IfErr, IfOk, IsErrOf, OnErr, OnOk};
ghost use Rattle.disk.specs.Moments.{ReadsOnly, one_more};
ghost use Rattle.std.specs.Io.KnownBytes.{Appends, Keeps};
ghost use Rattle.inspect.specs.Printed.{IsOfLook, IsTextOf, PrintsText, ReadsStore, drawing_of, listing_of};
ghost use Rattle.ipc_model.specs.state.State.{State};
ghost use Rattle.ipc_model.specs.store.Recovery.{IsDamaged, IsOtherVersion};
ghost use Rattle.snapshot.specs.Snapshots.{snapshot_of};
ghost use Rattle.store_layout.specs.Standing.{as_written};
ghost use Rattle.wire.specs.Writing.{AppendsPart};

use crate::ListFault;
use crate::looking::look_still;
use disk::Disk;
use recover::Looked;
use std::alloc::{AllocError, Global};
use std::io::Write;
use store_fault::StoreFault;
use wire::write_bytes;

/// A form in which a store is printed.
pub(crate) trait Form {
    /// The text of a state, with the epoch of its image and the number of records.
    ghost text_of: { ℕ → ℕ → State → List ℕ };

    /// Appends the text of a store that was read.
    fn append(&self, alloc: Global, look: &Looked, text: &mut Vec<u8>) -> Result<(), AllocError>
        ensures { (state : State) → look.now.snapshot ≡ snapshot_of state
            → OnOk result (text.new.items ≡ text.old.items ++ text_of look.now.epoch look.now.records state) };
}

/// Lines: `epoch E records N`; each space with its names; each live port with the place of its receive right, the
/// counts of its rights and its queue.
#[derive(Clone, Copy)]
pub(crate) struct Lines;

impl Form for Lines {
    ghost use Rattle.inspect.specs.Printed.{listing_of};

    ghost text_of = { listing_of };

    fn append(&self, alloc: Global, look: &Looked, text: &mut Vec<u8>) -> Result<(), AllocError> {
        crate::text::list(alloc, look.epoch, look.records, &look.snapshot.ipc, text)
    }
}

/// A drawing for Graphviz: spaces with their names, ports with their counts, an edge for each right.
#[derive(Clone, Copy)]
pub(crate) struct Drawing;

impl Form for Drawing {
    ghost use Rattle.inspect.specs.Printed.{drawing_of};

    ghost text_of = { drawing_of };

    fn append(&self, alloc: Global, look: &Looked, text: &mut Vec<u8>) -> Result<(), AllocError> {
        crate::text::draw(alloc, &look.snapshot.ipc, text)
    }
}

/// Writes the lines of a store, and flushes them: `epoch E records N`; each space with its names; each live port with
/// the place of its receive right, the counts of its rights and its queue. The store isn't written to.
///
/// It prints a copy in memory, so a server may continue with the store meanwhile.
///
/// `Store`: the store couldn't be read, for a reason of `recover::look` (`Device`, `Damaged`, `NoMemory` or `Version`),
/// and nothing was written. `Busy`: no copy of it could be made (`still_disk::still_copy`), and nothing was written.
/// `Write`: the writer failed, and a prefix of the lines may have been written.
pub fn list<D: Disk, W: Write>(alloc: Global, disk: &mut D, writer: &mut W) -> Result<(), ListFault>
    ensures prints { PrintsText (IsTextOf listing_of D.honest (D.view disk.old).seen) (W.contents writer.old)
        (W.contents writer.new) result }
    ensures reads { ReadsStore D.honest (D.view disk.old) (D.view disk.new) (D.failed_calls disk.old)
        (D.failed_calls disk.new) result }
{
    print(alloc, disk, &Lines, writer)
}

/// Writes a drawing of a store for Graphviz, and flushes it: spaces with their names, ports with their counts, an edge
/// for each right. The store isn't written to. Its faults are those of `list`.
pub fn sketch<D: Disk, W: Write>(
    alloc: Global,
    disk: &mut D,
    writer: &mut W,
) -> Result<(), ListFault>
    ensures prints { PrintsText (IsTextOf drawing_of D.honest (D.view disk.old).seen) (W.contents writer.old)
        (W.contents writer.new) result }
    ensures reads { ReadsStore D.honest (D.view disk.old) (D.view disk.new) (D.failed_calls disk.old)
        (D.failed_calls disk.new) result }
{
    print(alloc, disk, &Drawing, writer)
}

/// Writes the text of a store in a form, and flushes it.
pub(crate) fn print<D: Disk, F: Form, W: Write>(
    alloc: Global,
    disk: &mut D,
    form: &F,
    writer: &mut W,
) -> Result<(), ListFault>
    ensures prints { PrintsText (IsTextOf F.text_of D.honest (D.view disk.old).seen) (W.contents writer.old)
        (W.contents writer.new) result }
    ensures reads { ReadsStore D.honest (D.view disk.old) (D.view disk.new) (D.failed_calls disk.old)
        (D.failed_calls disk.new) result }
{
    let text = text_of(alloc, disk, form)?;
    send(writer, &text)
}

/// Returns the text of a store in a form.
fn text_of<D: Disk, F: Form>(alloc: Global, disk: &mut D, form: &F) -> Result<Vec<u8>, ListFault>
    ensures text { IfOk result (λ text. IsTextOf F.text_of D.honest (D.view disk.old).seen text.items) }
    ensures reads_only { D.honest → ReadsOnly (D.view disk.old) (D.view disk.new) }
    ensures version { D.honest → IsErrOf result (ListFault.Store StoreFault.Version)
        → IsOtherVersion (as_written (D.view disk.old).seen) }
    ensures damaged { D.honest → IsErrOf result (ListFault.Store StoreFault.Damaged)
        → IsDamaged (as_written (D.view disk.old).seen) }
    ensures faults { IfErr result IsOfLook }
    ensures quiet { OnOk result (D.failed_calls disk.new ≡ D.failed_calls disk.old) }
    ensures same { result ≢ Err (ListFault.Store StoreFault.Device)
        → D.failed_calls disk.new ≡ D.failed_calls disk.old }
    ensures device { IsErrOf result (ListFault.Store StoreFault.Device)
        → D.failed_calls disk.new ≡ one_more (D.failed_calls disk.old) }
    ensures still { D.honest → IsErrOf result ListFault.Busy → ⊥ }
    ensures err { IfErr result (λ fault. fault ≢ ListFault.Write) }
{
    let look = look_still(alloc, disk)?;
    let mut text = Vec::new(alloc);
    form.append(alloc, &look, &mut text)?;
    Ok(text)
}

/// Writes a whole text, and flushes it. If the writer fails, a prefix may have been written.
fn send<W: Write>(writer: &mut W, text: &[u8]) -> Result<(), ListFault>
    ensures ok { OnOk result (Appends (W.contents writer.old) (W.contents writer.new) text.now) }
    ensures part { OnErr result (AppendsPart (W.contents writer.old) (W.contents writer.new) text.now) }
    ensures err { IfErr result (λ fault. fault ≡ ListFault.Write) }
{
    write_bytes(writer, text)?;
    if writer.flush().is_err() {
        return Err(ListFault::Write);
    }
    Ok(())
}
