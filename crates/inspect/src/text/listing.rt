ghost use Rattle.std.specs.Prelude.{◌≡◌, ◌++◌, OnOk};
ghost use Rattle.ipc_model.specs.state.Ipc.{Ipc};
ghost use Rattle.snapshot.specs.Snapshots.{ipc_snapshot_of};
ghost use Rattle.inspect.specs.text.Listing.{listing};
ghost use Rattle.inspect.specs.text.Rows.{names_rows, space_rows, spaces_rows, ports_rows, snapshot_rows};

use crate::text::line::{name_line, port_line, push_encoding, space_line, store_line};
use crate::text::tally::{Tallies, gather};
use snapshot::{IpcSnapshot, LivePort, NamedEntry, Space};
use std::alloc::{AllocError, Global};

fn push_names(alloc: Global, out: &mut Vec<u8>, names: &[NamedEntry]) -> Result<(), AllocError>
    ensures { OnOk result (out.new.items ≡ out.old.items ++ names_rows names.now) }
{
    for named in names {
        let line = name_line(alloc, named.name, &named.entry)?;
        push_encoding(out, line)?;
    }
    Ok(())
}

fn push_space(alloc: Global, out: &mut Vec<u8>, space: &Space) -> Result<(), AllocError>
    ensures { OnOk result (out.new.items ≡ out.old.items ++ space_rows space.now) }
{
    let line = space_line(alloc, space.number)?;
    push_encoding(out, line)?;
    push_names(alloc, out, space.names.as_slice())
}

fn push_spaces(alloc: Global, out: &mut Vec<u8>, spaces: &[Space]) -> Result<(), AllocError>
    ensures { OnOk result (out.new.items ≡ out.old.items ++ spaces_rows spaces.now) }
{
    for space in spaces {
        push_space(alloc, out, space)?;
    }
    Ok(())
}

fn push_ports(
    alloc: Global,
    out: &mut Vec<u8>,
    tallies: &Tallies,
    ports: &[LivePort],
) -> Result<(), AllocError>
    ensures { OnOk result (out.new.items ≡ out.old.items ++ ports_rows tallies.now.by_port ports.now) }
{
    for port in ports {
        let tally = tallies.tally(port.serial);
        let line = port_line(alloc, port.serial, tally, &port.state)?;
        push_encoding(out, line)?;
    }
    Ok(())
}

#[tactic(auto, unfolding(crate::specs::text::Rows::snapshot_rows))]
fn push_rows(
    alloc: Global,
    epoch: u64,
    records: u64,
    snapshot: &IpcSnapshot,
    out: &mut Vec<u8>,
) -> Result<(), AllocError>
    ensures { OnOk result (out.new.items ≡ out.old.items ++ snapshot_rows epoch records snapshot.now) }
{
    push_encoding(out, store_line(alloc, epoch, records)?)?;
    push_spaces(alloc, out, snapshot.spaces.as_slice())?;
    let tallies = gather(alloc, snapshot)?;
    let pushed = push_ports(alloc, out, &tallies, snapshot.ports.as_slice());
    drop(tallies);
    pushed
}

/// Appends the lines of a state: the epoch and the number of records of its store, then its spaces with their names,
/// then its live ports. One walk collects the rights to each port, and a second one writes the lines. It fails only if
/// out of memory; then some lines may have been appended.
pub fn list(
    alloc: Global,
    epoch: u64,
    records: u64,
    snapshot: &IpcSnapshot,
    out: &mut Vec<u8>,
) -> Result<(), AllocError>
    ensures { (state : Ipc) → snapshot.now ≡ ipc_snapshot_of state
        → OnOk result (out.new.items ≡ out.old.items ++ listing epoch records state) }
{
    push_rows(alloc, epoch, records, snapshot, out)
}
