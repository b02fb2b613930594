ghost use Rattle.std.specs.Prelude.{◌≡◌, ◌++◌, OnOk};
ghost use Rattle.ipc_model.specs.state.Ipc.{Ipc};
ghost use Rattle.snapshot.specs.Snapshots.{ipc_snapshot_of};
ghost use Rattle.inspect.specs.text.Drawing.{drawing};
ghost use Rattle.inspect.specs.text.Strokes.{names_drawn, space_drawn, spaces_drawn, ports_drawn, edges_drawn, drawn};

use crate::text::line::push_encoding;
use crate::text::standing::StandingRight;
use crate::text::stroke::{cluster_head, edge_line, name_node_line, port_node_line};
use crate::text::tally::{Tallies, gather};
use crate::text::walk::{Visitor, see_snapshot};
use snapshot::{IpcSnapshot, LivePort, NamedEntry, Space};
use std::alloc::{AllocError, Global};
use std::mem;

/// The first lines of a drawing.
const HEAD: &[u8] = b"digraph ports {\n  rankdir=LR;\n  node [shape=box];\n";

fn push_names(
    alloc: Global,
    out: &mut Vec<u8>,
    space: u32,
    names: &[NamedEntry],
) -> Result<(), AllocError>
    ensures { OnOk result (out.new.items ≡ out.old.items ++ names_drawn space names.now) }
{
    for named in names {
        let line = name_node_line(alloc, space, named.name, &named.entry)?;
        push_encoding(out, line)?;
    }
    Ok(())
}

fn push_space(alloc: Global, out: &mut Vec<u8>, space: &Space) -> Result<(), AllocError>
    ensures { OnOk result (out.new.items ≡ out.old.items ++ space_drawn space.now) }
{
    let head = cluster_head(alloc, space.number)?;
    push_encoding(out, head)?;
    push_names(alloc, out, space.number, space.names.as_slice())?;
    out.extend_from_slice(b"  }\n")
}

fn push_spaces(alloc: Global, out: &mut Vec<u8>, spaces: &[Space]) -> Result<(), AllocError>
    ensures { OnOk result (out.new.items ≡ out.old.items ++ spaces_drawn spaces.now) }
{
    for space in spaces {
        push_space(alloc, out, space)?;
    }
    Ok(())
}

fn push_ports(
    alloc: Global,
    out: &mut Vec<u8>,
    tallies: &Tallies,
    ports: &[LivePort],
) -> Result<(), AllocError>
    ensures { OnOk result (out.new.items ≡ out.old.items ++ ports_drawn tallies.now.by_port ports.now) }
{
    for port in ports {
        let tally = tallies.tally(port.serial);
        let line = port_node_line(alloc, port.serial, tally, &port.state)?;
        push_encoding(out, line)?;
    }
    Ok(())
}

/// A text to which an edge is appended for each right.
#[derive(Drop)]
struct Edges {
    alloc: Global,
    text: Vec<u8>,
}

impl Visitor for Edges {
    ghost use Rattle.std.specs.Prelude.{List, ℕ};
    ghost use Rattle.inspect.specs.text.Strokes.{edge_drawn};

    ghost View = { List ℕ };

    ghost view = { λ edges. edges.text.items };

    ghost seen = { edge_drawn };

    fn see(&mut self, right: StandingRight) -> Result<(), AllocError> {
        let line = edge_line(self.alloc, right)?;
        push_encoding(&mut self.text, line)
    }
}

fn push_edges(alloc: Global, out: &mut Vec<u8>, snapshot: &IpcSnapshot) -> Result<(), AllocError>
    ensures { OnOk result (out.new.items ≡ edges_drawn snapshot.now out.old.items) }
{
    let text = mem::replace(out, Vec::new(alloc));
    let mut edges = Edges { alloc, text };
    let result = see_snapshot(&mut edges, snapshot);
    *out = edges.text;
    result
}

#[tactic(auto, unfolding(crate::specs::text::Strokes::drawn))]
fn push_drawing(alloc: Global, snapshot: &IpcSnapshot, out: &mut Vec<u8>) -> Result<(), AllocError>
    ensures { OnOk result (out.new.items ≡ drawn snapshot.now out.old.items) }
{
    out.extend_from_slice(HEAD)?;
    push_spaces(alloc, out, snapshot.spaces.as_slice())?;
    let tallies = gather(alloc, snapshot)?;
    let pushed = push_ports(alloc, out, &tallies, snapshot.ports.as_slice());
    drop(tallies);
    pushed?;
    push_edges(alloc, out, snapshot)?;
    out.extend_from_slice(b"}\n")
}

/// Appends a drawing of a state in the language of Graphviz: its spaces as clusters of their names, its live ports, and
/// an edge for each right from its place to its port. It fails only if out of memory; then part of the drawing may have
/// been appended.
pub fn draw(alloc: Global, snapshot: &IpcSnapshot, out: &mut Vec<u8>) -> Result<(), AllocError>
    ensures { (state : Ipc) → snapshot.now ≡ ipc_snapshot_of state
        → OnOk result (out.new.items ≡ out.old.items ++ drawing state) }
{
    push_drawing(alloc, snapshot, out)
}
