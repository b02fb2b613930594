ghost use Rattle.std.specs.Prelude.{◌≡◌, IfOk, string_bytes};
ghost use Rattle.inspect.specs.text.Drawing.{name_node, port_node, name_node_line, cluster_head, queue_label, port_node_text, kind_word, held_label};
ghost use Rattle.inspect.specs.text.Strokes.{source_of, label_of, edge_of};

use crate::text::line::{hexadecimal, references_of};
use crate::text::standing::{Standing, StandingRight};
use crate::text::tally::Tally;
use ipc_model::{Entry, PortState, RightKind};
use std::alloc::{AllocError, Global};

#[tactic(auto, unfolding(crate::specs::text::Drawing::name_node))]
fn name_node(alloc: Global, space: u32, name: u32) -> Result<String, AllocError>
    ensures { IfOk result (λ text. string_bytes text ≡ name_node space name) }
{
    let name = hexadecimal(alloc, name)?;
    format!(in alloc; "n{space}_{name}")
}

#[tactic(auto, unfolding(crate::specs::text::Drawing::port_node))]
fn port_node(alloc: Global, serial: u64) -> Result<String, AllocError>
    ensures { IfOk result (λ text. string_bytes text ≡ port_node serial) }
{
    format!(in alloc; "p{serial}")
}

/// Returns the node of a name.
#[tactic(auto, unfolding(crate::specs::text::Drawing::name_node_line))]
pub(crate) fn name_node_line(
    alloc: Global,
    space: u32,
    name: u32,
    entry: &Entry,
) -> Result<String, AllocError>
    ensures { IfOk result (λ line. string_bytes line ≡ name_node_line space name entry.now) }
{
    let node = name_node(alloc, space, name)?;
    let name = hexadecimal(alloc, name)?;
    let bits = hexadecimal(alloc, entry.type_bits())?;
    let references = references_of(entry);
    format!(in alloc; "    {node} [label=\"{name} {bits} refs {references}\"];\n")
}

/// Returns the head of a space's cluster.
#[tactic(auto, unfolding(crate::specs::text::Drawing::cluster_head))]
pub(crate) fn cluster_head(alloc: Global, space: u32) -> Result<String, AllocError>
    ensures { IfOk result (λ text. string_bytes text ≡ cluster_head space) }
{
    format!(in alloc; "  subgraph cluster_{space} {{\n    label=\"space {space}\";\n")
}

#[tactic(auto, unfolding(crate::specs::text::Drawing::queue_label))]
fn queue_label(alloc: Global, port: &PortState) -> Result<String, AllocError>
    ensures { IfOk result (λ text. string_bytes text ≡ queue_label port.now) }
{
    let queued = port.messages.as_slice().len();
    let limit = port.limit;
    let seqno = port.sequence_number;
    let mscount = port.make_send_count;
    format!(in alloc; "queue {queued} of {limit}\\nseqno {seqno} mscount {mscount}")
}

/// Returns the node of a port.
#[tactic(auto, unfolding(crate::specs::text::Drawing::port_node_text))]
pub(crate) fn port_node_line(
    alloc: Global,
    serial: u64,
    tally: Tally,
    port: &PortState,
) -> Result<String, AllocError>
    ensures { IfOk result (λ line. string_bytes line ≡ port_node_text serial tally.send tally.send_once port.now) }
{
    let node = port_node(alloc, serial)?;
    let queue = queue_label(alloc, port)?;
    let send = tally.send;
    let once = tally.send_once;
    let line = format!(in alloc;
        "  {node} [shape=ellipse, label=\"port {serial}\\nsend {send} once {once}\\n{queue}\"];\n"
    );
    drop(node);
    drop(queue);
    line
}

fn kind_word(kind: RightKind) -> &'static str
    ensures { result.now ≡ kind_word kind }
{
    match kind {
        RightKind::Receive => "receive",
        RightKind::Send => "send",
        RightKind::SendOnce => "send-once",
    }
}

/// Returns the label of a right under a name.
fn held_label(alloc: Global, references: u32, kind: RightKind) -> Result<String, AllocError>
    ensures { IfOk result (λ text. string_bytes text ≡ held_label references kind) }
{
    match kind {
        RightKind::Receive => format!(in alloc; "receive"),
        RightKind::Send => format!(in alloc; "send x{references}"),
        RightKind::SendOnce => format!(in alloc; "send-once"),
    }
}

/// Returns the node from which a right's edge starts.
fn source(alloc: Global, standing: Standing) -> Result<String, AllocError>
    ensures { IfOk result (λ text. string_bytes text ≡ source_of standing) }
{
    match standing {
        Standing::Held { space, name } => name_node(alloc, space, name),
        Standing::Queued { queue } => port_node(alloc, queue),
        Standing::DeadNameRequest { space, name } => name_node(alloc, space, name),
        Standing::NoSendersRequest { port } => port_node(alloc, port),
        Standing::PortDestroyedRequest { port } => port_node(alloc, port),
    }
}

fn label(
    alloc: Global,
    references: u32,
    kind: RightKind,
    standing: Standing,
) -> Result<String, AllocError>
    ensures { IfOk result (λ text. string_bytes text ≡ label_of references kind standing) }
{
    match standing {
        Standing::Held { .. } => held_label(alloc, references, kind),
        Standing::Queued { .. } => {
            let kind = kind_word(kind);
            format!(in alloc; "carried {kind}")
        }
        Standing::DeadNameRequest { .. } => format!(in alloc; "dead-name request"),
        Standing::NoSendersRequest { .. } => format!(in alloc; "no-senders request"),
        Standing::PortDestroyedRequest { .. } => format!(in alloc; "port-destroyed request"),
    }
}

/// Returns the edge of a right.
#[tactic(auto, unfolding(crate::specs::text::Drawing::edge_text))]
pub(crate) fn edge_line(alloc: Global, right: StandingRight) -> Result<String, AllocError>
    ensures { IfOk result (λ line. string_bytes line ≡ edge_of right) }
{
    let from = source(alloc, right.standing)?;
    let to = port_node(alloc, right.port)?;
    let called = label(alloc, right.references, right.kind, right.standing)?;
    let line = format!(in alloc; "  {from} -> {to} [label=\"{called}\"];\n");
    drop(from);
    drop(to);
    drop(called);
    line
}
