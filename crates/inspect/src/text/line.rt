ghost use Rattle.std.specs.Prelude.{◌≡◌, ◌++◌, IfOk, OnOk, string_bytes};
ghost use Rattle.inspect.specs.text.Listing.{hexadecimal, port_of, references_of, name_line, space_line, queue_text, port_encoding, store_line};
ghost use Rattle.inspect.specs.text.Rows.{standing_text};

use crate::text::standing::Standing;
use crate::text::tally::Tally;
use ipc_model::{Entry, PortState};
use std::alloc::{AllocError, Global};

fn port_of(entry: &Entry) -> u64
    ensures { result ≡ port_of entry.now }
{
    match entry {
        Entry::Port(rights) => rights.port,
        Entry::SendOnce { port, .. } => *port,
        Entry::Set | Entry::Dead { .. } => 0,
    }
}

pub(crate) fn references_of(entry: &Entry) -> u32
    ensures { result ≡ references_of entry.now }
{
    match entry {
        Entry::Port(rights) => rights.send,
        Entry::SendOnce { .. } | Entry::Set => 1,
        Entry::Dead { references } => *references,
    }
}

/// Appends a text and drops it, so that a `?` after the call has nothing to drop.
pub(crate) fn push_encoding(out: &mut Vec<u8>, text: String) -> Result<(), AllocError>
    ensures { OnOk result (out.new.items ≡ out.old.items ++ string_bytes text) }
{
    let pushed = out.extend_from_slice(text.as_bytes());
    drop(text);
    pushed
}

#[tactic(auto, unfolding(crate::specs::text::Listing::hexadecimal))]
pub(crate) fn hexadecimal(alloc: Global, number: u32) -> Result<String, AllocError>
    ensures { IfOk result (λ text. string_bytes text ≡ hexadecimal number) }
{
    hex::encode(alloc, number.to_be_bytes())
}

/// Returns the line of a name.
#[tactic(auto, unfolding(crate::specs::text::Listing::name_line))]
pub(crate) fn name_line(alloc: Global, name: u32, entry: &Entry) -> Result<String, AllocError>
    ensures { IfOk result (λ line. string_bytes line ≡ name_line name entry.now) }
{
    let name = hexadecimal(alloc, name)?;
    let bits = hexadecimal(alloc, entry.type_bits())?;
    let port = port_of(entry);
    let references = references_of(entry);
    let line = format!(in alloc; "name {name} {bits} port {port} refs {references}\n");
    drop(name);
    drop(bits);
    line
}

/// Returns the line of a space.
#[tactic(auto, unfolding(crate::specs::text::Listing::space_line))]
pub(crate) fn space_line(alloc: Global, space: u32) -> Result<String, AllocError>
    ensures { IfOk result (λ line. string_bytes line ≡ space_line space) }
{
    format!(in alloc; "space {space}\n")
}

/// Returns the place of a port's receive right, after a space.
fn standing_text(alloc: Global, receive: Option<Standing>) -> Result<String, AllocError>
    ensures { IfOk result (λ text. string_bytes text ≡ standing_text receive) }
{
    match receive {
        Some(Standing::Held { space, name }) => {
            let name = hexadecimal(alloc, name)?;
            format!(in alloc; " held {space} {name}")
        }
        Some(Standing::Queued { queue }) => format!(in alloc; " carried {queue}"),
        _ => Ok(String::new(alloc)),
    }
}

/// Returns the end of a port's line, about its queue.
#[tactic(auto, unfolding(crate::specs::text::Listing::queue_text))]
fn queue_text(alloc: Global, port: &PortState) -> Result<String, AllocError>
    ensures { IfOk result (λ text. string_bytes text ≡ queue_text port.now) }
{
    let queued = port.messages.as_slice().len();
    let limit = port.limit;
    let seqno = port.sequence_number;
    let mscount = port.make_send_count;
    format!(in alloc; " queue {queued} of {limit} seqno {seqno} mscount {mscount}\n")
}

/// Returns the line of a port.
#[tactic(auto, unfolding(crate::specs::text::Listing::port_encoding))]
pub(crate) fn port_line(
    alloc: Global,
    serial: u64,
    tally: Tally,
    port: &PortState,
) -> Result<String, AllocError>
    ensures { IfOk result (λ line. string_bytes line
        ≡ port_encoding serial (standing_text tally.receive) tally.send tally.send_once port.now) }
{
    let receive = standing_text(alloc, tally.receive)?;
    let queue = queue_text(alloc, port)?;
    let send = tally.send;
    let once = tally.send_once;
    let line = format!(in alloc; "port {serial}{receive} send {send} once {once}{queue}");
    drop(receive);
    drop(queue);
    line
}

/// Returns the line with the numbers of a store.
#[tactic(auto, unfolding(crate::specs::text::Listing::store_line))]
pub(crate) fn store_line(alloc: Global, epoch: u64, records: u64) -> Result<String, AllocError>
    ensures { IfOk result (λ line. string_bytes line ≡ store_line epoch records) }
{
    format!(in alloc; "epoch {epoch} records {records}\n")
}
