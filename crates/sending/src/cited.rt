//! The names that a message contains. The effect of a send depends on their entries.
ghost use Rattle.std.specs.Prelude.{◌≡◌, ◌++◌, flat_map, map, IfOk, OnOk};
ghost use Rattle.ipc_model.specs.messages.Items.{names_of_item};
ghost use Rattle.ipc_model.specs.messages.Messages.{used_parts};
ghost use Rattle.type_desc.specs.Values.{item_value};
ghost use Rattle.waiting.specs.Waiting.{names_cited};

use crate::SendFault;
use crate::reading::{read_items, read_message};
use std::alloc::{AllocError, Global};
use type_desc::Item;

/// Returns the names that a message contains: the destination's, the reply port's and those in its body, in this order.
///
/// `Refused`: `send` refuses the message because of its size or the items of its body, whatever the names denote.
/// `NoMemory`: an allocation failed.
pub fn cited_names(alloc: Global, message: &[u8]) -> Result<Vec<u32>, SendFault>
    ensures { IfOk result (λ names. names.items ≡ names_cited (used_parts message.now)) }
{
    let (header, body) = read_message(message)?;
    let items = read_items(alloc, header.complex, body)?;
    let mut names = Vec::new(alloc);
    names.extend_from_slice(&[header.remote, header.local])?;
    push_names(&items, &mut names)?;
    Ok(names)
}

/// Appends the names in items.
fn push_names(items: &[Item<'_>], names: &mut Vec<u32>) -> Result<(), AllocError>
    ensures { OnOk result (names.new.items ≡ names.old.items ++ flat_map names_of_item (map item_value items.now)) }
{
    for item in items {
        push_names_of(item, names)?;
    }
    Ok(())
}

/// Appends the names in an item.
fn push_names_of(item: &Item<'_>, names: &mut Vec<u32>) -> Result<(), AllocError>
    ensures { OnOk result (names.new.items ≡ names.old.items ++ names_of_item (item_value item.now)) }
{
    for index in 0..item.port_count() {
        names.push(item.name(index))?;
    }
    Ok(())
}
