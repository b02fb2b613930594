ghost use Rattle.std.specs.Prelude.{◌≡◌, ◌++◌, map, flat_map, IfOk, OnOk};
ghost use Rattle.ipc_model.specs.messages.Items.{items_of, names_of_item};
ghost use Rattle.receiving.specs.ShownNames as shown;
ghost use Rattle.type_desc.specs.Values.{item_value};

use codes::HEADER_LENGTH;
use msg_header::{Header, parse};
use std::alloc::{AllocError, Global};
use type_desc::{Item, ItemFault, items};

/// Appends the name of the reply right, if the header contains one.
fn add_reply_name(header: Header, names: &mut Vec<u32>) -> Result<(), AllocError>
    ensures { OnOk result (names.new.items ≡ names.old.items
        ++ shown.name_in_header header.remote_disposition header.remote) }
{
    if header.remote_disposition != 0 {
        names.push(header.remote)?;
    }
    Ok(())
}

/// Appends the names of an item's ports, from the left, if it is a port item.
fn add_names(item: &Item<'_>, names: &mut Vec<u32>) -> Result<(), AllocError>
    ensures { OnOk result (names.new.items ≡ names.old.items ++ names_of_item (item_value item.now)) }
{
    for index in 0..item.port_count() {
        names.push(item.name(index))?;
    }
    Ok(())
}

/// Appends the names in items, from the left.
fn add_names_in_items(items: &[Item<'_>], names: &mut Vec<u32>) -> Result<(), AllocError>
    ensures { OnOk result (names.new.items ≡ names.old.items ++ flat_map names_of_item (map item_value items.now)) }
{
    for item in items {
        add_names(item, names)?;
    }
    Ok(())
}

/// Appends the names in the port items of a body, or none if items don't tile it.
fn add_names_in_body(alloc: Global, body: &[u8], names: &mut Vec<u32>) -> Result<(), AllocError>
    ensures { OnOk result (names.new.items ≡ names.old.items ++ shown.names_in_items (items_of body.now)) }
{
    match items(alloc, body) {
        Ok(items) => {
            add_names_in_items(&items, names)?;
            Ok(())
        }
        Err(ItemFault::Code(_)) => Ok(()),
        Err(ItemFault::NoMemory) => Err(AllocError),
    }
}

/// Returns the names in a received message, which its rights got in the receiver's space: the reply right's, if the
/// header contains one, then those in the port items of the body, from the left, if `MACH_MSGH_BITS_COMPLEX` is set.
///
/// Fewer bytes than a header contain no names; then it allocates nothing.
#[tactic(auto, using(crate::specs::ShownNames::none_shown))]
pub fn names_shown(alloc: Global, message: &[u8]) -> Result<Vec<u32>, AllocError>
    ensures { IfOk result (λ names. names.items ≡ shown.names_shown message.now) }
{
    let mut names = Vec::new(alloc);
    let Ok(header) = parse(message) else {
        return Ok(names);
    };
    add_reply_name(header, &mut names)?;
    if header.complex {
        add_names_in_body(alloc, &message[HEADER_LENGTH..], &mut names)?;
    }
    Ok(names)
}
