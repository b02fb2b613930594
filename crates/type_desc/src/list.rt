ghost use Rattle.std.specs.Prelude.{◌≡◌, Ok, IfOk, IfErr, map};
ghost use Rattle.ipc_model.specs.messages.Items.{items_of};
ghost use Rattle.type_desc.specs.Values.{item_value, FaultOf};

use crate::fault::ItemFault;
use crate::first::first_item;
use crate::item::Item;
use std::alloc::Global;

/// Returns the items that tile a body, from the left; an empty body has none. Each item's data is a slice of the body.
///
/// `Code`: the code of the leftmost item's first test that fails, as `first_item` returns it. `NoMemory`: out of memory
/// for the list.
pub fn items(alloc: Global, body: &[u8]) -> Result<Vec<Item<'_>>, ItemFault>
    ensures found { IfOk result (λ found. items_of body.now ≡ Ok (map item_value found.items)) }
    ensures fault { IfErr result (λ fault. FaultOf (items_of body.now) fault) }
{
    let mut items = Vec::new(alloc);
    let mut rest = body;
    while !rest.is_empty() {
        let (item, beyond) = first_item(rest)?;
        items.push(item)?;
        rest = beyond;
    }
    Ok(items)
}
