ghost use Rattle.std.specs.Prelude.{◌≡◌, ◌++◌, true, map, OnOk, OnErr};
ghost use Rattle.ipc_model.specs.messages.Items.{is_port_item, item_encoding, items_encoding, as_stored};
ghost use Rattle.type_desc.specs.Adding.{Keeps};
ghost use Rattle.type_desc.specs.Values.{item_value};

use crate::adding::{push_zeros, received_type};
use crate::item::Item;
use std::alloc::AllocError;

impl Item<'_> {
    /// Appends a port item in its queued form.
    fn add_stored_ports(&self, out: &mut Vec<u8>) -> Result<(), AllocError>
        requires { is_port_item (item_value self.now) ≡ true }
        ensures ok { OnOk result (out.new.items ≡ out.old.items ++ item_encoding (as_stored (item_value self.now))) }
        ensures part { OnErr result (Keeps out.old.items out.new.items) }
    {
        self.add_descriptor(received_type(self.type_name), out)?;
        push_zeros(out, self.content.len())?;
        Ok(())
    }

    /// Appends the item unchanged.
    pub(crate) fn add_plain(&self, out: &mut Vec<u8>) -> Result<(), AllocError>
        ensures ok { OnOk result (out.new.items ≡ out.old.items ++ item_encoding (item_value self.now)) }
        ensures part { OnErr result (Keeps out.old.items out.new.items) }
    {
        self.add_descriptor(self.type_name, out)?;
        out.extend_from_slice(self.content)?;
        Ok(())
    }

    /// Appends the item in its queued form.
    fn add_stored(&self, out: &mut Vec<u8>) -> Result<(), AllocError>
        ensures ok { OnOk result (out.new.items ≡ out.old.items ++ item_encoding (as_stored (item_value self.now))) }
        ensures part { OnErr result (Keeps out.old.items out.new.items) }
    {
        if self.is_port() {
            self.add_stored_ports(out)?;
            return Ok(());
        }
        self.add_plain(out)?;
        Ok(())
    }

    /// Appends the item's bytes in queued form: the type as received, and 0 in place of each port.
    ///
    /// If an allocation fails, nothing changed.
    pub fn push_stored(&self, out: &mut Vec<u8>) -> Result<(), AllocError>
        ensures ok { OnOk result (out.new.items ≡ out.old.items ++ item_encoding (as_stored (item_value self.now))) }
        ensures err { OnErr result (out.new.items ≡ out.old.items) }
    {
        let before = out.len();
        match self.add_stored(out) {
            Ok(()) => Ok(()),
            Err(error) => {
                out.truncate(before);
                Err(error)
            }
        }
    }
}

/// Appends items in their queued form. If an allocation fails, some of them may have been appended.
fn add_stored_items(items: &[Item<'_>], out: &mut Vec<u8>) -> Result<(), AllocError>
    ensures ok { OnOk result (out.new.items ≡ out.old.items
        ++ items_encoding (map as_stored (map item_value items.now))) }
    ensures part { OnErr result (Keeps out.old.items out.new.items) }
{
    for item in items {
        item.push_stored(out)?;
    }
    Ok(())
}

/// Appends the bytes of items in queued form: types of ports as received, and 0 in place of each port.
///
/// If an allocation fails, nothing changed.
pub fn push_stored_items(items: &[Item<'_>], out: &mut Vec<u8>) -> Result<(), AllocError>
    ensures ok { OnOk result (out.new.items ≡ out.old.items
        ++ items_encoding (map as_stored (map item_value items.now))) }
    ensures err { OnErr result (out.new.items ≡ out.old.items) }
{
    let before = out.len();
    match add_stored_items(items, out) {
        Ok(()) => Ok(()),
        Err(error) => {
            out.truncate(before);
            Err(error)
        }
    }
}
