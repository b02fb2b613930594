ghost use Rattle.std.specs.Prelude.{◌≡◌, ◌++◌, true, false, IfOk, OnOk, OnErr};
ghost use Rattle.ipc_model.specs.messages.Items.{is_port_item, item_encoding, items_of, body_filled};
ghost use Rattle.type_desc.specs.Adding.{Keeps};
ghost use Rattle.type_desc.specs.Values.{item_value, filled_item, names_after};

use crate::adding::{add_words, after_front, front_of};
use crate::first::first_item;
use crate::item::Item;
use std::alloc::AllocError;

impl Item<'_> {
    /// Returns the names for the items after this one: those that remain after this item's own ports.
    pub fn following_names<'n>(&self, names: &'n [u32]) -> &'n [u32]
        ensures { result.now ≡ names_after (item_value self.now) names.now }
    {
        if self.is_port() {
            after_front(names, self.number)
        } else {
            names
        }
    }

    /// Appends a port item with these names in place of its ports.
    #[tactic(auto, using(crate::specs::Adding::keeps_more))]
    fn add_filled_ports(&self, names: &[u32], out: &mut Vec<u8>) -> Result<(), AllocError>
        requires { is_port_item (item_value self.now) ≡ true }
        ensures ok { OnOk result (out.new.items ≡ out.old.items
            ++ item_encoding (filled_item (item_value self.now) names.now)) }
        ensures part { OnErr result (Keeps out.old.items out.new.items) }
    {
        self.add_descriptor(self.type_name, out)?;
        add_words(out, front_of(names, self.number))?;
        Ok(())
    }

    /// Appends the item with these names in place of its ports.
    fn add_filled(&self, names: &[u32], out: &mut Vec<u8>) -> Result<(), AllocError>
        ensures ok { OnOk result (out.new.items ≡ out.old.items
            ++ item_encoding (filled_item (item_value self.now) names.now)) }
        ensures part { OnErr result (Keeps out.old.items out.new.items) }
    {
        if self.is_port() {
            self.add_filled_ports(names, out)?;
            return Ok(());
        }
        self.add_plain(out)?;
        Ok(())
    }

    /// Appends the item's bytes with the first of these names in place of its ports. An item without ports is appended
    /// unchanged.
    ///
    /// If an allocation fails, nothing changed.
    pub fn push_filled(&self, names: &[u32], out: &mut Vec<u8>) -> Result<(), AllocError>
        ensures ok { OnOk result (out.new.items ≡ out.old.items
            ++ item_encoding (filled_item (item_value self.now) names.now)) }
        ensures err { OnErr result (out.new.items ≡ out.old.items) }
    {
        let before = out.len();
        match self.add_filled(names, out) {
            Ok(()) => Ok(()),
            Err(error) => {
                out.truncate(before);
                Err(error)
            }
        }
    }
}

/// Appends the items of a body with these names in place of their ports, up to the first fault. Returns `false` if
/// there is a fault.
fn add_filled_items(body: &[u8], names: &[u32], out: &mut Vec<u8>) -> Result<bool, AllocError>
    ensures tiled { IfOk result (λ tiled. tiled ≡ true
        → out.new.items ≡ out.old.items ++ body_filled (items_of body.now) body.now names.now) }
    ensures faulty { IfOk result (λ tiled. tiled ≡ false
        → body_filled (items_of body.now) body.now names.now ≡ body.now) }
    ensures kept { Keeps out.old.items out.new.items }
{
    let mut rest = body;
    let mut left = names;
    while !rest.is_empty() {
        let Ok((item, beyond)) = first_item(rest) else {
            return Ok(false);
        };
        item.push_filled(left, out)?;
        left = item.following_names(left);
        rest = beyond;
    }
    Ok(true)
}

/// Appends a body with these names in place of the ports of its items, from the left. If items don't tile the body, it
/// is appended unchanged. Names beyond its ports are ignored. If there are too few names, the bytes of the other ports
/// are left out.
///
/// If an allocation fails, nothing changed. It allocates only for the appended bytes.
pub fn push_filled_body(body: &[u8], names: &[u32], out: &mut Vec<u8>) -> Result<(), AllocError>
    ensures ok { OnOk result (out.new.items ≡ out.old.items ++ body_filled (items_of body.now) body.now names.now) }
    ensures err { OnErr result (out.new.items ≡ out.old.items) }
{
    let before = out.len();
    match add_filled_items(body, names, out) {
        Ok(true) => Ok(()),
        Ok(false) => {
            out.truncate(before);
            out.extend_from_slice(body)
        }
        Err(error) => {
            out.truncate(before);
            Err(error)
        }
    }
}
