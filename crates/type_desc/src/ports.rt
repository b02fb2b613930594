ghost use Rattle.std.specs.Prelude.{◌≡◌, ◌<◌, nat_lt, length, map, slice_index};
ghost use Rattle.codes.specs.Disposition.{disposition_of};
ghost use Rattle.ipc_model.specs.messages.Items.{is_port_item, names_of_item};
ghost use Rattle.ipc_model.specs.messages.Sending.{ports_in};
ghost use Rattle.type_desc.specs.Values.{item_value};

use crate::descriptor::is_port_type;
use crate::item::Item;
use byteorder::{ByteOrder, LittleEndian};
use codes::{Disposition, MAX_MESSAGE_PORTS};

impl Item<'_> {
    /// Returns true if the elements are ports.
    pub fn is_port(&self) -> bool
        ensures { result ≡ is_port_item (item_value self.now) }
    {
        is_port_type(self.type_name)
    }

    /// Returns the disposition of the rights of a port item (`msgt_name`: `MACH_MSG_TYPE_MOVE_RECEIVE` to
    /// `MACH_MSG_TYPE_MAKE_SEND_ONCE`), or `None` for other items.
    pub fn disposition(&self) -> Option<Disposition>
        ensures { result ≡ disposition_of self.now.type_name }
    {
        Disposition::from_number(u32::from(self.type_name))
    }

    /// Returns the number of ports in the item, including `MACH_PORT_NULL` and `MACH_PORT_DEAD`.
    #[tactic(auto, using(crate::specs::Names::names_count))]
    pub fn port_count(&self) -> u32
        ensures { result ≡ length (names_of_item (item_value self.now)) }
    {
        if self.is_port() { self.number } else { 0 }
    }

    /// Returns the name of the port at an index, counted from 0.
    pub fn name(&self, index: u32) -> u32
        requires { index < length (names_of_item (item_value self.now)) }
        ensures { result ≡ slice_index (names_of_item (item_value self.now)) index }
    {
        LittleEndian::read_u32(&self.content[4 * index as usize..])
    }
}

/// Returns true if the items hold more ports than a message may, which is 256, including `MACH_PORT_NULL` and
/// `MACH_PORT_DEAD`.
pub fn has_too_many_ports(items: &[Item<'_>]) -> bool
    ensures { result ≡ nat_lt MAX_MESSAGE_PORTS (ports_in (map item_value items.now)) }
{
    let mut room = MAX_MESSAGE_PORTS as u32;
    for item in items {
        let count = item.port_count();
        if count > room {
            return true;
        }
        room -= count;
    }
    false
}
