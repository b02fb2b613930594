//! The items of a message's body (Mach 3 Kernel Interfaces): descriptors (`mach_msg_type_t` and
//! `mach_msg_type_long_t`), each followed by its data. Every number is little-endian.
#![tactic(auto)]

mod adding;
mod descriptor;
mod fault;
mod filled;
mod first;
mod item;
mod laws;
mod list;
mod ports;
mod stored;

pub use fault::ItemFault;
pub use filled::push_filled_body;
pub use first::first_item;
pub use item::Item;
pub use laws::filled_one_by_one;
pub use list::items;
pub use ports::has_too_many_ports;
pub use stored::push_stored_items;
