use crate::expect::{same, same_bytes, same_in_row};
use codes::{Disposition, KernReturn};
use std::alloc::Global;
use type_desc::{
    ItemFault, first_item, has_too_many_ports, items, push_filled_body, push_stored_items,
};

/// Three ports by `MACH_MSG_TYPE_MAKE_SEND`: 0x101, `MACH_PORT_NULL` and `MACH_PORT_DEAD`.
const PORTS: &[u8] = b"\x14\x20\x03\x10\x01\x01\x00\x00\x00\x00\x00\x00\xff\xff\xff\xff";

/// The same ports in a queued message.
const STORED_PORTS: &[u8] = b"\x11\x20\x03\x10\x00\x00\x00\x00\x00\x00\x00\x00\x00\x00\x00\x00";

/// Bodies, and the number of their items or their fault: a long descriptor whose data is missing, one that is cut off,
/// one with fields in its word, data that is cut off, data out of line, a deallocate bit, the unused bit, ports of 64
/// bits, and a fault after an item.
static BODIES: [(&[u8], Result<usize, ItemFault>); 14] = [
    (b"", Ok(0)),
    (PORTS, Ok(1)),
    (b"\x08\x08\x05\x10abcde\x00\x00\x00\x00\x08\x00\x10", Ok(2)),
    (
        b"\x00\x00\x00\x30\x08\x00\x08\x00\x03\x00\x00\x00abc\x00",
        Ok(1),
    ),
    (
        b"\x00\x00\x00\x30\x08\x00\xff\xff\xff\xff\xff\xff",
        Err(ItemFault::Code(KernReturn::SendMsgTooSmall)),
    ),
    (
        b"\x00\x00\x00\x30",
        Err(ItemFault::Code(KernReturn::SendMsgTooSmall)),
    ),
    (
        b"\x08\x08\x05\x30\x00\x00\x00\x00\x00\x00\x00\x00",
        Err(ItemFault::Code(KernReturn::SendInvalidType)),
    ),
    (
        b"\x08\x08\x05\x10abcd",
        Err(ItemFault::Code(KernReturn::SendMsgTooSmall)),
    ),
    (
        b"\x08\x08\x05\x00",
        Err(ItemFault::Code(KernReturn::SendInvalidMemory)),
    ),
    (
        b"\x08\x08\x00\x50",
        Err(ItemFault::Code(KernReturn::SendInvalidType)),
    ),
    (
        b"\x08\x08\x00\x90",
        Err(ItemFault::Code(KernReturn::SendInvalidType)),
    ),
    (
        b"\x11\x40\x00\x10",
        Err(ItemFault::Code(KernReturn::SendInvalidType)),
    ),
    (
        b"\x00\x00\x00\x30\x11\x00\x20\x00\x01\x00\x00\x00\x01\x01\x00\x00",
        Ok(1),
    ),
    (
        b"\x00\x08\x00\x10\x08\x08\x00",
        Err(ItemFault::Code(KernReturn::SendMsgTooSmall)),
    ),
];

fn count_of(alloc: Global, body: &[u8]) -> Result<usize, ItemFault> {
    Ok(items(alloc, body)?.len())
}

#[test]
fn bodies_are_items(rt: HostRuntime) {
    for (body, wanted) in &BODIES {
        same_in_row(&rt, *body, count_of(rt.alloc(), body), *wanted);
    }
}

/// Returns the disposition and the names of the first item's ports, if it has three.
fn ports_of(body: &[u8]) -> Option<(Option<Disposition>, [u32; 3])> {
    let (item, _) = first_item(body).ok()?;
    if item.port_count() != 3 {
        return None;
    }
    Some((
        item.disposition(),
        [item.name(0), item.name(1), item.name(2)],
    ))
}

#[test]
fn ports_have_names(rt: HostRuntime) {
    let wanted = (Some(Disposition::MakeSend), [0x101, 0, 0xffff_ffff]);
    same(&rt, ports_of(PORTS), Some(wanted));
}

/// Returns true if a body has too many ports.
fn is_too_much(alloc: Global, body: &[u8]) -> Option<bool> {
    let items = items(alloc, body).ok()?;
    let too_many = has_too_many_ports(&items);
    drop(items);
    Some(too_many)
}

fn stored(alloc: Global, body: &[u8]) -> Option<Vec<u8>> {
    let items = items(alloc, body).ok()?;
    let mut out = Vec::new(alloc);
    push_stored_items(&items, &mut out).ok()?;
    Some(out)
}

#[test]
fn ports_are_stored(rt: HostRuntime) {
    same(&rt, is_too_much(rt.alloc(), PORTS), Some(false));
    same_bytes(&rt, stored(rt.alloc(), PORTS), STORED_PORTS);
}

fn filled(alloc: Global, body: &[u8], names: &[u32]) -> Option<Vec<u8>> {
    let mut out = Vec::new(alloc);
    push_filled_body(body, names, &mut out).ok()?;
    Some(out)
}

#[test]
fn places_are_filled(rt: HostRuntime) {
    same_bytes(
        &rt,
        filled(rt.alloc(), STORED_PORTS, &[1, 2, 3]),
        b"\x11\x20\x03\x10\x01\x00\x00\x00\x02\x00\x00\x00\x03\x00\x00\x00",
    );
}

/// Returns a body of one item with 257 ports.
fn many_ports(alloc: Global) -> Option<Vec<u8>> {
    let mut body = Vec::from_slice(alloc, &[0x11, 0x20, 1, 0x11]).ok()?;
    body.resize(4 + 4 * 257, 0).ok()?;
    Some(body)
}

fn are_too_many(alloc: Global) -> Option<bool> {
    let body = many_ports(alloc)?;
    let too_many = is_too_much(alloc, &body);
    drop(body);
    too_many
}

#[test]
fn ports_are_counted(rt: HostRuntime) {
    same(&rt, are_too_many(rt.alloc()), Some(true));
}
