//! Slots written byte by byte, in either version: headers and segments as in docs/FORMATS.md, and the images of two
//! states. A version is its number here.
use std::alloc::{AllocError, Global};

/// The version in which slots are written.
pub(crate) const CURRENT: u8 = 2;

// The encoding of a state with one receive right, after its space's number and request.
static ONE_NAME: [u8; 78] = [
    1, 0, 0, 0, // one name,
    0, 1, 0, 0, // 0x100
    1, 1, 0, 0, 0, 0, 0, 0, 0, // rights to port 1:
    1, 0, 0, 0, 0, // the receive right, no send rights
    0, 0, 0, 0, 0, 0, 0, 0, // no dead-name request
    1, 0, 0, 0, 1, 0, 0, 0, 0, 0, 0, 0, // one port, port 1
    5, 0, 0, 0, 0, 0, 0, 0, // limit, sequence number
    0, 0, 0, 0, 0, 0, 0, 0, // make-send count, set
    0, 0, 0, 0, 0, 0, 0, 0, // no-senders request
    0, 0, 0, 0, 0, 0, 0, 0, // port-destroyed request
    0, 0, 0, 0, // no messages
];

// A record that allocates a name as a receive right, in a batch of its own: up to the name's lowest byte.
static BATCH_TO_NAME: [u8; 37] = [
    0x5a, 1, 0, 0, 0, 40, 0, 0, 0, 0, 0, 0, 0, // open gate, one record, 40 bytes
    0, 0, 0, 0, 0, 0, 0, 0, 1, 0, 0, 0, // record 0, space 1
    12, 0, 0, 0, 4, 0, 0, 0, 1, 0, 0, 0, // mach_port_allocate_name, receive
];

// The same batch after that byte, and a closed gate.
static BATCH_AFTER_NAME: [u8; 16] = [
    1, 0, 0, // the rest of the name
    8, 0, 0, 0, 4, 0, 0, 0, 0, 0, 0, 0, // the reply: done
    0, // closed gate
];

// A record that sets the queue limit of the name 0x100 to 0, in a batch of its own, and a closed gate.
static LIMIT_BATCH: [u8; 54] = [
    0x5a, 1, 0, 0, 0, 40, 0, 0, 0, 0, 0, 0, 0, // open gate, one record, 40 bytes
    0, 0, 0, 0, 0, 0, 0, 0, 1, 0, 0, 0, // record 0, space 1
    12, 0, 0, 0, 10, 0, 0, 0, 0, 1, 0, 0, // mach_port_set_qlimit of 0x100
    0, 0, 0, 0, // the limit
    8, 0, 0, 0, 10, 0, 0, 0, 0, 0, 0, 0, // the reply: done
    0, // closed gate
];

/// Returns a slot whose gate is open, of this version and epoch.
pub(crate) fn opened_slot(
    alloc: Global,
    version: u8,
    epoch: u64,
    content: &[u8],
) -> Result<Vec<u8>, AllocError> {
    let mut slot = Vec::from_slice(alloc, &[0x5a, version, 0, 0, 0, 0, 0, 0])?;
    slot.extend_from_slice(&epoch.to_le_bytes())?;
    slot.extend_from_slice(content)?;
    Ok(slot)
}

// Returns an image slot of a state with only space 1, from the part of its encoding after the next serial, the space's
// number and, in version 2, that of its last request.
fn image_slot(
    alloc: Global,
    version: u8,
    epoch: u64,
    next_serial: u8,
    names_and_ports: &[u8],
) -> Result<Vec<u8>, AllocError> {
    let request: &[u8] = if version == 1 { &[] } else { &[0; 4] };
    let length = names_and_ports
        .len()
        .saturating_add(request.len())
        .saturating_add(16) as u64;
    let mut slot = opened_slot(alloc, version, epoch, &length.to_le_bytes())?;
    slot.extend_from_slice(&[next_serial, 0, 0, 0, 0, 0, 0, 0])?;
    slot.extend_from_slice(&[1, 0, 0, 0, 1, 0, 0, 0])?;
    slot.extend_from_slice(request)?;
    slot.extend_from_slice(names_and_ports)?;
    Ok(slot)
}

/// Returns an image slot with the opening state.
pub(crate) fn image_of_none(alloc: Global, version: u8, epoch: u64) -> Result<Vec<u8>, AllocError> {
    image_slot(alloc, version, epoch, 1, &[0; 8])
}

/// Returns an image slot with a state that has one receive right, under the name 0x100 plus `name`, to a port with this
/// queue limit.
pub(crate) fn image_with_limit(
    alloc: Global,
    version: u8,
    epoch: u64,
    name: u8,
    limit: u8,
) -> Result<Vec<u8>, AllocError> {
    let mut names_and_ports = ONE_NAME;
    names_and_ports[4] = name;
    names_and_ports[42] = limit;
    image_slot(alloc, version, epoch, 2, &names_and_ports)
}

/// Returns the same with the limit of a new port.
pub(crate) fn image_of_name(
    alloc: Global,
    version: u8,
    epoch: u64,
    name: u8,
) -> Result<Vec<u8>, AllocError> {
    image_with_limit(alloc, version, epoch, name, 5)
}

/// Returns a segment slot with one record, which allocates the name 0x100 plus `name` as a receive right.
pub(crate) fn segment_of_name(
    alloc: Global,
    version: u8,
    epoch: u64,
    name: u8,
) -> Result<Vec<u8>, AllocError> {
    let mut segment = opened_slot(alloc, version, epoch, &BATCH_TO_NAME)?;
    segment.push(name)?;
    segment.extend_from_slice(&BATCH_AFTER_NAME)?;
    Ok(segment)
}

/// Returns a segment slot with one record, which sets the queue limit of the name 0x100, or without a batch.
pub(crate) fn segment_of_limit(
    alloc: Global,
    version: u8,
    epoch: u64,
    limit: Option<u8>,
) -> Result<Vec<u8>, AllocError> {
    let Some(limit) = limit else {
        return opened_slot(alloc, version, epoch, &[0]);
    };
    let mut batch = LIMIT_BATCH;
    batch[37] = limit;
    opened_slot(alloc, version, epoch, &batch)
}
