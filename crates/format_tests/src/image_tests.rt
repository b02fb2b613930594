use crate::expect::{same, same_in_row};
use codes::StoreVersion;
use image::{ImageFault, read, write_into};
use std::alloc::Global;

/// The opening state: next serial 1, space 1 without a request and without names, no port.
static OPENING: [u8; 28] = [
    1, 0, 0, 0, 0, 0, 0, 0, 1, 0, 0, 0, 1, 0, 0, 0, 0, 0, 0, 0, 0, 0, 0, 0, 0, 0, 0, 0,
];

/// The same in version 1, which has no word for a request.
static OPENING_OF_ONE: [u8; 24] = [
    1, 0, 0, 0, 0, 0, 0, 0, 1, 0, 0, 0, 1, 0, 0, 0, 0, 0, 0, 0, 0, 0, 0, 0,
];

/// One port, whose receive right space 1 holds under 0x100.
pub(crate) static ONE_PORT: [u8; 98] = [
    2, 0, 0, 0, 0, 0, 0, 0, 1, 0, 0, 0, 1, 0, 0, 0, 0, 0, 0, 0, 1, 0, 0, 0, 0, 1, 0, 0, 1, 1, 0, 0,
    0, 0, 0, 0, 0, 1, 0, 0, 0, 0, 0, 0, 0, 0, 0, 0, 0, 0, 1, 0, 0, 0, 1, 0, 0, 0, 0, 0, 0, 0, 5, 0,
    0, 0, 0, 0, 0, 0, 0, 0, 0, 0, 0, 0, 0, 0, 0, 0, 0, 0, 0, 0, 0, 0, 0, 0, 0, 0, 0, 0, 0, 0, 0, 0,
    0, 0,
];

/// The same in version 1.
static ONE_PORT_OF_ONE: [u8; 94] = [
    2, 0, 0, 0, 0, 0, 0, 0, 1, 0, 0, 0, 1, 0, 0, 0, 1, 0, 0, 0, 0, 1, 0, 0, 1, 1, 0, 0, 0, 0, 0, 0,
    0, 1, 0, 0, 0, 0, 0, 0, 0, 0, 0, 0, 0, 0, 1, 0, 0, 0, 1, 0, 0, 0, 0, 0, 0, 0, 5, 0, 0, 0, 0, 0,
    0, 0, 0, 0, 0, 0, 0, 0, 0, 0, 0, 0, 0, 0, 0, 0, 0, 0, 0, 0, 0, 0, 0, 0, 0, 0, 0, 0, 0, 0,
];

/// Every kind of entry, in two spaces; a port in a set, with a request and a message that carries the receive right of
/// another port and a send-once right to it as the reply right; and that other port, with a request.
static EVERY_KIND: [u8; 231] = [
    3, 0, 0, 0, 0, 0, 0, 0, 2, 0, 0, 0, 1, 0, 0, 0, 0, 0, 0, 0, 4, 0, 0, 0, 0, 1, 0, 0, 1, 1, 0, 0,
    0, 0, 0, 0, 0, 1, 2, 0, 0, 0, 2, 0, 0, 0, 0, 0, 0, 0, 1, 1, 0, 0, 2, 1, 0, 0, 0, 0, 0, 0, 0, 0,
    0, 0, 0, 0, 0, 0, 0, 2, 1, 0, 0, 3, 3, 1, 0, 0, 4, 3, 0, 0, 0, 7, 0, 0, 0, 0, 0, 0, 0, 0, 0, 0,
    0, 2, 0, 0, 0, 1, 0, 0, 0, 0, 0, 0, 0, 5, 0, 0, 0, 6, 0, 0, 0, 7, 0, 0, 0, 2, 1, 0, 0, 2, 0, 0,
    0, 0, 0, 0, 0, 0, 0, 0, 0, 0, 0, 0, 0, 1, 0, 0, 0, 17, 18, 2, 2, 0, 0, 0, 0, 0, 0, 0, 7, 0, 0,
    0, 32, 0, 0, 0, 1, 1, 0, 0, 0, 16, 2, 2, 0, 0, 0, 0, 0, 0, 0, 16, 32, 1, 16, 0, 0, 0, 0, 2, 0,
    0, 0, 0, 0, 0, 0, 0, 0, 0, 0, 0, 0, 0, 0, 0, 0, 0, 0, 0, 0, 0, 0, 0, 0, 0, 0, 0, 0, 0, 0, 1, 0,
    0, 0, 0, 0, 0, 0, 0, 0, 0, 0,
];

/// The same in version 1.
static EVERY_KIND_OF_ONE: [u8; 223] = [
    3, 0, 0, 0, 0, 0, 0, 0, 2, 0, 0, 0, 1, 0, 0, 0, 4, 0, 0, 0, 0, 1, 0, 0, 1, 1, 0, 0, 0, 0, 0, 0,
    0, 1, 2, 0, 0, 0, 2, 0, 0, 0, 0, 0, 0, 0, 1, 1, 0, 0, 2, 1, 0, 0, 0, 0, 0, 0, 0, 0, 0, 0, 0, 0,
    0, 0, 0, 2, 1, 0, 0, 3, 3, 1, 0, 0, 4, 3, 0, 0, 0, 7, 0, 0, 0, 0, 0, 0, 0, 2, 0, 0, 0, 1, 0, 0,
    0, 0, 0, 0, 0, 5, 0, 0, 0, 6, 0, 0, 0, 7, 0, 0, 0, 2, 1, 0, 0, 2, 0, 0, 0, 0, 0, 0, 0, 0, 0, 0,
    0, 0, 0, 0, 0, 1, 0, 0, 0, 17, 18, 2, 2, 0, 0, 0, 0, 0, 0, 0, 7, 0, 0, 0, 32, 0, 0, 0, 1, 1, 0,
    0, 0, 16, 2, 2, 0, 0, 0, 0, 0, 0, 0, 16, 32, 1, 16, 0, 0, 0, 0, 2, 0, 0, 0, 0, 0, 0, 0, 0, 0,
    0, 0, 0, 0, 0, 0, 0, 0, 0, 0, 0, 0, 0, 0, 0, 0, 0, 0, 0, 0, 0, 0, 1, 0, 0, 0, 0, 0, 0, 0, 0, 0,
    0, 0,
];

/// A byte of `EVERY_KIND` that is replaced: its offset and the new byte. The result is no image, because, in order:
/// spaces don't ascend; the number of a request is invalid, three times; names don't ascend; a kind of entry is
/// invalid; a flag is invalid; a message was sent by a receive right; there is a port without a reply right; a kind of
/// right is invalid; a kind of port is invalid; a dead port has a serial; a size is below a header's; a body extends
/// beyond the message; a flag is invalid; ports don't ascend; a message is missing.
static OTHERWISE: [(usize, u8); 17] = [
    (12, 8),
    (16, 1),
    (19, 1),
    (89, 1),
    (24, 1),
    (28, 5),
    (37, 2),
    (145, 16),
    (146, 0),
    (146, 19),
    (147, 3),
    (147, 1),
    (160, 23),
    (160, 36),
    (164, 2),
    (101, 3),
    (227, 1),
];

/// Decodes an encoding of a version, and encodes it in the current version.
fn again(alloc: Global, version: StoreVersion, encoding: &[u8]) -> Result<Vec<u8>, ImageFault> {
    let snapshot = read(alloc, version, encoding)?;
    let mut out = Vec::new(alloc);
    write_into(&snapshot, &mut out)?;
    Ok(out)
}

/// Returns true if an encoding of a version is decoded, and encoded again as these bytes.
fn is_written(alloc: Global, version: StoreVersion, encoding: &[u8], bytes: &[u8]) -> bool {
    match again(alloc, version, encoding) {
        Ok(out) => out.as_slice() == bytes,
        Err(_) => false,
    }
}

/// Returns true if the bytes are no image of this version.
fn is_none_of(alloc: Global, version: StoreVersion, encoding: &[u8]) -> bool {
    match again(alloc, version, encoding) {
        Ok(_) => false,
        Err(fault) => fault == ImageFault::NotCanonical,
    }
}

fn is_none(alloc: Global, encoding: &[u8]) -> bool {
    is_none_of(alloc, StoreVersion::Two, encoding)
}

/// Returns true if `EVERY_KIND` is no image after one byte is replaced.
fn is_none_changed(alloc: Global, place: usize, byte: u8) -> Option<bool> {
    let mut encoding = Vec::from_slice(alloc, &EVERY_KIND).ok()?;
    if let Some(at) = encoding.as_mut_slice().get_mut(place) {
        *at = byte;
    }
    Some(is_none(alloc, &encoding))
}

/// The offset at which the body of its message is cut off, the size that the message then has, and true if it is still
/// an image: a size must be a multiple of 4.
static BODIES: [(usize, u8, bool); 5] = [
    (179, 24, true),
    (181, 26, false),
    (183, 28, true),
    (186, 31, false),
    (187, 32, true),
];

/// Returns `EVERY_KIND` with its message's body cut off, and this size.
fn with_body(alloc: Global, end: usize, size: u8) -> Option<Vec<u8>> {
    if end > 187 {
        return None;
    }
    let mut encoding = Vec::from_slice(alloc, &EVERY_KIND[..end]).ok()?;
    encoding.extend_from_slice(&EVERY_KIND[187..]).ok()?;
    if let Some(at) = encoding.as_mut_slice().get_mut(160) {
        *at = size;
    }
    Some(encoding)
}

/// Returns two flags: it is an image then, and it is none.
fn seen_with_body(alloc: Global, end: usize, size: u8) -> Option<(bool, bool)> {
    let encoding = with_body(alloc, end, size)?;
    let is_kept = is_written(alloc, StoreVersion::Two, &encoding, &encoding);
    Some((is_kept, is_none(alloc, &encoding)))
}

/// Returns true if it is no image with one more byte.
fn is_none_longer(alloc: Global) -> Option<bool> {
    let mut encoding = Vec::from_slice(alloc, &EVERY_KIND).ok()?;
    encoding.push(0).ok()?;
    Some(is_none(alloc, &encoding))
}

/// Returns the number of an encoding's prefixes that aren't images.
fn refused_beginnings(alloc: Global, version: StoreVersion, encoding: &[u8]) -> usize {
    let mut count = 0usize;
    for length in 0..encoding.len() {
        if is_none_of(alloc, version, &encoding[..length]) {
            count = count.saturating_add(1);
        }
    }
    count
}

/// Checks the encodings of a state in both versions. Returns flags: both are decoded and then encoded in version 2, and
/// neither is an image of the other version; and the numbers of their prefixes that aren't images.
fn seen(alloc: Global, one: &[u8], two: &[u8]) -> ([bool; 4], [usize; 2]) {
    (
        [
            is_written(alloc, StoreVersion::One, one, two),
            is_written(alloc, StoreVersion::Two, two, two),
            is_none_of(alloc, StoreVersion::Two, one),
            is_none_of(alloc, StoreVersion::One, two),
        ],
        [
            refused_beginnings(alloc, StoreVersion::One, one),
            refused_beginnings(alloc, StoreVersion::Two, two),
        ],
    )
}

#[test]
fn images_are_read_and_written(rt: HostRuntime) {
    let encodings = [
        (&OPENING_OF_ONE[..], &OPENING[..]),
        (&ONE_PORT_OF_ONE[..], &ONE_PORT[..]),
        (&EVERY_KIND_OF_ONE[..], &EVERY_KIND[..]),
    ];
    for (index, (one, two)) in encodings.iter().enumerate() {
        let lengths = [one.len(), two.len()];
        same_in_row(&rt, index, seen(rt.alloc(), one, two), ([true; 4], lengths));
    }
}

#[test]
fn other_encodings_are_refused(rt: HostRuntime) {
    for (place, byte) in &OTHERWISE {
        let is_none = is_none_changed(rt.alloc(), *place, *byte);
        same_in_row(&rt, *place, is_none, Some(true));
    }
    same(&rt, is_none_longer(rt.alloc()), Some(true));
}

#[test]
fn sizes_of_messages_are_multiples_of_4(rt: HostRuntime) {
    for (end, size, is_image) in &BODIES {
        let seen = seen_with_body(rt.alloc(), *end, *size);
        same_in_row(&rt, *end, seen, Some((*is_image, !*is_image)));
    }
}
