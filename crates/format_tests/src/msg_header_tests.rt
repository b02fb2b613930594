use crate::expect::{same, same_bytes};
use codes::KernReturn;
use msg_header::{Header, parse};
use std::alloc::Global;

/// A complex message that is only a header: the destination 0x102 by `MACH_MSG_TYPE_COPY_SEND`, the reply right 0x103
/// by `MACH_MSG_TYPE_MAKE_SEND_ONCE`, sequence number 7 and id 0x864.
const MESSAGE: &[u8; 24] =
    b"\x13\x15\x00\x80\x18\x00\x00\x00\x02\x01\x00\x00\x03\x01\x00\x00\x07\x00\x00\x00\x64\x08\x00\x00";

/// The header that it contains.
const HEADER: Header = Header {
    size: 24,
    remote_disposition: 19,
    local_disposition: 21,
    complex: true,
    remote: 0x102,
    local: 0x103,
    id: 0x864,
};

#[test]
fn headers_are_read(rt: HostRuntime) {
    same(&rt, parse(MESSAGE), Ok(HEADER));
    same(&rt, parse(&MESSAGE[..23]), Err(KernReturn::SendMsgTooSmall));
}

/// Returns the encoding of the header with sequence number 7.
fn written(alloc: Global) -> Option<Vec<u8>> {
    let mut out = Vec::new(alloc);
    HEADER.write_into(7, &mut out).ok()?;
    Some(out)
}

#[test]
fn headers_are_written(rt: HostRuntime) {
    same_bytes(&rt, written(rt.alloc()), MESSAGE);
}
