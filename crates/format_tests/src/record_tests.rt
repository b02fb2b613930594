ghost use Rattle.std.specs.Prelude.{◌<◌, ◌^◌, length};
ghost use Rattle.ipc_model.specs.encodings.Encodings.{call_encoding, reply_encoding};

use crate::expect::{is_there, same, same_bytes, same_in_row};
use codes::KernReturn;
use ipc_model::{Call, PlainCall, PlainReply, Record, Reply, Sequence};
use record::{in_range, push_record, take_frame, take_record};
use std::alloc::Global;

// Number 0: space 1, the call allocate of a receive right, and the reply with the name 0x100.
const ALLOCATION: [u8; 40] = [
    0, 0, 0, 0, 0, 0, 0, 0, 1, 0, 0, 0, 8, 0, 0, 0, 5, 0, 0, 0, 1, 0, 0, 0, 12, 0, 0, 0, 5, 0, 0,
    0, 0, 0, 0, 0, 0, 1, 0, 0,
];

// Number 1: space 1, a send of 28 bytes, and its reply.
const SEND: [u8; 84] = [
    1, 0, 0, 0, 0, 0, 0, 0, 1, 0, 0, 0, 48, 0, 0, 0, 19, 0, 0, 0, 1, 0, 0, 0, 0, 0, 0, 0, 0, 0, 0,
    0, 0, 0, 0, 0, 19, 0, 0, 0, 0, 0, 0, 0, 0, 1, 0, 0, 0, 0, 0, 0, 0, 0, 0, 0, 7, 0, 0, 0, 68, 51,
    34, 17, 16, 0, 0, 0, 19, 0, 0, 0, 0, 0, 0, 0, 0, 0, 0, 0, 0, 0, 0, 0,
];

// Number 2: space 1, a receive with limit 28, and the message that it returned.
const RECEIPT: [u8; 84] = [
    2, 0, 0, 0, 0, 0, 0, 0, 1, 0, 0, 0, 20, 0, 0, 0, 19, 0, 0, 0, 2, 0, 0, 0, 28, 0, 0, 0, 0, 1, 0,
    0, 0, 0, 0, 0, 44, 0, 0, 0, 19, 0, 0, 0, 0, 0, 0, 0, 28, 0, 0, 0, 0, 1, 0, 0, 0, 17, 0, 0, 28,
    0, 0, 0, 0, 0, 0, 0, 0, 1, 0, 0, 0, 0, 0, 0, 7, 0, 0, 0, 68, 51, 34, 17,
];

fn record_bytes(alloc: Global, number: u64, record: &Record) -> Option<Vec<u8>>
    requires call { length (call_encoding «record».now.call) < 2 ^ 32 }
    requires reply { length (reply_encoding «record».now.reply) < 2 ^ 32 }
{
    let mut out = Vec::new(alloc);
    push_record(&mut out, number, record).ok()?;
    Some(out)
}

// Returns the bytes of a record, or `None` if there are bytes after it.
fn written_alone(alloc: Global, number: u64, record: &Record, rest: &[u8]) -> Option<Vec<u8>>
    requires call { length (call_encoding «record».now.call) < 2 ^ 32 }
    requires reply { length (reply_encoding «record».now.reply) < 2 ^ 32 }
{
    if !rest.is_empty() {
        return None;
    }
    in_range(record.space, &record.call, &record.reply);
    record_bytes(alloc, number, record)
}

// Reads the record in these bytes, and writes it again.
fn read_and_written(alloc: Global, encoding: &[u8]) -> Option<Vec<u8>> {
    let (number, record, rest) = take_record(alloc, encoding).ok()??;
    let written = written_alone(alloc, number, &record, rest);
    drop(record);
    written
}

fn is_record(alloc: Global, encoding: &[u8]) -> Option<bool> {
    Some(is_there(take_record(alloc, encoding).ok()?))
}

#[test]
fn records_as_bytes(rt: HostRuntime) {
    for encoding in [&ALLOCATION[..], &SEND[..], &RECEIPT[..]] {
        same_bytes(&rt, read_and_written(rt.alloc(), encoding), encoding);
        let cut = &encoding[..encoding.len().saturating_sub(1)];
        same(&rt, is_record(rt.alloc(), cut), Some(false));
    }
}

#[tactic(auto, unfolding(ipc_model::specs::encodings::PlainCalls::call_encoding, ipc_model::specs::encodings::PlainCalls::reply_encoding))]
fn receive_bytes(alloc: Global) -> Option<Vec<u8>> {
    let message = Sequence::new(Vec::from_slice(alloc, &RECEIPT[56..]).ok()?);
    let record = Record {
        space: 1,
        call: Call::Plain(PlainCall::Receive {
            limit: 28,
            large: false,
            name: 0x100,
            waited: false,
        }),
        reply: Reply::Plain(PlainReply::Message {
            code: KernReturn::Success,
            size: 28,
            member: 0x100,
            message,
        }),
    };
    let written = record_bytes(alloc, 2, &record);
    drop(record);
    written
}

// Returns the bytes of a send with unused bits, a size and a sequence number, which its record leaves out.
#[tactic(auto, unfolding(ipc_model::specs::encodings::PlainCalls::call_encoding, ipc_model::specs::encodings::PlainCalls::reply_encoding))]
fn raw_send_bytes(alloc: Global) -> Option<Vec<u8>> {
    let sent = b"\x13\0\xff\x7f\xff\xff\xff\xff\0\x01\0\0\0\0\0\0\xff\xff\xff\xff\
        \x07\0\0\0\x44\x33\x22\x11";
    let record = Record {
        space: 1,
        call: Call::Plain(PlainCall::Send {
            message: Sequence::new(Vec::from_slice(alloc, sent).ok()?),
        }),
        reply: Reply::Plain(PlainReply::without_message(alloc, KernReturn::Success, 0, 0)),
    };
    let written = record_bytes(alloc, 1, &record);
    drop(record);
    written
}

#[test]
fn written_records(rt: HostRuntime) {
    same_bytes(&rt, receive_bytes(rt.alloc()), &RECEIPT);
    same_bytes(&rt, raw_send_bytes(rt.alloc()), &SEND);
}

// Replaces a byte.
fn put_byte(encoding: &mut [u8], at: usize, byte: u8) -> Option<()> {
    *encoding.get_mut(at)? = byte;
    Some(())
}

// Returns true if an encoding with one byte replaced is a record.
fn is_record_once_corrupted(alloc: Global, encoding: &[u8], at: usize, byte: u8) -> Option<bool> {
    let mut corrupted = Vec::from_slice(alloc, encoding).ok()?;
    let put = put_byte(&mut corrupted, at, byte);
    let found = is_record(alloc, &corrupted);
    drop(corrupted);
    put.and(found)
}

// The reply is to another call; the message isn't canonical; a send returns results; a receive has another size, a
// message above its limit, or no port from which the message could have come.
static CORRUPTED: [(&'static [u8], usize, u8); 8] = [
    (&ALLOCATION, 28, 4),
    (&SEND, 38, 1),
    (&SEND, 40, 28),
    (&SEND, 76, 28),
    (&RECEIPT, 48, 29),
    (&RECEIPT, 48, 32),
    (&RECEIPT, 24, 27),
    (&RECEIPT, 53, 0),
];

#[test]
fn corrupted_records_are_refused(rt: HostRuntime) {
    for (encoding, at, byte) in &CORRUPTED {
        let found = is_record_once_corrupted(rt.alloc(), encoding, *at, *byte);
        same_in_row(&rt, (*byte, *at), found, Some(false));
    }
}

#[test]
fn frames_as_bytes(rt: HostRuntime) {
    same(
        &rt,
        [take_frame(b"\x02\0\0\0abc"), take_frame(b"\x04\0\0\0abc")],
        [Some((b"ab".as_slice(), b"c".as_slice())), None],
    );
}
