ghost use Rattle.std.specs.Prelude.{◌≤◌, length};
ghost use Rattle.ipc_model.specs.encodings.Encodings.{reply_encoding};

use crate::expect::{is_there, same, same_in_row};
use calls::{
    CallFault, MessageRequest, Request, push_call, push_canonical_call, push_reply, read_call,
    read_recorded_reply, read_request, reply_frame,
};
use codes::{KernReturn, MAX_FRAME_CONTENT};
use ipc_model::{
    Call, NamedType, PlainCall, PlainReply, ReceiveStatus, Reply, RightKind, Sequence,
};
use script::read_request_line;
use std::alloc::Global;
use std::process::Abort;
use wire::Frame;

// These functions have no contracts, so that a test's proof carries nothing of the library. A function that owns a call
// or an encoding has one exit, which drops it. It returns what it found with its `None`s, which no test expects.

// Returns numbers of four bytes, little-endian.
fn encoding_of(alloc: Global, numbers: &[u32]) -> Option<Vec<u8>> {
    let mut encoding = Vec::new(alloc);
    for number in numbers {
        encoding.extend_from_slice(&number.to_le_bytes()).ok()?;
    }
    Some(encoding)
}

fn frame_of(alloc: Global, content: &[u8]) -> Option<Frame> {
    if content.len() < 4 || content.len() > MAX_FRAME_CONTENT as usize {
        return None;
    }
    Frame::from_content(alloc, content).ok()
}

fn call_of_line(alloc: Global, line: &str) -> Option<Call> {
    read_request_line(alloc, line.as_bytes()).ok()
}

// Returns the call of a record, if this is its encoding.
fn call_of_record(alloc: Global, encoding: &[u8]) -> Option<Option<Call>> {
    read_call(alloc, encoding).ok()
}

// Returns the request of a frame with this content.
fn request_of(alloc: Global, content: &[u8]) -> Option<Result<Request, CallFault>> {
    let frame = frame_of(alloc, content)?;
    let request = read_request(alloc, frame.content());
    drop(frame);
    Some(request)
}

fn call_bytes(alloc: Global, call: &Call) -> Option<Vec<u8>> {
    let mut encoding = Vec::new(alloc);
    push_call(&mut encoding, call).ok()?;
    Some(encoding)
}

fn is_encoded_as(alloc: Global, call: &Call, encoding: &[u8]) -> Option<bool> {
    let written = call_bytes(alloc, call)?;
    Some(written.as_slice() == encoding)
}

// Returns true if there is a call, and this is its encoding.
fn is_found_as(alloc: Global, call: Option<Call>, encoding: &[u8]) -> Option<bool> {
    let call = call?;
    let encoded = is_encoded_as(alloc, &call, encoding);
    drop(call);
    encoded
}

// Returns two flags: this is the encoding of a line's call; and reading it from a record and writing it again gives the
// same bytes.
fn record_encodings(alloc: Global, line: &str, encoding: &[u8]) -> Option<[Option<bool>; 2]> {
    let read = call_of_record(alloc, encoding)?;
    Some([
        is_found_as(alloc, call_of_line(alloc, line), encoding),
        is_found_as(alloc, read, encoding),
    ])
}

// Returns true if a request is for one call, and this is its encoding.
fn is_asked_as(alloc: Global, request: &Request, encoding: &[u8]) -> Option<bool> {
    match request {
        Request::One(call) => is_encoded_as(alloc, call, encoding),
        _ => None,
    }
}

// Returns true if the request of a frame with these bytes is a call with the same encoding.
fn frame_encoding(alloc: Global, encoding: &[u8]) -> Option<bool> {
    let request = request_of(alloc, encoding)?.ok()?;
    let encoded = is_asked_as(alloc, &request, encoding);
    drop(request);
    encoded
}

fn is_no_request(alloc: Global, content: &[u8]) -> Option<bool> {
    let request = request_of(alloc, content)?;
    Some(request.err() == Some(CallFault::NoCall))
}

fn is_no_call_of_record(alloc: Global, encoding: &[u8]) -> Option<bool> {
    Some(!is_there(call_of_record(alloc, encoding)?))
}

// Returns two flags: an encoding with one more byte is no call, neither in a frame nor in a record.
fn is_no_call_if_longer(alloc: Global, encoding: &mut Vec<u8>) -> Option<[bool; 2]> {
    encoding.push(0).ok()?;
    Some([
        is_no_request(alloc, encoding)?,
        is_no_call_of_record(alloc, encoding)?,
    ])
}

// The encodings of a call: from its line and from a record, and from a frame; and the flags that its encoding with one
// more byte is no call.
type Encodings = (Option<[Option<bool>; 2]>, Option<bool>, Option<[bool; 2]>);

fn encodings(alloc: Global, line: &str, numbers: &[u32]) -> Option<Encodings> {
    let mut encoding = encoding_of(alloc, numbers)?;
    let recorded = record_encodings(alloc, line, &encoding);
    let asked = frame_encoding(alloc, &encoding);
    let longer = is_no_call_if_longer(alloc, &mut encoding);
    drop(encoding);
    Some((recorded, asked, longer))
}

static ENCODINGS: [(&'static str, &'static [u32]); 21] = [
    ("attach 7", &[0, 7]),
    ("names", &[1]),
    ("type 0x100", &[2, 0x100]),
    ("rename 8 9", &[3, 8, 9]),
    ("allocate_name receive 9", &[4, 1, 9]),
    ("allocate receive", &[5, 1]),
    ("destroy 8", &[6, 8]),
    ("deallocate 8", &[7, 8]),
    ("get_refs 8 dead_name", &[8, 8, 4]),
    ("mod_refs 8 dead_name -1", &[9, 8, 4, 0xffff_ffff]),
    ("set_qlimit 8 16", &[10, 8, 16]),
    ("set_mscount 8 2", &[11, 8, 2]),
    ("set_seqno 8 3", &[12, 8, 3]),
    ("get_receive_status 8", &[13, 8]),
    ("get_set_status 8", &[14, 8]),
    ("move_member 8 9", &[15, 8, 9]),
    (
        "request_notification 8 port_destroyed 1 9 make_send_once",
        &[16, 8, 0x45, 1, 9, 21],
    ),
    ("insert_right 8 9 make_send", &[17, 8, 9, 20]),
    ("extract_right 8 move_send", &[18, 8, 17]),
    ("space_create 8 copy_send", &[20, 8, 19]),
    ("space_destroy", &[21]),
];

#[test]
fn calls_as_bytes(rt: HostRuntime) {
    let wanted = Some((Some([Some(true); 2]), Some(true), Some([true; 2])));
    for (line, numbers) in &ENCODINGS {
        same_in_row(&rt, *line, encodings(rt.alloc(), line, numbers), wanted);
    }
}

// A send of 28 bytes as in a record.
const SEND: [u8; 48] = [
    19, 0, 0, 0, 1, 0, 0, 0, 0, 0, 0, 0, 0, 0, 0, 0, 0, 0, 0, 0, 19, 0, 0, 0, 0, 0, 0, 0, 0, 1, 0,
    0, 0, 0, 0, 0, 0, 0, 0, 0, 7, 0, 0, 0, 68, 51, 34, 17,
];

fn send_of(alloc: Global, message: &[u8]) -> Option<Call> {
    let message = Sequence::new(Vec::from_slice(alloc, message).ok()?);
    Some(Call::Plain(PlainCall::Send { message }))
}

#[test]
fn a_send_as_records_have_it(rt: HostRuntime) {
    let alloc = rt.alloc();
    let encoded = is_found_as(alloc, send_of(alloc, &SEND[20..]), &SEND);
    let read = call_of_record(alloc, &SEND);
    // The message as it was sent, with its size.
    let mut sized = SEND;
    sized[24] = 28;
    let refused = is_no_call_of_record(alloc, &sized);
    // A message of 25 bytes, a size that no message has.
    let odd = is_no_call_of_record(alloc, &SEND[..45]);
    let found = is_found_as(alloc, read.flatten(), &SEND);
    same(&rt, [encoded, found, refused, odd], [Some(true); 4]);
}

// The same for an encoding that consists of these numbers.
fn record_encodings_in_words(
    alloc: Global,
    line: &str,
    numbers: &[u32],
) -> Option<[Option<bool>; 2]> {
    let encoding = encoding_of(alloc, numbers)?;
    let encoded = record_encodings(alloc, line, &encoding);
    drop(encoding);
    encoded
}

static RECEIPTS: [(&'static str, &'static [u32]); 2] = [
    ("receive 0x100 limit 28", &[19, 2, 28, 0x100, 0]),
    (
        "receive 0x100 limit 28 large waited",
        &[19, 0x802, 28, 0x100, 1],
    ),
];

#[test]
fn receives_as_records_have_them(rt: HostRuntime) {
    for (line, numbers) in &RECEIPTS {
        let encoded = record_encodings_in_words(rt.alloc(), line, numbers);
        same_in_row(&rt, *line, encoded, Some([Some(true); 2]));
    }
    // With and without `waited`.
    let encoding = b"\x13\0\0\0\x02\0\0\0\x1c\0\0\0\0\x01\0\0\x02\0\0\0";
    same(&rt, is_no_call_of_record(rt.alloc(), encoding), Some(true));
}

// Returns the request of a frame with these numbers and this message.
fn asked(alloc: Global, numbers: &[u32], message: &[u8]) -> Option<Request> {
    let mut content = encoding_of(alloc, numbers)?;
    content.extend_from_slice(message).ok()?;
    let request = request_of(alloc, &content);
    drop(content);
    request?.ok()
}

fn canonical_call_bytes(alloc: Global, call: &Call) -> Option<Vec<u8>> {
    let mut encoding = Vec::new(alloc);
    push_canonical_call(&mut encoding, call).ok()?;
    Some(encoding)
}

// Returns true if the message that a request sends has these bytes in canonical form.
fn is_kept_as(alloc: Global, request: &MessageRequest, kept: &[u8]) -> Option<bool> {
    let encoding = canonical_call_bytes(alloc, request.send.as_ref()?)?;
    Some(encoding.as_slice() == kept)
}

// Returns the timeouts of a request's send and receive.
fn timeouts(request: &MessageRequest) -> [Option<u32>; 2] {
    [request.send_timeout, request.receive_timeout]
}

// The canonical form of a request's send is these bytes; the request receives nothing; its timeouts.
type SendSeen = (Option<bool>, bool, [Option<u32>; 2]);

fn send_seen(alloc: Global, request: &Request, kept: &[u8]) -> Option<SendSeen> {
    match request {
        Request::Message(request) => Some((
            is_kept_as(alloc, request, kept),
            request.receive.is_none(),
            timeouts(request),
        )),
        _ => None,
    }
}

// Returns these facts about a `mach_msg` that sends this message.
fn send_asked(alloc: Global, message: &[u8], kept: &[u8]) -> Option<SendSeen> {
    let request = asked(alloc, &[19, 0x11, 5, 6, 7], message)?;
    let seen = send_seen(alloc, &request, kept);
    drop(request);
    seen
}

#[test]
fn a_send_is_kept_without_what_it_ignores(rt: HostRuntime) {
    // Unused bits, a size and a sequence number.
    let message =
        b"\xff\xff\xff\xff\xff\xff\xff\xff\xff\xff\xff\xff\xff\xff\xff\xff\xff\xff\xff\xff\
        \x07\0\0\0\x44\x33\x22\x11";
    let kept = b"\x13\0\0\0\x01\0\0\0\0\0\0\0\0\0\0\0\0\0\0\0\
        \xff\xff\0\x80\0\0\0\0\xff\xff\xff\xff\xff\xff\xff\xff\0\0\0\0\
        \x07\0\0\0\x44\x33\x22\x11";
    for length in [28, 6] {
        let seen = send_asked(rt.alloc(), &message[..length], &kept[..length + 20]);
        same(&rt, seen, Some((Some(true), true, [Some(7), None])));
    }
}

// A receive as in a record.
const RECEIPT: &[u8; 20] = b"\x13\0\0\0\x02\x08\0\0\x1c\0\0\0\0\x01\0\0\0\0\0\0";

// Returns true if there is a call, which its owner keeps, and this is its encoding.
fn is_part_as(alloc: Global, call: &Option<Call>, encoding: &[u8]) -> Option<bool> {
    is_encoded_as(alloc, call.as_ref()?, encoding)
}

// A request has this send and this receive; its timeouts.
type PartsSeen = ([Option<bool>; 2], [Option<u32>; 2]);

fn parts_seen(alloc: Global, request: &Request) -> Option<PartsSeen> {
    match request {
        Request::Message(request) => Some((
            [
                is_part_as(alloc, &request.send, &SEND),
                is_part_as(alloc, &request.receive, RECEIPT),
            ],
            timeouts(request),
        )),
        _ => None,
    }
}

fn parts_asked(alloc: Global) -> Option<PartsSeen> {
    let request = asked(alloc, &[19, 0x903, 28, 0x100, 7], &SEND[20..])?;
    let seen = parts_seen(alloc, &request);
    drop(request);
    seen
}

#[test]
fn a_mach_msg_sends_and_receives(rt: HostRuntime) {
    let wanted = ([Some(true); 2], [None, Some(7)]);
    same(&rt, parts_asked(rt.alloc()), Some(wanted));
}

// Returns true if a frame with this content confines its connection.
fn confines(alloc: Global, content: &[u8]) -> Option<bool> {
    let request = request_of(alloc, content)?.ok()?;
    let is_confine = match &request {
        Request::Confine => true,
        _ => false,
    };
    drop(request);
    Some(is_confine)
}

#[test]
fn number_23_confines_and_has_no_arguments(rt: HostRuntime) {
    let seen = [
        confines(rt.alloc(), &[23, 0, 0, 0]),
        confines(rt.alloc(), &[21, 0, 0, 0]),
        confines(rt.alloc(), &[23, 0, 0, 0, 1]),
        confines(rt.alloc(), &[23, 0, 0, 0, 1, 0, 0, 0]),
    ];
    same(&rt, seen, [Some(true), Some(false), None, None]);
}

// Returns the code with which a request is answered at once.
fn answer_of(request: &Request) -> Option<KernReturn> {
    match request {
        Request::Answered(code) => Some(*code),
        _ => None,
    }
}

// Returns the code with which a `mach_msg` with this option is answered at once.
fn answer_at_once(alloc: Global, option: u32) -> Option<KernReturn> {
    let request = asked(alloc, &[19, option, 28, 0x100, 0], b"ab")?;
    let answer = answer_of(&request);
    drop(request);
    answer
}

static ANSWERS: [(u32, KernReturn); 4] = [
    (0, KernReturn::Success),
    (0x910, KernReturn::Success),
    (4, KernReturn::InvalidArgument),
    (0x8000_0003, KernReturn::InvalidArgument),
];

#[test]
fn a_mach_msg_that_asks_for_nothing(rt: HostRuntime) {
    for (option, code) in &ANSWERS {
        let answer = answer_at_once(rt.alloc(), *option);
        same_in_row(&rt, *option, answer, Some(*code));
    }
    let short = b"\x13\0\0\0\x02\0\0\0\x1c\0\0\0\0\x01\0\0";
    same(&rt, is_no_request(rt.alloc(), short), Some(true));
}

// Returns true if this is the encoding of a reply in a `Vec`.
fn is_pushed_as(alloc: Global, reply: &Reply, encoding: &[u8]) -> Option<bool>
    requires { length (reply_encoding reply.now) ≤ MAX_FRAME_CONTENT }
{
    let mut out = Vec::new(alloc);
    push_reply(&mut out, reply).ok()?;
    Some(out.as_slice() == encoding)
}

// Returns true if this is the encoding of a reply in a frame.
fn is_framed_as(alloc: Global, reply: &Reply, encoding: &[u8]) -> Option<bool>
    requires { length (reply_encoding reply.now) ≤ MAX_FRAME_CONTENT }
{
    let mut frame = Frame::with_room(alloc, MAX_FRAME_CONTENT as usize).ok()?;
    reply_frame(reply, &mut frame);
    Some(frame.content() == encoding)
}

// Flags: this is the encoding of a reply, in a `Vec` and in a frame.
type Encoded = Option<[Option<bool>; 2]>;

const ENCODED: Encoded = Some([Some(true); 2]);

fn is_encoded(alloc: Global, reply: &Reply, encoding: &[u8]) -> Encoded
    requires { length (reply_encoding reply.now) ≤ MAX_FRAME_CONTENT }
{
    Some([
        is_pushed_as(alloc, reply, encoding),
        is_framed_as(alloc, reply, encoding),
    ])
}

fn is_encoded_in_words(alloc: Global, reply: &Reply, numbers: &[u32]) -> Encoded
    requires { length (reply_encoding reply.now) ≤ MAX_FRAME_CONTENT }
{
    let encoding = encoding_of(alloc, numbers)?;
    let encoded = is_encoded(alloc, reply, &encoding);
    drop(encoding);
    encoded
}

// Each reply has its own function, in which it is proved that the reply fits in a frame.

#[tactic(auto, unfolding(ipc_model::specs::encodings::PlainCalls::reply_encoding))]
fn encodes_refusal(alloc: Global) -> Encoded {
    let full = Reply::Plain(PlainReply::Refused {
        number: 5,
        code: KernReturn::NoSpace,
    });
    is_encoded_in_words(alloc, &full, &[5, 3])
}

#[tactic(auto, unfolding(ipc_model::specs::encodings::PlainCalls::reply_encoding))]
fn encodes_done(alloc: Global) -> Encoded {
    is_encoded_in_words(
        alloc,
        &Reply::Plain(PlainReply::Done { number: 7 }),
        &[7, 0],
    )
}

#[tactic(auto, unfolding(ipc_model::specs::encodings::PlainCalls::reply_encoding))]
fn encodes_type(alloc: Global) -> Encoded {
    is_encoded_in_words(
        alloc,
        &Reply::Plain(PlainReply::Type { bits: 0x20000 }),
        &[2, 0, 0x20000],
    )
}

#[tactic(auto, unfolding(ipc_model::specs::encodings::PlainCalls::reply_encoding))]
fn encodes_new_name(alloc: Global) -> Encoded {
    is_encoded_in_words(
        alloc,
        &Reply::Plain(PlainReply::Allocate { name: 0x100 }),
        &[5, 0, 0x100],
    )
}

#[tactic(auto, unfolding(ipc_model::specs::encodings::PlainCalls::reply_encoding))]
fn encodes_references(alloc: Global) -> Encoded {
    is_encoded_in_words(
        alloc,
        &Reply::Plain(PlainReply::References { count: 3 }),
        &[8, 0, 3],
    )
}

#[tactic(auto, unfolding(ipc_model::specs::encodings::PlainCalls::reply_encoding))]
fn encodes_previous_target(alloc: Global) -> Encoded {
    is_encoded_in_words(
        alloc,
        &Reply::Plain(PlainReply::PreviousTarget { name: 9 }),
        &[16, 0, 9],
    )
}

#[test]
fn replies_as_bytes(rt: HostRuntime) {
    let alloc = rt.alloc();
    let seen = [
        encodes_refusal(alloc),
        encodes_done(alloc),
        encodes_type(alloc),
        encodes_new_name(alloc),
        encodes_references(alloc),
        encodes_previous_target(alloc),
    ];
    same(&rt, seen, [ENCODED; 6]);
}

#[tactic(auto, unfolding(ipc_model::specs::encodings::PlainCalls::reply_encoding))]
fn encodes_extracted(alloc: Global) -> Encoded {
    let extracted = Reply::Plain(PlainReply::Extracted {
        name: 9,
        kind: RightKind::SendOnce,
    });
    is_encoded_in_words(alloc, &extracted, &[18, 0, 9, 18])
}

#[tactic(auto, unfolding(ipc_model::specs::encodings::PlainCalls::reply_encoding))]
fn encodes_created_space(alloc: Global) -> Encoded {
    let created = Reply::Plain(PlainReply::SpaceCreated { space: 2, name: 1 });
    is_encoded_in_words(alloc, &created, &[20, 0, 2, 1])
}

#[tactic(auto, unfolding(ipc_model::specs::encodings::PlainCalls::reply_encoding))]
fn encodes_status(alloc: Global) -> Encoded {
    let status = ReceiveStatus {
        set: 9,
        sequence_number: 1,
        make_send_count: 2,
        limit: 5,
        messages: 3,
        send_once_count: 4,
        has_senders: true,
        has_port_destroyed_request: false,
        has_no_senders_request: true,
    };
    let reported = Reply::Plain(PlainReply::ReceiveStatus { status });
    is_encoded_in_words(alloc, &reported, &[13, 0, 9, 1, 2, 5, 3, 4, 1, 0, 1])
}

#[test]
fn replies_with_more_results_as_bytes(rt: HostRuntime) {
    let alloc = rt.alloc();
    let seen = [
        encodes_extracted(alloc),
        encodes_created_space(alloc),
        encodes_status(alloc),
    ];
    same(&rt, seen, [ENCODED; 3]);
}

#[tactic(auto, unfolding(ipc_model::specs::encodings::PlainCalls::reply_encoding))]
fn encodes_names(alloc: Global) -> Encoded {
    let first = NamedType {
        name: 8,
        bits: 0x20000,
    };
    let second = NamedType {
        name: 9,
        bits: 0x10000,
    };
    let names = Sequence::new(Vec::from_slice(alloc, &[first, second]).ok()?);
    let encoding = &[1, 0, 2, 8, 0x20000, 9, 0x10000];
    let reported = Reply::Plain(PlainReply::Names { names });
    let encoded = is_encoded_in_words(alloc, &reported, encoding);
    drop(reported);
    encoded
}

#[tactic(auto, unfolding(ipc_model::specs::encodings::PlainCalls::reply_encoding))]
fn encodes_members(alloc: Global) -> Encoded {
    let members = Sequence::new(Vec::from_slice(alloc, &[8_u32, 9]).ok()?);
    let reported = Reply::Plain(PlainReply::SetStatus { members });
    let encoded = is_encoded_in_words(alloc, &reported, &[14, 0, 2, 8, 9]);
    drop(reported);
    encoded
}

#[tactic(auto, unfolding(ipc_model::specs::encodings::PlainCalls::reply_encoding))]
fn encodes_message(alloc: Global) -> Encoded {
    let message = Sequence::new(Vec::from_slice(alloc, b"abc").ok()?);
    let received = Reply::Plain(PlainReply::Message {
        code: KernReturn::Success,
        size: 3,
        member: 0x100,
        message,
    });
    let encoding = b"\x13\0\0\0\0\0\0\0\x03\0\0\0\0\x01\0\0abc";
    let encoded = is_encoded(alloc, &received, encoding);
    drop(received);
    encoded
}

#[test]
fn rows_as_bytes(rt: HostRuntime) {
    let alloc = rt.alloc();
    let seen = [
        encodes_names(alloc),
        encodes_members(alloc),
        encodes_message(alloc),
    ];
    same(&rt, seen, [ENCODED; 3]);
}

// Decodes the reply to a call of a record.
fn reply_of_record(alloc: Global, call: &Call, encoding: &[u8]) -> Option<Option<Reply>> {
    read_recorded_reply(alloc, call, encoding).ok()
}

// Returns the name that was allocated.
fn allocated_name(reply: &Option<Reply>) -> Option<u32> {
    match reply {
        Some(Reply::Plain(PlainReply::Allocate { name })) => Some(*name),
        _ => None,
    }
}

// Returns the name in an allocation's reply.
fn name_of_record(alloc: Global, encoding: &[u8]) -> Option<u32> {
    let reply = reply_of_record(
        alloc,
        &Call::Plain(PlainCall::Allocate { right: 1 }),
        encoding,
    )?;
    let name = allocated_name(&reply);
    drop(reply);
    name
}

#[test]
fn an_allocation_of_a_record(rt: HostRuntime) {
    let encoding = b"\x05\0\0\0\0\0\0\0\0\x01\0\0";
    same(&rt, name_of_record(rt.alloc(), encoding), Some(0x100));
}

// Returns true if a record of the line's call may have the reply with this encoding.
fn is_recorded(alloc: Global, line: &str, encoding: &[u8]) -> Option<bool> {
    let call = call_of_line(alloc, line)?;
    let reply = reply_of_record(alloc, &call, encoding);
    drop(call);
    Some(is_there(reply?))
}

// Returns the same for an encoding that consists of these numbers.
fn is_recorded_in_words(alloc: Global, line: &str, numbers: &[u32]) -> Option<bool> {
    let encoding = encoding_of(alloc, numbers)?;
    let recorded = is_recorded(alloc, line, &encoding);
    drop(encoding);
    recorded
}

static REPLIES: [(&'static str, &'static [u32], bool); 9] = [
    ("allocate receive", &[5, 0], false),
    ("allocate receive", &[5, 3], false),
    ("allocate receive", &[5, 0, 1, 2], false),
    ("allocate receive", &[7, 0], false),
    ("type 8", &[2, 0, 8], false),
    ("space_destroy", &[21, 0], true),
    ("extract_right 8 move_send", &[18, 0, 9, 17], true),
    ("extract_right 8 move_send", &[18, 0, 9, 19], false),
    ("space_create 8 copy_send", &[20, 0, 2, 1], true),
];

#[test]
fn replies_of_records(rt: HostRuntime) {
    for (line, numbers, recorded) in &REPLIES {
        let seen = is_recorded_in_words(rt.alloc(), line, numbers);
        same_in_row(&rt, (*line, *numbers), seen, Some(*recorded));
    }
}

// Returns the encoding of a reply to `mach_msg`: code, size and member, and a message of `length` bytes.
fn message_reply(alloc: Global, results: &[u32; 3], length: usize) -> Option<Vec<u8>> {
    let [code, size, member] = *results;
    let mut encoding = encoding_of(alloc, &[19, code, size, member])?;
    encoding.resize(length.saturating_add(16), 7).ok()?;
    Some(encoding)
}

// Returns true if a record of the line's call may have the reply with these results and a message of `length` bytes.
fn brings(alloc: Global, line: &str, results: &[u32; 3], length: usize) -> Option<bool> {
    let encoding = message_reply(alloc, results, length)?;
    let recorded = is_recorded(alloc, line, &encoding);
    drop(encoding);
    recorded
}

// A receive's line; the code, size and member of a reply; the length of its message; and true if a record may have it
// in this form.
type MessageRow = (&'static str, [u32; 3], usize, bool);

fn compare(rt: &impl Abort, alloc: Global, rows: &[MessageRow]) {
    for (line, results, length, recorded) in rows {
        let seen = brings(alloc, line, results, *length);
        same_in_row(rt, (*line, *results), seen, Some(*recorded));
    }
}

static RECEIVED: [MessageRow; 12] = [
    ("receive 0x100 limit 28", [0, 28, 0x100], 28, true),
    ("receive 0x100 limit 28 large", [0, 28, 0x100], 28, true),
    ("receive 0x100 limit 28", [0, 28, 0x100], 24, false),
    ("receive 0x100 limit 28", [0, 24, 0x100], 24, true),
    ("receive 0x100 limit 28", [0, 20, 0x100], 20, false),
    ("receive 0x100 limit 40", [0, 30, 0x100], 30, false),
    ("receive 0x100 limit 24", [0, 28, 0x100], 28, false),
    ("receive 0x100 limit 9000", [0, 8192, 0x100], 8192, true),
    ("receive 0x100 limit 9000", [0, 8196, 0x100], 8196, false),
    ("receive 0x100 limit 28", [0, 28, 0], 28, false),
    ("receive 0x100 limit 28", [0, 28, 0xffff_fffe], 28, true),
    ("receive 0x100 limit 28", [0, 28, 0xffff_ffff], 28, false),
];

#[test]
fn received_messages_of_records(rt: HostRuntime) {
    compare(&rt, rt.alloc(), &RECEIVED);
}

// A receive that destroys a message that is too large changes the state. It doesn't return the message.
static DESTROYED: [MessageRow; 12] = [
    ("receive 0x100 limit 28", [0x1000_4004, 32, 0x100], 0, true),
    (
        "receive 0x100 limit 28",
        [0x1000_4004, 32, 0x100],
        32,
        false,
    ),
    ("receive 0x100 limit 28", [0x1000_4004, 28, 0x100], 0, false),
    (
        "receive 0x100 limit 28 large",
        [0x1000_4004, 32, 0x100],
        0,
        false,
    ),
    (
        "receive 0x100 limit 28 large",
        [0x1000_4004, 28, 0x100],
        0,
        false,
    ),
    ("receive 0x100 limit 28", [0x1000_4003, 32, 0x100], 0, false),
    ("receive 0x100 limit 28", [0x1000_4003, 28, 0x100], 0, false),
    ("receive 0x100 limit 28", [0x1000_4004, 30, 0x100], 0, false),
    (
        "receive 0x100 limit 28",
        [0x1000_4004, 8192, 0x100],
        0,
        true,
    ),
    (
        "receive 0x100 limit 28",
        [0x1000_4004, 8196, 0x100],
        0,
        false,
    ),
    ("receive 0x100 limit 28", [0x1000_4004, 32, 0], 0, false),
    (
        "receive 0x100 limit 28",
        [0x1000_4004, 32, 0xffff_ffff],
        0,
        false,
    ),
];

#[test]
fn destroyed_messages_of_records(rt: HostRuntime) {
    compare(&rt, rt.alloc(), &DESTROYED);
}
