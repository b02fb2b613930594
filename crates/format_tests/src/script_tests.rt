use crate::expect::{is_there, same, same_bytes, same_in_row};
use codes::KernReturn;
use ipc_model::{Call, PlainCall, PlainReply, ReceiveStatus, Reply, Sequence};
use script::{
    Exchange, Expected, Line, LineFault, push_call, push_exchange, push_reply, read_line,
    read_request_line, read_script,
};
use std::alloc::{AllocError, Global};

// Returns true if an exchange is printed as this line.
fn is_printed_as(alloc: Global, exchange: &Exchange, line: &[u8]) -> Option<bool> {
    let mut printed = Vec::new(alloc);
    push_exchange(&mut printed, exchange).ok()?;
    Some(printed.as_slice() == line)
}

fn exchange_of(alloc: Global, line: &[u8]) -> Result<Option<Exchange>, LineFault> {
    read_line(alloc, line)
}

// Returns true if a line is read as an exchange that is printed as the same line.
fn is_read_as_printed(alloc: Global, line: &[u8]) -> Option<bool> {
    let read = exchange_of(alloc, line).ok()??;
    let printed = is_printed_as(alloc, &read, line);
    drop(read);
    printed
}

// Returns two flags: there is an exchange that is printed as this line; the line is read and printed again.
fn both_ways(alloc: Global, exchange: Option<Exchange>, line: &[u8]) -> Option<[Option<bool>; 2]> {
    let exchange = exchange?;
    let printed = is_printed_as(alloc, &exchange, line);
    drop(exchange);
    Some([printed, is_read_as_printed(alloc, line)])
}

fn send_of(alloc: Global, message: &[u8]) -> Option<Exchange> {
    Some(Exchange {
        call: Call::Plain(PlainCall::Send {
            message: Sequence::new(Vec::from_slice(alloc, message).ok()?),
        }),
        reply: Reply::Plain(PlainReply::without_message(alloc, KernReturn::Success, 0, 0)),
    })
}

fn state_of_a_port() -> Exchange {
    let status = ReceiveStatus {
        set: 0,
        sequence_number: 0,
        make_send_count: 1,
        limit: 5,
        messages: 1,
        send_once_count: 2,
        has_senders: false,
        has_port_destroyed_request: true,
        has_no_senders_request: false,
    };
    Exchange {
        call: Call::Plain(PlainCall::GetReceiveStatus { name: 0x100 }),
        reply: Reply::Plain(PlainReply::ReceiveStatus { status }),
    }
}

const STATE_OF_A_PORT: &[u8] =
    b"get_receive_status 0x100 = set 0x0 seqno 0 mscount 1 qlimit 5 messages 1 send_once 2 senders no port_destroyed yes no_senders no";

fn a_message_that_is_too_large(alloc: Global) -> Exchange {
    Exchange {
        call: Call::Plain(PlainCall::Receive {
            limit: 24,
            large: true,
            name: 0x100,
            waited: false,
        }),
        reply: Reply::Plain(PlainReply::without_message(alloc, KernReturn::RcvTooLarge, 28, 0x100)),
    }
}

const TOO_LARGE: &[u8] = b"receive 0x100 limit 24 large ! MACH_RCV_TOO_LARGE size 28 member 0x100";

// Messages, and the lines of their sends.
static SENDS: [(&'static [u8], &'static [u8]); 2] = [
    (
        b"\x14\0\0\0\0\0\0\0\0\x01\0\0\0\0\0\0\0\0\0\0\x07\0\0\0\x44\x33\x22\x11",
        b"send make_send 0x100 id 7 data 44332211",
    ),
    (
        b"\x14\0\0\x80\0\0\0\0\0\x01\0\0\0\0\0\0\0\0\0\0\x07\0\0\0\
        \x14\x20\x02\x10\x01\x01\0\0\x02\x01\0\0\
        \x09\x08\x03\x10\x44\x33\x22\0\
        \x02\x20\x01\x10\x0a\0\0\0\xff",
        b"send make_send 0x100 id 7 complex item make_send 0x101 0x102 item bytes 443322 item words 10 data ff",
    ),
];

#[test]
fn exchanges_as_lines(rt: HostRuntime) {
    let alloc = rt.alloc();
    let too_large = a_message_that_is_too_large(alloc);
    let seen = [
        both_ways(alloc, Some(state_of_a_port()), STATE_OF_A_PORT),
        both_ways(alloc, Some(too_large), TOO_LARGE),
    ];
    same(&rt, seen, [Some([Some(true); 2]); 2]);
    for (message, line) in &SENDS {
        let seen = both_ways(alloc, send_of(alloc, message), line);
        same_in_row(&rt, *line, seen, Some([Some(true); 2]));
    }
}

// Returns the place where a line, or the line of a call alone, can't be read, and what was expected there.
fn unreadable<T: Drop>(read: Result<T, LineFault>) -> Option<(usize, Expected)> {
    match read.err()? {
        LineFault::Unreadable { column, expected } => Some((column, expected)),
        LineFault::NoMemory => None,
    }
}

fn fault_of_call(alloc: Global, line: &str) -> Option<(usize, Expected)> {
    unreadable(read_request_line(alloc, line.as_bytes()))
}

// Returns true if a line has no exchange.
fn is_blank(alloc: Global, line: &[u8]) -> Option<bool> {
    Some(!is_there(exchange_of(alloc, line).ok()?))
}

static NO_CALLS: [(&'static str, usize, Expected); 3] = [
    ("names =", 6, Expected::End),
    (
        "send make_send 0x100 id 7 item words 1 make_send",
        39,
        Expected::End,
    ),
    ("send message", 5, Expected::Message),
];

#[test]
fn what_is_no_line(rt: HostRuntime) {
    let alloc = rt.alloc();
    let fault = unreadable(exchange_of(alloc, b"allocate  nine # no right"));
    same(&rt, fault, Some((10, Expected::Number)));
    same(&rt, is_blank(alloc, b"  # names"), Some(true));
    for (line, column, expected) in &NO_CALLS {
        let fault = fault_of_call(alloc, line);
        same_in_row(&rt, *line, fault, Some((*column, *expected)));
    }
}

// Prints the calls and the replies of a script's lines, one after the other.
fn push_parts(printed: &mut Vec<u8>, lines: &[Line]) -> Result<(), AllocError> {
    for line in lines {
        push_call(printed, &line.exchange.call)?;
        push_reply(printed, &line.exchange.reply)?;
    }
    Ok(())
}

fn parts(alloc: Global, lines: &[Line]) -> Option<Vec<u8>> {
    let mut printed = Vec::new(alloc);
    push_parts(&mut printed, lines).ok()?;
    Some(printed)
}

fn parts_of_script(alloc: Global, encoding: &[u8]) -> Option<Vec<u8>> {
    let lines = read_script(alloc, encoding).ok()?;
    let parts = parts(alloc, &lines);
    drop(lines);
    parts
}

fn number_at(lines: &[Line], index: usize) -> Option<usize> {
    Some(lines.get(index)?.number)
}

// Returns the numbers of a script's first three lines.
fn numbers_of_script(alloc: Global, encoding: &[u8]) -> Option<[Option<usize>; 3]> {
    let lines = read_script(alloc, encoding).ok()?;
    let numbers = [
        number_at(&lines, 0),
        number_at(&lines, 1),
        number_at(&lines, 2),
    ];
    drop(lines);
    Some(numbers)
}

#[test]
fn a_script_and_its_parts(rt: HostRuntime) {
    let encoding = b"# a task\n\nattach 2\ntype 256 = 196608\n";
    let numbers = numbers_of_script(rt.alloc(), encoding);
    same(&rt, numbers, Some([Some(3), Some(4), None]));
    let parts = parts_of_script(rt.alloc(), encoding);
    same_bytes(&rt, parts, b"attach 2type 0x100 = 0x30000");
}
