use crate::expect::{same, same_in_row};
use codes::{KernReturn, MessageOptions, Right};

static CODES: [(KernReturn, u32); 6] = [
    (KernReturn::NoSpace, 3),
    (KernReturn::InvalidArgument, 4),
    (KernReturn::ResourceShortage, 6),
    (KernReturn::InvalidName, 15),
    (KernReturn::InvalidTask, 16),
    (KernReturn::InvalidValue, 18),
];

static RIGHTS: [(Right, u32); 5] = [
    (Right::Send, 0x1_0000),
    (Right::Receive, 0x2_0000),
    (Right::SendOnce, 0x4_0000),
    (Right::PortSet, 0x8_0000),
    (Right::DeadName, 0x10_0000),
];

static OPTIONS: [(MessageOptions, &str); 5] = [
    (MessageOptions::SEND, "send"),
    (MessageOptions::RECEIVE, "receive"),
    (MessageOptions::SEND_TIMEOUT, "send_timeout"),
    (MessageOptions::RECEIVE_TIMEOUT, "receive_timeout"),
    (MessageOptions::LARGE, "large"),
];

// Numbers on the wire, compared with the definitions that contracts cite.
#[test]
fn numbers_on_the_wire(rt: HostRuntime) {
    for (code, number) in &CODES {
        same_in_row(&rt, *code, code.number(), *number);
    }
    for (right, bit) in &RIGHTS {
        same_in_row(&rt, *right, right.type_bit(), *bit);
        same(&rt, Right::from_number(right.number()), Some(*right));
    }
}

#[test]
fn names_of_options(rt: HostRuntime) {
    for (option, name) in &OPTIONS {
        same(&rt, option.first_name(), *name);
    }
}
