use crate::expect::{same, same_in_row};
use codes::{KernReturn, MACH_MSG};
use ipc_model::{Call, PlainCall, PlainReply, Reply, RightKind, Sequence};
use std::alloc::Global;

/// Returns two flags: a sequence of these items lends them, and returns them.
fn given_back(alloc: Global, items: &[u32]) -> Option<[bool; 2]> {
    let sequence = Sequence::new(Vec::from_slice(alloc, items).ok()?);
    let lends = sequence.as_slice() == items;
    let back = sequence.into_vec();
    let gives = back.as_slice() == items;
    drop(back);
    Some([lends, gives])
}

#[test]
fn a_sequence_gives_its_items_back(rt: HostRuntime) {
    same(
        &rt,
        given_back(rt.alloc(), &[0x100, 0x101]),
        Some([true; 2]),
    );
}

static KINDS: [(RightKind, u32); 3] = [
    (RightKind::Receive, 16),
    (RightKind::Send, 17),
    (RightKind::SendOnce, 18),
];

#[test]
fn kinds_have_their_numbers(rt: HostRuntime) {
    for (kind, number) in &KINDS {
        same_in_row(&rt, *kind, *kind as u32, *number);
    }
}

#[test]
fn what_changed_the_state_has_a_record(rt: HostRuntime) {
    let call = Call::Plain(PlainCall::Allocate { right: 1 });
    same(&rt, call.number(), 5);
    same(
        &rt,
        call.has_record(&Reply::Plain(PlainReply::Allocate { name: 0x100 })),
        true,
    );
    let full = Reply::Plain(PlainReply::Refused {
        number: 5,
        code: KernReturn::NoSpace,
    });
    same(&rt, call.has_record(&full), false);
}

/// Returns three flags: a reply is a refusal; it has the results of a message of size 0 without a port; it is a
/// success.
fn seen_of(reply: Reply) -> [bool; 3] {
    let seen = [
        matches!(&reply, Reply::Plain(PlainReply::Refused { .. })),
        matches!(
            &reply,
            Reply::Plain(PlainReply::Message {
                size: 0,
                member: 0,
                ..
            })
        ),
        reply.is_success(),
    ];
    drop(reply);
    seen
}

#[test]
fn mach_msg_is_refused_with_its_results(rt: HostRuntime) {
    let full = Reply::refused(rt.alloc(), 5, KernReturn::NoSpace);
    same(&rt, seen_of(full), [true, false, false]);
    let unsent = Reply::refused(rt.alloc(), MACH_MSG, KernReturn::SendTimedOut);
    same(&rt, seen_of(unsent), [false, true, false]);
}
