use crate::expect::{same, same_in_row};
use crate::peer::{Echo, Relayed, relay_to};
use std::alloc::Global;
use wire::WireFault;

/// Two frames, of five and of four bytes.
const FRAMES: [u8; 17] = [5, 0, 0, 0, 1, 2, 3, 4, 5, 4, 0, 0, 0, 6, 7, 8, 9];

/// The result, the bytes that the peer was sent, and the number of bytes of the input that were written to the output.
type Reported = (Result<(), WireFault>, usize, Option<usize>);

fn reported(relayed: &Relayed, peer: &Echo, input: &[u8]) -> Reported {
    let output = relayed.output.as_slice();
    let first = if input.starts_with(output) {
        Some(output.len())
    } else {
        None
    };
    (relayed.end, peer.sent(), first)
}

/// Relays an input to a peer, and to a writer with room for `room` bytes.
fn relayed(alloc: Global, input: &[u8], peer: &Echo, room: usize) -> Option<Reported> {
    let relayed = relay_to(alloc, input, peer, room)?;
    Some(reported(&relayed, peer, input))
}

/// Relays an input to a peer that sends `peer_room` bytes back, and to a writer with room for `room` bytes.
fn run(alloc: Global, input: &[u8], peer_room: usize, room: usize) -> Option<Reported> {
    relayed(alloc, input, &Echo::new(alloc, peer_room), room)
}

#[test]
fn each_frame_is_answered(rt: HostRuntime) {
    let seen = run(rt.alloc(), &FRAMES, 100, 100);
    same(&rt, seen, Some((Ok(()), 17, Some(17))));
}

#[test]
fn a_cut_input_is_short(rt: HostRuntime) {
    for cut in 0..17 {
        let seen = run(rt.alloc(), &FRAMES[..cut], 100, 100);
        let whole = if cut < 9 { 0 } else { 9 };
        let end = if cut == whole {
            Ok(())
        } else {
            Err(WireFault::Short)
        };
        same_in_row(&rt, cut, seen, Some((end, whole, Some(whole))));
    }
}

#[test]
fn a_peer_that_ends_is_short(rt: HostRuntime) {
    for room in 0..17 {
        let seen = run(rt.alloc(), &FRAMES, room, 100);
        let (sent, written) = if room < 9 { (9, 0) } else { (17, 9) };
        let end = Err(WireFault::Short);
        same_in_row(&rt, room, seen, Some((end, sent, Some(written))));
    }
}

#[test]
fn a_writer_that_fails_is_a_device(rt: HostRuntime) {
    for room in 0..17 {
        let seen = run(rt.alloc(), &FRAMES, 100, room);
        let sent = if room < 9 { 9 } else { 17 };
        let end = Err(WireFault::Device);
        same_in_row(&rt, room, seen, Some((end, sent, Some(room))));
    }
}

static WRONG_LENGTHS: [([u8; 8], WireFault); 2] = [
    ([3, 0, 0, 0, 1, 1, 1, 1], WireFault::Short),
    ([253, 255, 0, 0, 1, 1, 1, 1], WireFault::TooLong),
];

#[test]
fn nothing_after_a_wrong_length_is_sent(rt: HostRuntime) {
    for (input, fault) in &WRONG_LENGTHS {
        let seen = run(rt.alloc(), input, 100, 100);
        same_in_row(&rt, *fault, seen, Some((Err(*fault), 0, Some(0))));
    }
}
