use crate::expect::{is_there, same, same_bytes, same_in_row};
use crate::streams::OneByte;
use std::alloc::Global;
use std::io;
use std::io::{Read, Write};
use wire::{Frame, WireFault, read_frame, write_frame};

// The frame with the number 5 and the argument 1.
const FRAME: [u8; 12] = [8, 0, 0, 0, 5, 0, 0, 0, 1, 0, 0, 0];

// A writer that accepts `room` bytes, and then fails, or accepts none if it is `stuck`.
#[derive(Drop)]
struct Small {
    room: usize,
    stuck: bool,
}

impl Write for Small {
    fn write(&mut self, buf: &[u8]) -> io::Result<usize> {
        if self.room == 0 && !self.stuck {
            return Err(io::ErrorKind::Other.into());
        }
        let count = buf.len().min(self.room);
        self.room -= count;
        Ok(count)
    }

    fn flush(&mut self) -> io::Result<()> {
        Ok(())
    }
}

fn fault_of(alloc: Global, bytes: &[u8]) -> Option<WireFault> {
    let mut input = bytes;
    read_frame(alloc, &mut input).err()
}

#[test]
fn faults_by_the_bytes(rt: HostRuntime) {
    let rows: [(&[u8], Option<WireFault>); 5] = [
        (&[3, 0, 0, 0, 5, 0, 0, 0], Some(WireFault::Short)),
        (&FRAME[..3], Some(WireFault::Short)),
        (&FRAME[..11], Some(WireFault::Short)),
        (&[0xfd, 0xff, 0, 0, 5, 0, 0, 0], Some(WireFault::TooLong)),
        (&[], None),
    ];
    for (bytes, fault) in rows {
        same_in_row(&rt, bytes, fault_of(rt.alloc(), bytes), fault);
    }
}

fn frame_from(alloc: Global, input: &mut impl Read) -> Option<Frame> {
    read_frame(alloc, input).ok()?
}

/// Returns a frame's number and its arguments.
fn parts_of(frame: &Option<Frame>) -> Option<(u32, &[u8])> {
    let frame = frame.as_ref()?;
    Some((frame.number(), frame.arguments()))
}

fn content_of(frame: &Option<Frame>) -> Option<&[u8]> {
    Some(frame.as_ref()?.content())
}

fn written(alloc: Global, frame: &Option<Frame>) -> Option<Vec<u8>> {
    let frame = frame.as_ref()?;
    let mut output = Vec::new(alloc);
    write_frame(&mut output, frame).ok()?;
    Some(output)
}

/// Returns true if there is no frame in no bytes.
fn is_at_end(alloc: Global) -> Option<bool> {
    Some(!is_there(read_frame(alloc, &mut &[][..]).ok()?))
}

#[test]
fn reads_and_writes(rt: HostRuntime) {
    let alloc = rt.alloc();
    let mut input: &[u8] = b"\x08\0\0\0\x05\0\0\0\x01\0\0\0\x04";
    let frame = frame_from(alloc, &mut input);
    let arguments: &[u8] = &[1, 0, 0, 0];
    same(
        &rt,
        (parts_of(&frame), input),
        (Some((5, arguments)), &[4][..]),
    );
    same_bytes(&rt, written(alloc, &frame), &FRAME);
    drop(frame);
    same(&rt, is_at_end(alloc), Some(true));
}

/// Returns true if a copy of a frame has this content.
fn is_copied_as(alloc: Global, frame: &Frame, content: &[u8]) -> Option<bool> {
    let copy = Frame::from_content(alloc, frame.content()).ok()?;
    Some(copy.content() == content)
}

#[test]
fn makes_frames(rt: HostRuntime) {
    let Ok(mut frame) = Frame::with_room(rt.alloc(), 100) else {
        return same(&rt, "no memory", "a frame");
    };
    same(&rt, frame.content(), &[0, 0, 0, 0][..]);
    same(&rt, frame.room() >= 100, true);
    frame.start(5);
    frame.put_word(1);
    same(&rt, frame.content(), &FRAME[4..]);
    frame.put_bytes(b"ab");
    same(&rt, frame.arguments(), b"\x01\0\0\0ab".as_slice());
    frame.start(0x0102_0304);
    same(&rt, frame.number(), 0x0102_0304);
    let copied = is_copied_as(rt.alloc(), &frame, &[4, 3, 2, 1]);
    drop(frame);
    same(&rt, copied, Some(true));
}

/// Returns a reader of the frame with the number 5 and the argument 1, which fails after `before` reads.
fn reader(before: usize) -> OneByte<'static> {
    let bytes: &'static [u8] = b"\x08\0\0\0\x05\0\0\0\x01\0\0\0";
    OneByte { bytes, before }
}

#[test]
fn readers_that_give_little(rt: HostRuntime) {
    let frame = frame_from(rt.alloc(), &mut reader(12));
    same(&rt, content_of(&frame), Some(&FRAME[4..]));
    drop(frame);
    for before in [0, 3, 4, 11] {
        let fault = read_frame(rt.alloc(), &mut reader(before)).err();
        same_in_row(&rt, before, fault, Some(WireFault::Device));
    }
}

/// The fault of writing a frame into this much room, if there is one, and the room that is left.
type Writing = (Option<WireFault>, usize);

fn writing(frame: &Option<Frame>, room: usize, stuck: bool) -> Option<Writing> {
    let mut small = Small { room, stuck };
    let fault = write_frame(&mut small, frame.as_ref()?).err();
    Some((fault, small.room))
}

#[test]
fn writers_that_take_little(rt: HostRuntime) {
    let frame = Frame::from_content(rt.alloc(), &FRAME[4..]).ok();
    for (room, stuck) in [(0, false), (3, false), (4, false), (11, false), (11, true)] {
        let seen = writing(&frame, room, stuck);
        same_in_row(&rt, room, seen, Some((Some(WireFault::Device), 0)));
    }
    same(&rt, writing(&frame, 12, false), Some((None, 0)));
    drop(frame);
}

/// Returns true if a fault has this name.
fn is_named(alloc: Global, fault: WireFault, encoding: &str) -> Option<bool> {
    let name = format!(in alloc; "{fault}").ok()?;
    Some(name.as_str() == encoding)
}

static FAULTS: [(WireFault, u32, &'static str); 4] = [
    (WireFault::Short, 1, "short"),
    (WireFault::TooLong, 2, "too long"),
    (WireFault::Device, 3, "device"),
    (WireFault::NoMemory, 4, "no memory"),
];

#[test]
fn names_of_faults(rt: HostRuntime) {
    for (fault, number, encoding) in &FAULTS {
        let named = is_named(rt.alloc(), *fault, encoding);
        same_in_row(
            &rt,
            *encoding,
            (fault.number(), named),
            (*number, Some(true)),
        );
    }
}
