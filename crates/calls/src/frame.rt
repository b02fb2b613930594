ghost use Rattle.std.specs.Prelude.{◌≡◌, ◌+◌, ◌*◌, ◌≤◌, ◌++◌, length, flat_map};
ghost use Rattle.ipc_model.specs.encodings.PlainCalls.{reply_encoding, done_encoding, status_encoding};
ghost use Rattle.words.specs.Words.{word};
ghost use Rattle.calls.specs.Rows.{names_encoding};

use crate::encode::status_words;
use codes::{
    MACH_MSG, MACH_PORT_ALLOCATE, MACH_PORT_EXTRACT_RIGHT, MACH_PORT_GET_RECEIVE_STATUS,
    MACH_PORT_GET_REFS, MACH_PORT_GET_SET_STATUS, MACH_PORT_NAMES, MACH_PORT_REQUEST_NOTIFICATION,
    MACH_PORT_TYPE, MAX_FRAME_CONTENT, SPACE_CREATE,
};
use ipc_model::{NamedType, PlainReply, ReceiveStatus};
use wire::Frame;

/// Appends words to the frame.
fn put_words(frame: &mut Frame, numbers: &[u32])
    requires room { length frame.old.content + 4 * length numbers.now ≤ frame.old.room }
    requires limit { length frame.old.content + 4 * length numbers.now ≤ MAX_FRAME_CONTENT }
    ensures content { frame.new.content ≡ frame.old.content ++ flat_map word numbers.now }
    ensures length { length frame.new.content ≡ length frame.old.content + 4 * length numbers.now }
    ensures room { frame.new.room ≡ frame.old.room }
{
    for &number in numbers {
        frame.put_word(number);
    }
}

/// Replaces the frame by the words of `front` and a call's number.
fn start_after(frame: &mut Frame, front: &[u32], number: u32)
    requires room { MAX_FRAME_CONTENT ≤ frame.old.room }
    requires limit { 4 + 4 * length front.now ≤ MAX_FRAME_CONTENT }
    ensures content { frame.new.content ≡ flat_map word front.now ++ word number }
    ensures length { length frame.new.content ≡ 4 + 4 * length front.now }
    ensures room { frame.old.room ≤ frame.new.room }
{
    let Some((first, others)) = front.split_first() else {
        return frame.start(number);
    };
    frame.start(*first);
    put_words(frame, others);
    frame.put_word(number);
}

/// Replaces the frame by the words of `front`, a call's number, a code and the words of `numbers`.
fn start_reply(frame: &mut Frame, front: &[u32], number: u32, code: u32, numbers: &[u32])
    requires room { MAX_FRAME_CONTENT ≤ frame.old.room }
    requires limit { 8 + 4 * length front.now + 4 * length numbers.now ≤ MAX_FRAME_CONTENT }
    ensures content { frame.new.content
        ≡ flat_map word front.now ++ (word number ++ (word code ++ flat_map word numbers.now)) }
    ensures length { length frame.new.content ≡ 8 + 4 * length front.now + 4 * length numbers.now }
    ensures room { frame.old.room ≤ frame.new.room }
{
    start_after(frame, front, number);
    frame.put_word(code);
    put_words(frame, numbers);
}

/// Appends each name with its type bits.
fn put_names(frame: &mut Frame, names: &[NamedType])
    requires room { length frame.old.content + 8 * length names.now ≤ frame.old.room }
    requires limit { length frame.old.content + 8 * length names.now ≤ MAX_FRAME_CONTENT }
    ensures content { frame.new.content ≡ frame.old.content ++ names_encoding names.now }
    ensures room { frame.new.room ≡ frame.old.room }
{
    for named in names {
        put_words(frame, &[named.name, named.bits]);
    }
}

/// Replaces the frame by the words of `front` and the reply with a port's state.
fn start_status(frame: &mut Frame, front: &[u32], status: &ReceiveStatus)
    requires room { MAX_FRAME_CONTENT ≤ frame.old.room }
    requires limit { 44 + 4 * length front.now ≤ MAX_FRAME_CONTENT }
    ensures content { frame.new.content
        ≡ flat_map word front.now ++ done_encoding MACH_PORT_GET_RECEIVE_STATUS (status_encoding status.now) }
    ensures room { frame.old.room ≤ frame.new.room }
{
    start_reply(
        frame,
        front,
        MACH_PORT_GET_RECEIVE_STATUS,
        0,
        &status_words(status),
    );
}

/// Replaces the frame by the words of `front` and a plain reply. It allocates nothing.
#[tactic(auto, unfolding(ipc_model::specs::encodings::PlainCalls::reply_encoding))]
pub(crate) fn put_plain_reply(front: &[u32], reply: &PlainReply, frame: &mut Frame)
    requires room { MAX_FRAME_CONTENT ≤ frame.old.room }
    requires limit { 4 * length front.now + length (reply_encoding reply.now) ≤ MAX_FRAME_CONTENT }
    ensures content { frame.new.content ≡ flat_map word front.now ++ reply_encoding reply.now }
    ensures room { frame.old.room ≤ frame.new.room }
{
    match reply {
        PlainReply::Refused { number, code } => start_reply(
            frame,
            front,
            *number,
            code.number(),
            &[],
        ),
        PlainReply::Done { number } => start_reply(frame, front, *number, 0, &[]),
        PlainReply::Names { names } => {
            let names = names.as_slice();
            start_reply(frame, front, MACH_PORT_NAMES, 0, &[names.len() as u32]);
            put_names(frame, names);
        }
        PlainReply::Type { bits } => start_reply(frame, front, MACH_PORT_TYPE, 0, &[*bits]),
        PlainReply::Allocate { name } => start_reply(frame, front, MACH_PORT_ALLOCATE, 0, &[*name]),
        PlainReply::References { count } => start_reply(
            frame,
            front,
            MACH_PORT_GET_REFS,
            0,
            &[*count],
        ),
        PlainReply::ReceiveStatus { status } => start_status(frame, front, status),
        PlainReply::SetStatus { members } => {
            let members = members.as_slice();
            start_reply(
                frame,
                front,
                MACH_PORT_GET_SET_STATUS,
                0,
                &[members.len() as u32],
            );
            put_words(frame, members);
        }
        PlainReply::PreviousTarget { name } => start_reply(
            frame,
            front,
            MACH_PORT_REQUEST_NOTIFICATION,
            0,
            &[*name],
        ),
        PlainReply::Extracted { name, kind } => start_reply(
            frame,
            front,
            MACH_PORT_EXTRACT_RIGHT,
            0,
            &[*name, kind.number()],
        ),
        PlainReply::Message {
            code,
            size,
            member,
            message,
        } => {
            start_reply(frame, front, MACH_MSG, code.number(), &[*size, *member]);
            frame.put_bytes(message.as_slice());
        }
        PlainReply::SpaceCreated { space, name } => start_reply(
            frame,
            front,
            SPACE_CREATE,
            0,
            &[*space, *name],
        ),
    }
}
