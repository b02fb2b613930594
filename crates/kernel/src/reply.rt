ghost use Rattle.std.specs.Prelude.{◌≡◌, ◌↔◌, IsTrue};
ghost use Rattle.ipc_model.specs.encodings.PlainCalls.{number_of_reply};
ghost use Rattle.kernel.specs.Answering.{inner};
ghost use Rattle.port_calls.specs.Trying.{is_refusal};

use codes::{
    MACH_MSG, MACH_PORT_ALLOCATE, MACH_PORT_EXTRACT_RIGHT, MACH_PORT_GET_RECEIVE_STATUS,
    MACH_PORT_GET_REFS, MACH_PORT_GET_SET_STATUS, MACH_PORT_NAMES, MACH_PORT_REQUEST_NOTIFICATION,
    MACH_PORT_TYPE, SPACE_CREATE,
};
use ipc_model::{PlainReply, Reply};

/// Returns true if this reply refuses its call.
pub fn is_refusal(reply: &PlainReply) -> bool
    ensures { result ≡ is_refusal reply.now }
{
    matches!(reply, PlainReply::Refused { .. })
}

/// Returns true if two replies are the same.
pub fn is_same_reply(one: &Reply, other: &Reply) -> bool
    ensures { IsTrue result ↔ (one.now ≡ other.now) }
{
    match (one, other) {
        (Reply::Plain(one), Reply::Plain(other)) => one.is_same(other),
        (Reply::Numbered(one), Reply::Numbered(other)) => one.is_same(other),
        (Reply::Repeated(one), Reply::Repeated(other)) => one.is_same(other),
        _ => false,
    }
}

/// Returns the reply to the call itself, also if the call was numbered.
pub fn inner(reply: &Reply) -> &PlainReply
    ensures { result.now ≡ inner reply.now }
{
    match reply {
        Reply::Plain(reply) => reply,
        Reply::Numbered(answer) | Reply::Repeated(answer) => &answer.reply,
    }
}

/// Returns the number of the call that a reply answers.
pub fn number_of(reply: &PlainReply) -> u32
    ensures { result ≡ number_of_reply reply.now }
{
    match reply {
        PlainReply::Refused { number, .. } | PlainReply::Done { number } => *number,
        PlainReply::Names { .. } => MACH_PORT_NAMES,
        PlainReply::Type { .. } => MACH_PORT_TYPE,
        PlainReply::Allocate { .. } => MACH_PORT_ALLOCATE,
        PlainReply::References { .. } => MACH_PORT_GET_REFS,
        PlainReply::ReceiveStatus { .. } => MACH_PORT_GET_RECEIVE_STATUS,
        PlainReply::SetStatus { .. } => MACH_PORT_GET_SET_STATUS,
        PlainReply::PreviousTarget { .. } => MACH_PORT_REQUEST_NOTIFICATION,
        PlainReply::Extracted { .. } => MACH_PORT_EXTRACT_RIGHT,
        PlainReply::Message { .. } => MACH_MSG,
        PlainReply::SpaceCreated { .. } => SPACE_CREATE,
    }
}
