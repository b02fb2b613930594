//! Connections that are confined to the space that they are attached to.
ghost use Rattle.std.specs.Prelude.{◌≡◌, ◌≤◌, ◌&&◌, length};
ghost use Rattle.frame_service.specs.Confining.{attach_shown, attach_to, confine_shown, is_attach, shown, shown_for};
ghost use Rattle.frame_service.specs.Serving.{confine_shortage};
ghost use Rattle.ipc_model.specs.encodings.Encodings.{reply_encoding};

use codes::{ATTACH, CONFINE, KernReturn, MAX_FRAME_CONTENT};
use ipc_model::{Call, PlainCall, PlainReply, Reply};
use std::alloc::Global;

/// How a connection shows the reply to a call that it made.
#[derive(Clone, Copy)]
pub enum Shown {
    /// As it is.
    AsItIs,
    /// To an attach that a confined connection didn't make: it asked whether its own space is there.
    ToAttach,
    /// To number 23, for which it asked the same.
    ToConfine,
}

impl Shown {
    /// How the reply is shown where this call was asked for.
    pub fn for_call(is_confined: bool, call: &Call) -> Shown
        ensures { result ≡ shown_for is_confined call.now }
    {
        if is_kept(is_confined, call) {
            Shown::ToAttach
        } else {
            Shown::AsItIs
        }
    }

    /// The reply that is shown. It takes no memory.
    pub fn reply(self, alloc: Global, said: Reply) -> Reply
        requires fits { length (reply_encoding said) ≤ MAX_FRAME_CONTENT }
        ensures shown { result ≡ shown self said }
        ensures fits { length (reply_encoding result) ≤ MAX_FRAME_CONTENT }
    {
        match self {
            Shown::AsItIs => said,
            Shown::ToAttach => to_attach(alloc, said),
            Shown::ToConfine => to_confine(alloc, said),
        }
    }
}

/// Returns whether a call is an attach of a confined connection, which isn't made.
pub fn is_kept(is_confined: bool, call: &Call) -> bool
    ensures { result ≡ (is_confined && is_attach call.now) }
{
    is_confined && is_attach(call)
}

/// The call that attaches to this space.
pub fn attach_to(space: u32) -> Call
    ensures { result ≡ attach_to space }
{
    Call::Plain(PlainCall::Attach { space })
}

fn is_attach(call: &Call) -> bool
    ensures { result ≡ is_attach call.now }
{
    match call {
        Call::Plain(PlainCall::Attach { .. }) => true,
        _ => false,
    }
}

fn to_attach(alloc: Global, said: Reply) -> Reply
    requires fits { length (reply_encoding said) ≤ MAX_FRAME_CONTENT }
    ensures shown { result ≡ attach_shown said }
    ensures fits { length (reply_encoding result) ≤ MAX_FRAME_CONTENT }
{
    if said.is_success() {
        drop(said);
        return Reply::refused(alloc, ATTACH, KernReturn::NoAccess);
    }
    said
}

fn to_confine(alloc: Global, said: Reply) -> Reply
    requires fits { length (reply_encoding said) ≤ MAX_FRAME_CONTENT }
    ensures shown { result ≡ confine_shown said }
    ensures fits { length (reply_encoding result) ≤ MAX_FRAME_CONTENT }
{
    match said {
        Reply::Plain(PlainReply::Done { .. }) => Reply::Plain(PlainReply::Done { number: CONFINE }),
        Reply::Plain(PlainReply::Refused { code, .. }) => Reply::refused(alloc, CONFINE, code),
        said => said,
    }
}

/// The answer to number 23 where memory ran out. It takes no memory.
pub(crate) fn confine_shortage(alloc: Global) -> Reply
    ensures answer { result ≡ confine_shortage }
    ensures fits { length (reply_encoding result) ≤ MAX_FRAME_CONTENT }
{
    Reply::refused(alloc, CONFINE, KernReturn::ResourceShortage)
}
