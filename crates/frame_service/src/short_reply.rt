ghost use Rattle.std.specs.Prelude.{◌≡◌, ◌≤◌, length};
ghost use Rattle.codes.specs.declared.limits.TheConstants.{MAX_FRAME_CONTENT};
ghost use Rattle.ipc_model.specs.encodings.Encodings.{reply_encoding};

use ipc_model::Reply;
use std::marker::Model;

/// A reply of a few words, which fits in a frame. It is the answer to a call that isn't made.
#[derive(Drop)]
pub struct ShortReply {
    reply: Reply,
}

impl Model for ShortReply {
    ghost use Rattle.std.specs.Prelude.{◌≤◌, length};
    ghost use Rattle.codes.specs.declared.limits.TheConstants.{MAX_FRAME_CONTENT};
    ghost use Rattle.ipc_model.specs.declared.reply.Reply.{Reply};
    ghost use Rattle.ipc_model.specs.contracts.reply.Reply as encoded;
    ghost use Rattle.ipc_model.specs.encodings.Encodings.{reply_encoding};

    ghost Value = { Reply };

    ghost coded = { encoded.the_row.coded };

    ghost view = { λ b. b.reply };

    ghost invariant = { λ b. length (reply_encoding b.reply) ≤ MAX_FRAME_CONTENT };
}

impl ShortReply {
    /// This reply.
    pub(crate) fn new(reply: Reply) -> Self
        requires { length (reply_encoding reply) ≤ MAX_FRAME_CONTENT }
        ensures { result ≡ reply }
    {
        ShortReply { reply }
    }

    /// The reply.
    pub(crate) fn into_reply(self) -> Reply
        ensures reply { result ≡ self }
        ensures fits { length (reply_encoding result) ≤ MAX_FRAME_CONTENT }
    {
        self.reply
    }
}
