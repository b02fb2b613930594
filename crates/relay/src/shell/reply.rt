ghost use Rattle.std.specs.Prelude.{◌≡◌, Some, IfOk, IfSome};
ghost use Rattle.ipc_model.specs.declared.reply.Reply.{Reply};
ghost use Rattle.relay.specs.shell.Answers.{IsReplyTo};

use ipc_model::Reply;
use std::alloc::{AllocError, Global};

/// Decodes the content of the frame of a reply to a call with this number, or returns `None` if it isn't one. Each such
/// reply can be written after its call on a line.
pub fn read_reply(alloc: Global, number: u32, content: &[u8]) -> Result<Option<Reply>, AllocError>
    ensures found { IfOk result (λ found. IfSome found (IsReplyTo number content.now)) }
    ensures only { (answer : Reply) → IsReplyTo number content.now answer → IfOk result (λ found. found ≡ Some answer) }
{
    calls::read_reply(alloc, number, content)
}
