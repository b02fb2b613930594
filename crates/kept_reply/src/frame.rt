ghost use Rattle.std.specs.Prelude.{◌≡◌, ◌++◌, ℕ, List, Some, IfOk, IfSome, IsSomeAnd, OnOk};
ghost use Rattle.ipc_model.specs.declared.reply.NumberedReply.{NumberedReply};
ghost use Rattle.ipc_model.specs.declared.reply.Reply.TheVariants as variants;
ghost use Rattle.ipc_model.specs.encodings.Encodings.{numbered_encoding};
ghost use Rattle.ipc_model.specs.state.LawfulState.{IsKeptReply};
ghost use Rattle.words.specs.Words.{frame_encoding};

use crate::judging::may_be_kept;
use calls::{push_numbered_reply, read_reply};
use codes::NUMBERED;
use ipc_model::{NumberedReply, Reply};
use record::take_frame;
use std::alloc::{AllocError, Global};
use words::push_word;

/// Returns the reply if it is to a numbered call.
fn numbered_of(found: Option<Reply>) -> Option<NumberedReply>
    ensures found { IfSome result (λ kept. found ≡ Some (variants.Numbered kept)) }
    ensures only { (kept : NumberedReply) → found ≡ Some (variants.Numbered kept) → result ≡ Some kept }
{
    match found {
        Some(Reply::Numbered(kept)) => Some(kept),
        _ => None,
    }
}

/// Decodes the content of the frame of a reply that a space may keep, or returns `None` if it isn't one.
fn read_kept_reply(alloc: Global, content: &[u8]) -> Result<Option<NumberedReply>, AllocError>
    ensures found { IfOk result (λ found. IfSome found
        (λ kept. (content.now ≡ numbered_encoding kept) × IsKeptReply kept)) }
    ensures only { (kept : NumberedReply) → IsKeptReply kept → content.now ≡ numbered_encoding kept
        → IfOk result (λ found. found ≡ Some kept) }
{
    let found = read_reply(alloc, NUMBERED, content)?;
    let Some(kept) = numbered_of(found) else {
        return Ok(None);
    };
    if !may_be_kept(&kept) {
        return Ok(None);
    }
    Ok(Some(kept))
}

/// Splits off the frame of a reply to this request, if a space may keep the reply. It can run out of memory only for a
/// message, names or members.
pub fn take_kept_reply(
    alloc: Global,
    request: u32,
    bytes: &[u8],
) -> Result<Option<(NumberedReply, &[u8])>, AllocError>
    ensures found { IfOk result (λ found. IfSome found (λ r.
        (bytes.now ≡ frame_encoding (numbered_encoding r.0) ++ r.1.now) × (r.0.request ≡ request)
        × IsKeptReply r.0)) }
    ensures only { (kept : NumberedReply) (rest : List ℕ) → IsKeptReply kept → kept.request ≡ request
        → bytes.now ≡ frame_encoding (numbered_encoding kept) ++ rest
        → IfOk result (λ found. IsSomeAnd found (λ r. (r.0 ≡ kept) × (r.1.now ≡ rest))) }
{
    let Some((content, rest)) = take_frame(bytes) else {
        return Ok(None);
    };
    let Some(kept) = read_kept_reply(alloc, content)? else {
        return Ok(None);
    };
    if kept.request != request {
        return Ok(None);
    }
    Ok(Some((kept, rest)))
}

/// Appends the frame of a reply that a space keeps. `Err`: out of memory, or no space may keep this reply. Part of the
/// frame may have been appended.
pub fn push_kept_reply(out: &mut Vec<u8>, kept: &NumberedReply) -> Result<(), AllocError>
    ensures { OnOk result (out.new.items ≡ out.old.items ++ frame_encoding (numbered_encoding kept.now)) }
{
    if !may_be_kept(kept) {
        return Err(AllocError);
    }
    let mut content = Vec::new(*out.allocator());
    push_numbered_reply(&mut content, kept)?;
    push_word(out, content.len() as u32)?;
    out.extend_from_slice(content.as_slice())
}
