ghost use Rattle.std.specs.Prelude.{◌≡◌, ◌++◌, IfSome, length};
ghost use Rattle.frame_service.specs.Asking.{holds_frame};
ghost use Rattle.wire.specs.Frame.{IsContentLength};
ghost use Rattle.words.specs.Words.{frame_encoding};

use codes::{MAX_FRAME_CONTENT, MIN_FRAME_CONTENT};
use words::take_word;

/// Returns whether a whole frame stands at the front, or a length that no frame has, so that reading it waits for
/// nothing.
pub(crate) fn holds_frame(bytes: &[u8]) -> bool
    ensures { result ≡ holds_frame bytes.now }
{
    let Some((length, rest)) = take_word(bytes) else {
        return false;
    };
    length < MIN_FRAME_CONTENT || MAX_FRAME_CONTENT < length || length as usize <= rest.len()
}

/// The content of the frame at the front, if a whole frame stands there, and the bytes after it.
pub(crate) fn whole_frame(bytes: &[u8]) -> Option<(&[u8], &[u8])>
    ensures found { IfSome result (λ r. bytes.now ≡ frame_encoding r.0.now ++ r.1.now) }
    ensures limits { IfSome result (λ r. IsContentLength (length r.0.now)) }
{
    let (length, rest) = take_word(bytes)?;
    if length < MIN_FRAME_CONTENT || MAX_FRAME_CONTENT < length {
        return None;
    }
    let length = length as usize;
    if rest.len() < length {
        return None;
    }
    Some(rest.split_at(length))
}
