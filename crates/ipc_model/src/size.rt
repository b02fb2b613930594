ghost use Rattle.std.specs.Prelude.{true, false, ◌≡◌};
ghost use Rattle.ipc_model.specs.encodings.PlainCalls.{IsMessageSize};

use codes::{HEADER_LENGTH, MAX_MESSAGE_SIZE};

/// Returns whether a message may have this size.
pub fn is_message_size(size: usize) -> bool
    ensures yes { result ≡ true → IsMessageSize size }
    ensures no { result ≡ false → IsMessageSize size → ⊥ }
{
    size >= HEADER_LENGTH && size <= MAX_MESSAGE_SIZE as usize && size % 4 == 0
}
