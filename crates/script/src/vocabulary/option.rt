ghost use Rattle.std.specs.Prelude.{◌≡◌, codes};

use codes::MessageOptions;

/// Returns the word of a send.
#[tactic(auto, unfolding(bitflags::specs::Sets::next_name))]
pub(crate) fn send_word() -> &'static [u8]
    ensures { result.now ≡ codes "send" }
{
    MessageOptions::SEND.first_name().as_bytes()
}

/// Returns the word of a receive.
#[tactic(auto, unfolding(bitflags::specs::Sets::next_name))]
pub(crate) fn receive_word() -> &'static [u8]
    ensures { result.now ≡ codes "receive" }
{
    MessageOptions::RECEIVE.first_name().as_bytes()
}

/// Returns the word of a receive that leaves a message in the queue if it is too large.
#[tactic(auto, unfolding(bitflags::specs::Sets::next_name))]
pub fn large_word() -> &'static [u8]
    ensures { result.now ≡ codes "large" }
{
    MessageOptions::LARGE.first_name().as_bytes()
}
