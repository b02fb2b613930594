ghost use Rattle.std.specs.Prelude.{◌≡◌, ◌≢◌, false, true, IfNone, IfSome};
ghost use Rattle.codes.specs.MessageOptions.{bits_of};
ghost use Rattle.ipc_model.specs.encodings.PlainCalls.{receive_option};

use bitflags::Flags;
use codes::MessageOptions;

/// Returns the options of a receive in a record: `RECEIVE`, and also `LARGE` if a message that is too large stays
/// queued.
pub(crate) fn receive_options(large: bool) -> MessageOptions
    ensures { bits_of result ≡ receive_option large }
{
    if large {
        MessageOptions::RECEIVE.union(MessageOptions::LARGE)
    } else {
        MessageOptions::RECEIVE
    }
}

/// Returns true if a message that is too large stays queued, or `None` if these aren't the options of a receive in a
/// record.
pub(crate) fn receives_large(options: MessageOptions) -> Option<bool>
    ensures found { IfSome result (λ large. bits_of options ≡ receive_option large) }
    ensures none { IfNone result ((bits_of options ≢ receive_option false) × (bits_of options ≢ receive_option true)) }
{
    if options == receive_options(false) {
        return Some(false);
    }
    if options == receive_options(true) {
        return Some(true);
    }
    None
}
