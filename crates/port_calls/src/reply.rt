ghost use Rattle.std.specs.Prelude.{◌≡◌};

use codes::KernReturn;
use ipc_model::PlainReply;

/// Returns the refusal of a call with this number.
pub fn refused(number: u32, code: KernReturn) -> PlainReply
    ensures { result ≡ PlainReply.Refused number code }
{
    PlainReply::Refused { number, code }
}
