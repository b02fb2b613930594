ghost use Rattle.std.specs.Prelude.{◌≡◌, ◌++◌, OnOk, OnErr};
ghost use Rattle.script.specs.printing.Calls.{call_line};
ghost use Rattle.script.specs.printing.Lines.{exchange_line, reply_line};

use crate::printing::call::push_call_words;
use crate::printing::reply::push_reply_words;
use ipc_model::{Call, Reply};
use std::alloc::AllocError;

/// A call and its reply.
#[derive(Drop)]
pub struct Exchange {
    /// The call.
    pub call: Call,
    /// The reply, which is to a call with this number.
    pub reply: Reply,
}

/// Appends the line of a call, without a reply or an end of line. If an allocation fails, nothing changed.
#[tactic(auto, using(crate::proofs::vocabulary::WordsOf::spaced_laws), unfolding(crate::specs::printing::Calls::call_line, crate::specs::printing::Calls::call_words))]
pub fn push_call(out: &mut Vec<u8>, call: &Call) -> Result<(), AllocError>
    ensures ok { OnOk result (out.new.items ≡ out.old.items ++ call_line call.now) }
    ensures err { OnErr result (out.new.items ≡ out.old.items) }
{
    let mut line = Vec::new(*out.allocator());
    push_call_words(&mut line, call)?;
    out.extend_from_slice(line.as_slice())
}

/// Appends a reply as it follows its call in a line: each word after a space. A call that was done without results adds
/// nothing. If an allocation fails, nothing changed.
#[tactic(auto, using(crate::proofs::vocabulary::WordsOf::spaced_laws))]
pub fn push_reply(out: &mut Vec<u8>, reply: &Reply) -> Result<(), AllocError>
    ensures ok { OnOk result (out.new.items ≡ out.old.items ++ reply_line reply.now) }
    ensures err { OnErr result (out.new.items ≡ out.old.items) }
{
    let mut line = Vec::new(*out.allocator());
    push_reply_words(&mut line, reply)?;
    out.extend_from_slice(line.as_slice())
}

/// Appends the line of a call and its reply, without an end of line. If an allocation fails, nothing changed.
#[tactic(auto, using(crate::proofs::vocabulary::WordsOf::spaced_laws), unfolding(crate::specs::printing::Lines::exchange_line, crate::specs::printing::Calls::call_words))]
pub fn push_exchange(out: &mut Vec<u8>, exchange: &Exchange) -> Result<(), AllocError>
    ensures ok { OnOk result (out.new.items ≡ out.old.items ++ exchange_line exchange.now) }
    ensures err { OnErr result (out.new.items ≡ out.old.items) }
{
    let mut line = Vec::new(*out.allocator());
    push_call_words(&mut line, &exchange.call)?;
    push_reply_words(&mut line, &exchange.reply)?;
    out.extend_from_slice(line.as_slice())
}
