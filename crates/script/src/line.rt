ghost use Rattle.std.specs.Prelude.{◌≡◌, [], None, Some};
ghost use Rattle.ipc_model.specs.declared.call.Call.{Call};
ghost use Rattle.script.specs.vocabulary.Spaced.{words_of};
ghost use Rattle.script.specs.declared.printing.line.Exchange.{Exchange};
ghost use Rattle.script.specs.printing.Calls.{call_words, call_line};
ghost use Rattle.script.specs.printing.Lines.{exchange_words, exchange_line};
ghost use Rattle.script.specs.Calls.{HasLine};
ghost use Rattle.script.specs.Lines.{exchange_at, request_at, fault_of, line_read, request_read, IsExchange, IsRead, UnlessMemory};
ghost use Rattle.script.specs.Reading.{Gives};

use crate::call::read_call;
use crate::fault::{Expected, Fault, LineFault};
use crate::printing::Exchange;
use crate::reply::read_reply;
use crate::vocabulary::{column_of, count_words, take_word};
use ipc_model::Call;
use std::alloc::Global;

/// Returns the fault of a line.
fn line_fault(line: &[u8], fault: Fault) -> LineFault
    ensures { result ≡ fault_of line.now fault }
{
    match fault {
        Fault::Unreadable(place) => LineFault::Unreadable {
            column: column_of(line, count_words(line).saturating_sub(place.left)),
            expected: place.expected,
        },
        Fault::NoMemory => LineFault::NoMemory,
    }
}

/// Reads the call of a line and its reply.
#[tactic(auto, unfolding(crate::specs::Lines::exchange_at))]
fn read_words(alloc: Global, line: &[u8]) -> Result<Exchange, Fault>
    ensures { Gives (λ x. x) result (exchange_at (words_of line.now)) }
{
    let (call, rest) = read_call(alloc, line)?;
    let reply = read_reply(alloc, &call, rest)?;
    Ok(Exchange { call, reply })
}

/// Reads the call of a line without a reply.
#[tactic(auto, unfolding(crate::specs::Lines::request_at))]
fn read_request_words(alloc: Global, line: &[u8]) -> Result<Call, Fault>
    ensures { Gives (λ x. x) result (request_at (words_of line.now)) }
{
    let (call, rest) = read_call(alloc, line)?;
    if take_word(rest).is_some() {
        return Err(Fault::expected(Expected::End, rest));
    }
    Ok(call)
}

/// Reads the call of a line and its reply. Returns `None` if the line has no words: it is blank, or a comment.
/// `Unreadable`: it isn't such a line. `NoMemory`: out of memory for a message, names or members.
pub fn read_line(alloc: Global, line: &[u8]) -> Result<Option<Exchange>, LineFault>
    ensures only { (x : Exchange) → IsExchange x → line.now ≡ exchange_line x → IsRead result (Some x) }
    // The spaces between the words, and a comment after them, don't matter.
    ensures spaced { (x : Exchange) → IsExchange x → words_of line.now ≡ exchange_words x → IsRead result (Some x) }
    ensures blank { words_of line.now ≡ [] → result ≡ Ok None }
    // Any other line gives the result of the grammar for its words, or the place where reading stops and what was
    // expected there.
    ensures read { UnlessMemory result (line_read line.now) }
{
    let Some(_) = take_word(line) else {
        return Ok(None);
    };
    match read_words(alloc, line) {
        Ok(exchange) => Ok(Some(exchange)),
        Err(fault) => Err(line_fault(line, fault)),
    }
}

/// Reads the call of a line without a reply. `Unreadable`: it isn't such a line, or it has no words, or a reply.
/// `NoMemory`: out of memory for a message.
pub fn read_request_line(alloc: Global, line: &[u8]) -> Result<Call, LineFault>
    ensures only { (c : Call) → HasLine c → line.now ≡ call_line c → IsRead result c }
    ensures spaced { (c : Call) → HasLine c → words_of line.now ≡ call_words c → IsRead result c }
    ensures read { UnlessMemory result (request_read line.now) }
{
    match read_request_words(alloc, line) {
        Ok(call) => Ok(call),
        Err(fault) => Err(line_fault(line, fault)),
    }
}
