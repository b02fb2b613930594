ghost use Rattle.script.specs.Lines.{UnlessMemory};
ghost use Rattle.relay.specs.shell.Asking.{answered_read, asked_read};

use ipc_model::Call;
use script::{Exchange, LineFault, read_line, read_request_line};
use std::alloc::Global;

/// The request of a line.
#[derive(Drop)]
pub enum Asked {
    /// Nothing: it is blank, or a comment.
    Nothing,
    /// A call, with any reply.
    Call(Call),
    /// A call, and its expected reply.
    Exchange(Exchange),
}

/// Reads the request of a line. A call without a reply accepts any reply, although in a script such a line means
/// success. `Unreadable`: the line is neither such a call nor a line of a script. `NoMemory`: out of memory for its
/// contents.
pub fn read_asked(alloc: Global, line: &[u8]) -> Result<Asked, LineFault>
    ensures { UnlessMemory result (asked_read line.now) }
{
    match read_request_line(alloc, line) {
        Ok(call) => Ok(Asked::Call(call)),
        Err(LineFault::NoMemory) => Err(LineFault::NoMemory),
        Err(LineFault::Unreadable { .. }) => read_answered(alloc, line),
    }
}

/// Reads the request of a line that isn't only a call.
fn read_answered(alloc: Global, line: &[u8]) -> Result<Asked, LineFault>
    ensures { UnlessMemory result (answered_read line.now) }
{
    match read_line(alloc, line)? {
        Some(exchange) => Ok(Asked::Exchange(exchange)),
        None => Ok(Asked::Nothing),
    }
}
