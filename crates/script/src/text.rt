ghost use Rattle.std.specs.Prelude.{◌≡◌, List, take, drop, MatchResult};
ghost use Rattle.std.specs.List.{prefix_len};
ghost use Rattle.script.specs.declared.printing.line.Exchange.{Exchange};
ghost use Rattle.script.specs.Lines.{line_read};
ghost use Rattle.script.specs.Scripts.{in_line, script_text, numbered, script_read, Adds, IsFault, AreExchanges};

use crate::fault::{LineFault, ScriptFault};
use crate::line::read_line;
use crate::printing::Exchange;
use std::alloc::Global;

/// A line of a script with a call.
#[derive(Drop)]
pub struct Line {
    /// The line's number, from 1.
    pub number: usize,
    /// The call of the line, and its reply.
    pub exchange: Exchange,
}

/// Returns the number of bytes before the first end of a line.
fn count_line_bytes(text: &[u8]) -> usize
    ensures { result ≡ prefix_len in_line text.now }
{
    text.iter().take_while(|byte| **byte != b'\n').count()
}

/// Returns the bytes after the first one.
fn after_first(text: &[u8]) -> &[u8]
    ensures { result.now ≡ drop 1 text.now }
{
    match text.split_first() {
        Some((_, beyond)) => beyond,
        None => text,
    }
}

/// Splits off the first line of a text, without its end.
fn first_line(text: &[u8]) -> (&[u8], &[u8])
    ensures line { result.0.now ≡ take (prefix_len in_line text.now) text.now }
    ensures rest { result.1.now ≡ drop 1 (drop (prefix_len in_line text.now) text.now) }
{
    let (line, rest) = text.split_at(count_line_bytes(text));
    (line, after_first(rest))
}

/// Appends the call of a line, if it has one.
fn add_line(
    alloc: Global,
    lines: &mut Vec<Line>,
    number: usize,
    line: &[u8],
) -> Result<(), LineFault>
    ensures { MatchResult result (λ _. Adds lines.old.items lines.new.items number (line_read line.now))
        (λ fault. IsFault fault fault (line_read line.now)) }
{
    let found = read_line(alloc, line)?;
    let Some(exchange) = found else {
        return Ok(());
    };
    match lines.push(Line { number, exchange }) {
        Ok(()) => Ok(()),
        Err(_) => Err(LineFault::NoMemory),
    }
}

/// Reads the calls of a script, line by line, with their replies. The fault is that of the first line that can't be
/// read. `Unreadable`: it isn't blank, a comment or a call with its reply. `NoMemory`: out of memory for its contents
/// or for the list of lines.
pub fn read_script(alloc: Global, text: &[u8]) -> Result<Vec<Line>, ScriptFault>
    ensures read { MatchResult result (λ lines. script_read text.now ≡ Ok lines.items)
        (λ fault. IsFault fault.fault fault (script_read text.now)) }
    ensures printed { (xs : List Exchange) → AreExchanges xs → text.now ≡ script_text xs
        → MatchResult result (λ lines. lines.items ≡ numbered 1 xs) (λ fault. fault.fault ≡ LineFault.NoMemory) }
{
    let mut lines = Vec::new(alloc);
    let mut rest = text;
    let mut number = 0;
    while !rest.is_empty() {
        number += 1;
        let (line, beyond) = first_line(rest);
        match add_line(alloc, &mut lines, number, line) {
            Ok(()) => rest = beyond,
            Err(fault) => {
                return Err(ScriptFault {
                    line: number,
                    fault,
                });
            }
        }
    }
    Ok(lines)
}
