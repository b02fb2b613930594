ghost use Rattle.std.specs.Prelude.{◌≡◌, ◌++◌, decimal, IfOk, OnOk};
ghost use Rattle.relay.specs.shell.Telling.{answered_line, column_encoding, difference_line, expected_place, expected_text, expected_words, is_same_reply, long_line, place_encoding, strange_line, wrong_line};

use ipc_model::{Call, Reply};
use script::{Expected, push_call, push_reply};
use std::alloc::{AllocError, Global};

/// Appends a number in decimal digits.
fn push_decimal(out: &mut Vec<u8>, number: u64) -> Result<(), AllocError>
    ensures { OnOk result (out.new.items ≡ out.old.items ++ decimal number) }
{
    let text = format!(in *out.allocator(); "{number}")?;
    out.extend_from_slice(text.as_bytes())
}

/// Appends the beginning of a comment on a line.
#[tactic(auto, unfolding(crate::specs::shell::Telling::place_encoding))]
fn push_place(out: &mut Vec<u8>, number: u64) -> Result<(), AllocError>
    ensures { OnOk result (out.new.items ≡ out.old.items ++ place_encoding number) }
{
    out.extend_from_slice(b"# line ")?;
    push_decimal(out, number)
}

/// Appends a comment on a line.
fn push_comment(out: &mut Vec<u8>, number: u64, words: &[u8]) -> Result<(), AllocError>
    ensures { OnOk result (out.new.items ≡ out.old.items ++ (place_encoding number ++ words.now)) }
{
    push_place(out, number)?;
    out.extend_from_slice(words)
}

/// Appends three parts.
fn push_parts(
    out: &mut Vec<u8>,
    first: &[u8],
    second: &[u8],
    third: &[u8],
) -> Result<(), AllocError>
    ensures { OnOk result (out.new.items ≡ out.old.items ++ (first.now ++ (second.now ++ third.now))) }
{
    out.extend_from_slice(first)?;
    out.extend_from_slice(second)?;
    out.extend_from_slice(third)
}

/// Returns a description of what was expected in a line that can't be read.
fn expected_words(expected: Expected) -> &'static [u8]
    ensures { result.now ≡ expected_words expected }
{
    match expected {
        Expected::CallName => b"the name of a call",
        Expected::Number => b"a number or a word for one",
        Expected::Bytes => b"bytes, two hexadecimal digits each, or none",
        Expected::Message => b"a message",
        Expected::Item => b"an item of at most 4095 elements",
        Expected::Code => b"a return code",
        Expected::Results => b"what the call answered",
        Expected::Label => b"the word for what follows",
        Expected::YesOrNo => b"yes or no",
        Expected::RightKind => b"receive, send or send_once",
        Expected::End => b"the end of the line",
    }
}

/// Appends a column.
#[tactic(auto, unfolding(crate::specs::shell::Telling::column_encoding))]
fn push_column(out: &mut Vec<u8>, column: usize) -> Result<(), AllocError>
    ensures { OnOk result (out.new.items ≡ out.old.items ++ column_encoding column) }
{
    out.extend_from_slice(b", column ")?;
    push_decimal(out, column as u64)
}

/// Appends what was expected, and the end of the line.
#[tactic(auto, unfolding(crate::specs::shell::Telling::expected_text))]
fn push_expected(out: &mut Vec<u8>, expected: Expected) -> Result<(), AllocError>
    ensures { OnOk result (out.new.items ≡ out.old.items ++ expected_text expected) }
{
    push_parts(out, b": expected ", expected_words(expected), b"\n")
}

/// Appends the comment about a line that can't be read. If an allocation fails, part of it may have been appended.
pub fn push_wrong(
    out: &mut Vec<u8>,
    number: u64,
    column: usize,
    expected: Expected,
) -> Result<(), AllocError>
    ensures { OnOk result (out.new.items ≡ out.old.items ++ wrong_line number column expected) }
{
    push_place(out, number)?;
    push_column(out, column)?;
    push_expected(out, expected)
}

/// Appends the comment about a line whose call is too long for a frame. If an allocation fails, part of it may have
/// been appended.
pub fn push_long(out: &mut Vec<u8>, number: u64) -> Result<(), AllocError>
    ensures { OnOk result (out.new.items ≡ out.old.items ++ long_line number) }
{
    push_comment(out, number, b": a message that is too long for a frame\n")
}

/// Appends the comment about a line whose call got a frame that isn't a reply to it. If an allocation fails, part of it
/// may have been appended.
pub fn push_strange(out: &mut Vec<u8>, number: u64) -> Result<(), AllocError>
    ensures { OnOk result (out.new.items ≡ out.old.items ++ strange_line number) }
{
    push_comment(out, number, b": a reply that isn't one of this call\n")
}

/// Appends the line of a call and its reply. If an allocation fails, part of it may have been appended.
#[tactic(auto, unfolding(crate::specs::shell::Telling::answered_line))]
pub fn push_answered(out: &mut Vec<u8>, call: &Call, reply: &Reply) -> Result<(), AllocError>
    ensures { OnOk result (out.new.items ≡ out.old.items ++ answered_line call.now reply.now) }
{
    push_call(out, call)?;
    push_reply(out, reply)?;
    out.extend_from_slice(b"\n")
}

/// Appends the beginning of the comment about a line with another reply.
#[tactic(auto, unfolding(crate::specs::shell::Telling::expected_place))]
fn push_expected_place(out: &mut Vec<u8>, number: u64) -> Result<(), AllocError>
    ensures { OnOk result (out.new.items ≡ out.old.items ++ expected_place number) }
{
    push_comment(out, number, b", expected: ")
}

/// Appends the comment about a line with another reply than its call got. If an allocation fails, part of it may have
/// been appended.
pub fn push_difference(
    out: &mut Vec<u8>,
    number: u64,
    call: &Call,
    wanted: &Reply,
) -> Result<(), AllocError>
    ensures { OnOk result (out.new.items ≡ out.old.items ++ difference_line number call.now wanted.now) }
{
    push_expected_place(out, number)?;
    push_answered(out, call, wanted)
}

/// Returns true if two replies have the same line.
pub fn is_same_reply(alloc: Global, reply: &Reply, wanted: &Reply) -> Result<bool, AllocError>
    ensures { IfOk result (λ same. same ≡ is_same_reply reply.now wanted.now) }
{
    let mut first = Vec::new(alloc);
    push_reply(&mut first, reply)?;
    let mut second = Vec::new(alloc);
    push_reply(&mut second, wanted)?;
    Ok(first.as_slice() == second.as_slice())
}
