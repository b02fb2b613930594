ghost use Rattle.std.specs.Prelude.{◌≡◌, ◌≤◌, length, codes, ◌++◌, ◌∷◌, IfSome};
ghost use Rattle.std.specs.List.{prefix_len};
ghost use Rattle.script_runner.specs.Lines.{encoding_length, before_comment, is_space, after_spaces, word_length, first_word, after_first, IsDirective};

use std::str;

/// The meaning of a script's line, by its first word.
#[derive(Clone, Copy)]
pub enum Directive<'a> {
    /// An empty line or a comment.
    Nothing,
    /// The script is only run straight: without crashes.
    Straight,
    /// A new connection, whose task is attached to space 1.
    Connect,
    /// The expected length of segment 0.
    Slot { length: u64 },
    /// The hexadecimal digits of the contents of a frame and its reply.
    Frame { sent: &'a [u8], wanted: &'a [u8] },
    /// The number of repetitions, and the call, with its return code if it is refused.
    Repeat { times: u32, call: &'a [u8] },
    /// A call and its reply, or a line that can't be read.
    Call,
}

/// Returns the length of a line before its comment in bytes.
fn encoding_length(line: &[u8]) -> usize
    ensures value { result ≡ encoding_length line.now }
    ensures within { result ≤ length line.now }
{
    line.iter().take_while(|byte| **byte != b'#').count()
}

/// Returns the number of spaces at the front.
fn count_spaces(line: &[u8]) -> usize
    ensures value { result ≡ prefix_len is_space line.now }
    ensures within { result ≤ length line.now }
{
    line.iter().take_while(|byte| **byte <= b' ').count()
}

/// Returns the length of the first word in bytes.
fn word_length(text: &[u8]) -> usize
    ensures value { result ≡ word_length text.now }
    ensures within { result ≤ length text.now }
{
    text.iter().take_while(|byte| **byte > b' ').count()
}

/// Returns the line without its comment.
fn without_comment(line: &[u8]) -> &[u8]
    ensures { result.now ≡ before_comment line.now }
{
    let (text, _) = line.split_at(encoding_length(line));
    text
}

/// Returns a line without the spaces at the front.
fn without_spaces(line: &[u8]) -> &[u8]
    ensures { result.now ≡ after_spaces line.now }
{
    let (_, text) = line.split_at(count_spaces(line));
    text
}

/// Splits off the first word of a line, which is empty if there is none.
fn take_word(line: &[u8]) -> (&[u8], &[u8])
    ensures word { result.0.now ≡ first_word line.now }
    ensures rest { result.1.now ≡ after_first line.now }
{
    let text = without_spaces(line);
    text.split_at(word_length(text))
}

/// Returns the number with these decimal digits.
fn number_of(word: &[u8]) -> Option<u32> {
    let Ok(word) = str::from_utf8(word) else {
        return None;
    };
    word.parse::<u32>().ok()
}

/// Returns the expected length of segment 0, from the words after `slot`.
fn slot_length(rest: &[u8]) -> Option<u64>
    ensures { IfSome result (λ _. first_word rest.now ≡ codes "segment0") }
{
    let (name, rest) = take_word(rest);
    if name != b"segment0".as_slice() {
        return None;
    }
    let (length, _) = take_word(rest);
    Some(u64::from(number_of(length)?))
}

/// Splits a text at the first `=`.
fn sides(text: &[u8]) -> Option<(&[u8], &[u8])>
    ensures { IfSome result (λ r. text.now ≡ r.0.now ++ 61 ∷ r.1.now) }
{
    let count = text.iter().take_while(|byte| **byte != b'=').count();
    let (front, rest) = text.split_at(count);
    match rest {
        [b'=', beyond @ ..] => Some((front, beyond)),
        _ => None,
    }
}

/// Returns the number of repetitions and the call, from the words after `repeat`.
fn repeated(rest: &[u8]) -> Option<(u32, &[u8])>
    ensures { IfSome result (λ r. r.1.now ≡ after_first rest.now) }
{
    let (times, call) = take_word(rest);
    Some((number_of(times)?, call))
}

/// Returns the meaning of a line. A line that begins like a directive but isn't one counts as a call, which then can't
/// be read.
pub fn directive_of(line: &[u8]) -> Directive<'_>
    ensures { IsDirective result (before_comment line.now) }
{
    let line = without_comment(line);
    let (word, rest) = take_word(line);
    if word.is_empty() {
        return Directive::Nothing;
    }
    if word == b"straight".as_slice() {
        return Directive::Straight;
    }
    if word == b"connect".as_slice() {
        return Directive::Connect;
    }
    if word == b"slot".as_slice()
        && let Some(length) = slot_length(rest)
    {
        return Directive::Slot { length };
    }
    if word == b"frame".as_slice()
        && let Some((sent, wanted)) = sides(rest)
    {
        return Directive::Frame { sent, wanted };
    }
    if word == b"repeat".as_slice()
        && let Some((times, call)) = repeated(rest)
    {
        return Directive::Repeat { times, call };
    }
    Directive::Call
}
