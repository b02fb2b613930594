ghost use Rattle.std.specs.Prelude.{◌≡◌, ◌<◌, MatchOption, None, Some, IfOk};
ghost use Rattle.script.specs.vocabulary.Spaced.{words_of};
ghost use Rattle.script.specs.Reading.{Gives, number_at, bounded_at, value_at, label_at, labelled_at, optional_at, flag_at};

use crate::fault::{Expected, Fault};
use crate::vocabulary::{Kind, take_word};

/// Reads a number, if there is one, and returns the text after it.
#[tactic(auto, unfolding(crate::specs::Reading::number_at))]
pub(crate) fn take_number(kind: Kind, text: &[u8]) -> Option<(u32, &[u8])>
    ensures { MatchOption result (number_at kind (words_of text.now) ≡ None)
        (λ r. number_at kind (words_of text.now) ≡ Some (r.0, words_of r.1.now)) }
{
    if let Kind::Absent = kind {
        return Some((0, text));
    }
    let (word, rest) = take_word(text)?;
    let number = kind.read_word(word)?;
    Some((number, rest))
}

/// Reads a number, and returns the text after it.
#[tactic(auto, unfolding(crate::specs::Reading::value_at))]
pub(crate) fn read_value(kind: Kind, text: &[u8]) -> Result<(u32, &[u8]), Fault>
    ensures { Gives (λ r. (r.0, words_of r.1.now)) result (value_at kind (words_of text.now)) }
{
    match take_number(kind, text) {
        Some(found) => Ok(found),
        None => Err(Fault::expected(Expected::Number, text)),
    }
}

/// Reads a number below a bound, and returns the text after it.
#[tactic(auto, unfolding(crate::specs::Reading::bounded_at))]
pub(crate) fn read_bounded(
    expected: Expected,
    kind: Kind,
    bound: u32,
    text: &[u8],
) -> Result<(u32, &[u8]), Fault>
    ensures read { Gives (λ r. (r.0, words_of r.1.now)) result (bounded_at expected kind bound (words_of text.now)) }
    ensures small { IfOk result (λ r. r.0 < bound) }
{
    let Some((number, rest)) = take_number(kind, text) else {
        return Err(Fault::expected(expected, text));
    };
    if number < bound {
        Ok((number, rest))
    } else {
        Err(Fault::expected(expected, text))
    }
}

/// Returns the text after this word, if it is the first.
#[tactic(auto, unfolding(crate::specs::Reading::label_at))]
pub(crate) fn after_label<'a>(label: &[u8], text: &'a [u8]) -> Option<&'a [u8]>
    ensures { MatchOption result (label_at label.now (words_of text.now) ≡ None)
        (λ rest. label_at label.now (words_of text.now) ≡ Some (words_of rest.now)) }
{
    let (word, rest) = take_word(text)?;
    if word == label { Some(rest) } else { None }
}

/// Reads the number after this label, which must be the first word.
#[tactic(auto, unfolding(crate::specs::Reading::labelled_at))]
pub(crate) fn read_labelled<'a>(
    label: &[u8],
    kind: Kind,
    text: &'a [u8],
) -> Result<(u32, &'a [u8]), Fault>
    ensures { Gives (λ r. (r.0, words_of r.1.now)) result (labelled_at label.now kind (words_of text.now)) }
{
    match after_label(label, text) {
        Some(rest) => read_value(kind, rest),
        None => Err(Fault::expected(Expected::Label, text)),
    }
}

/// Reads the number after this label, or returns 0 if the first word isn't the label.
#[tactic(auto, unfolding(crate::specs::Reading::optional_at))]
pub(crate) fn read_optional<'a>(
    label: &[u8],
    kind: Kind,
    text: &'a [u8],
) -> Result<(u32, &'a [u8]), Fault>
    ensures { Gives (λ r. (r.0, words_of r.1.now)) result (optional_at label.now kind (words_of text.now)) }
{
    match after_label(label, text) {
        Some(rest) => read_value(kind, rest),
        None => Ok((0, text)),
    }
}

/// Returns true and the text after this word if it is the first, else false and the text.
#[tactic(auto, unfolding(crate::specs::Reading::flag_at))]
pub(crate) fn read_flag<'a>(label: &[u8], text: &'a [u8]) -> (bool, &'a [u8])
    ensures { flag_at label.now (words_of text.now) ≡ (result.0, words_of result.1.now) }
{
    match after_label(label, text) {
        Some(rest) => (true, rest),
        None => (false, text),
    }
}
