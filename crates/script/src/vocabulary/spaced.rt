ghost use Rattle.std.specs.Prelude.{◌≡◌, ◌≤◌, ◌∷◌, [], ◌++◌, OnOk, length, MatchOption};
ghost use Rattle.std.specs.List.{prefix_len};
ghost use Rattle.script.specs.vocabulary.Spaced.{is_space, is_word_byte, words_of, word_end, column_of, spaced};

use std::alloc::AllocError;

/// Returns the number of spaces at the front.
fn count_spaces(text: &[u8]) -> usize
    ensures { result ≡ prefix_len is_space text.now }
{
    text.iter().take_while(|byte| **byte <= b' ').count()
}

/// Returns the length of the word at the front in bytes.
fn count_word_bytes(text: &[u8]) -> usize
    ensures { result ≡ prefix_len is_word_byte text.now }
{
    text.iter()
        .take_while(|byte| **byte > b' ' && **byte != b'#')
        .count()
}

/// Splits off the first word of a text. There is none before a `#` or the end.
pub fn take_word(text: &[u8]) -> Option<(&[u8], &[u8])>
    ensures { MatchOption result (words_of text.now ≡ []) (λ r. words_of text.now ≡ r.0.now ∷ words_of r.1.now) }
{
    let spaces = count_spaces(text);
    let (_, text) = text.split_at(spaces);
    let count = count_word_bytes(text);
    if count == 0 {
        return None;
    }
    Some(text.split_at(count))
}

/// Appends a word after a space. If an allocation fails, the space may have been appended.
#[tactic(auto, using(crate::proofs::vocabulary::WordsOf::spaced_one))]
pub fn push_spaced(line: &mut Vec<u8>, word: &[u8]) -> Result<(), AllocError>
    ensures { OnOk result (line.new.items ≡ line.old.items ++ spaced (word.now ∷ [])) }
{
    line.push(b' ')?;
    line.extend_from_slice(word)
}

/// Returns the number of words in a text.
pub fn count_words(text: &[u8]) -> usize
    ensures { result ≡ length (words_of text.now) }
{
    let mut count = 0;
    let mut rest = text;
    while let Some((_, beyond)) = take_word(rest) {
        count += 1;
        rest = beyond;
    }
    count
}

/// Returns the length in bytes of the first word and the spaces before it.
fn word_end(text: &[u8]) -> usize
    ensures end { result ≡ word_end text.now }
    ensures within { result ≤ length text.now }
{
    let spaces = count_spaces(text);
    let (_, beyond) = text.split_at(spaces);
    spaces + count_word_bytes(beyond)
}

/// Returns the offset in bytes of what follows the first `words` words of a line and the spaces after them.
pub fn column_of(line: &[u8], words: usize) -> usize
    ensures { result ≡ column_of words line.now }
{
    let mut column = 0;
    let mut rest = line;
    let mut left = words;
    while left > 0 {
        let end = word_end(rest);
        let (_, beyond) = rest.split_at(end);
        column += end;
        rest = beyond;
        left -= 1;
    }
    column + count_spaces(rest)
}
