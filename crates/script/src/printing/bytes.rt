ghost use Rattle.std.specs.Prelude.{◌≡◌, ◌++◌, [], ◌∷◌, OnOk};
ghost use Rattle.script.specs.vocabulary.Spaced.{spaced};
ghost use Rattle.script.specs.printing.Bytes.{bytes_word, optional_bytes};

use crate::vocabulary::push_spaced;
use std::alloc::AllocError;

/// Appends bytes as a word, after a space. If an allocation fails, part of it may have been appended.
#[tactic(auto, unfolding(crate::specs::printing::Bytes::bytes_word))]
pub(crate) fn push_bytes(line: &mut Vec<u8>, bytes: &[u8]) -> Result<(), AllocError>
    ensures { OnOk result (line.new.items ≡ line.old.items ++ spaced (bytes_word bytes.now ∷ [])) }
{
    if bytes.is_empty() {
        return push_spaced(line, b"none");
    }
    let text = hex::encode(*line.allocator(), bytes)?;
    push_spaced(line, text.as_bytes())
}

/// Appends a label and bytes, if there are any bytes.
#[tactic(auto, using(crate::proofs::vocabulary::WordsOf::spaced_laws), unfolding(crate::specs::printing::Bytes::optional_bytes))]
pub(crate) fn push_optional_bytes(
    line: &mut Vec<u8>,
    label: &[u8],
    bytes: &[u8],
) -> Result<(), AllocError>
    ensures { OnOk result (line.new.items ≡ line.old.items ++ spaced (optional_bytes label.now bytes.now)) }
{
    if bytes.is_empty() {
        return Ok(());
    }
    push_spaced(line, label)?;
    push_bytes(line, bytes)
}
