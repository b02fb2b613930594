ghost use Rattle.std.specs.Prelude.{◌≡◌, ◌<◌, ◌++◌, ℕ, List, All, IfOk, IfSome, IsSomeAnd, OnOk, flat_map, length};
ghost use Rattle.codes.specs.StoreVersion.{current};
ghost use Rattle.codes.specs.declared.store_version.StoreVersion.{StoreVersion};
ghost use Rattle.words.specs.Words.{word};

use codes::StoreVersion;
use ipc_model::Sequence;
use std::alloc::{AllocError, Global};
use words::push_word;

/// A value with its own encoding in an image.
pub(crate) trait Encoded: Drop {
    /// The value's encoding in an image of this version.
    ghost encoding: { StoreVersion → Self → List ℕ };

    /// An image can encode the value.
    ghost fits: { Self → Type 0 };

    /// Splits off the value's encoding and decodes it.
    fn take(
        alloc: Global,
        version: StoreVersion,
        bytes: &[u8],
    ) -> Result<Option<(Self, &[u8])>, AllocError>
        ensures found { IfOk result
            (λ found. IfSome found (λ r. (bytes.now ≡ encoding version r.0 ++ r.1.now) × fits r.0)) }
        ensures only { (value : Self) (rest : List ℕ) → fits value → bytes.now ≡ encoding version value ++ rest
            → IfOk result (λ found. IsSomeAnd found (λ r. (r.0 ≡ value) × (r.1.now ≡ rest))) };

    /// Appends the value's encoding in the current version. If an allocation fails, part of it may have been appended.
    fn push(&self, out: &mut Vec<u8>) -> Result<(), AllocError>
        ensures { OnOk result (out.new.items ≡ out.old.items ++ encoding current self.now) };
}

/// Splits off and decodes `count` values.
pub(crate) fn take_rows<T: Encoded>(
    alloc: Global,
    version: StoreVersion,
    count: u32,
    bytes: &[u8],
) -> Result<Option<(Sequence<T>, &[u8])>, AllocError>
    ensures found { IfOk result (λ found. IfSome found (λ r. (bytes.now ≡ flat_map (T.encoding version) r.0 ++ r.1.now)
        × (length r.0 ≡ count) × All T.fits r.0)) }
    ensures only { (rows : List T) (rest : List ℕ) → All T.fits rows → length rows ≡ count
        → bytes.now ≡ flat_map (T.encoding version) rows ++ rest
        → IfOk result (λ found. IsSomeAnd found (λ r. (r.0 ≡ rows) × (r.1.now ≡ rest))) }
{
    let mut rows = Vec::new(alloc);
    let mut rest = bytes;
    for _ in 0..count {
        let Some((row, beyond)) = T::take(alloc, version, rest)? else {
            return Ok(None);
        };
        rows.push(row)?;
        rest = beyond;
    }
    Ok(Some((Sequence::new(rows), rest)))
}

/// Appends a number of rows or bytes. A number that doesn't fit its word exceeds any memory, so it counts as out of
/// memory. In that case nothing changed.
pub(crate) fn push_length(out: &mut Vec<u8>, length: usize) -> Result<(), AllocError>
    ensures { OnOk result (out.new.items ≡ out.old.items ++ word length) }
{
    let Ok(length) = u32::try_from(length) else {
        return Err(AllocError);
    };
    push_word(out, length)
}

/// Appends the encodings of values, one after another. If an allocation fails, part of them may have been appended.
pub(crate) fn push_rows<T: Encoded>(out: &mut Vec<u8>, rows: &[T]) -> Result<(), AllocError>
    ensures { OnOk result (out.new.items ≡ out.old.items ++ flat_map (T.encoding current) rows.now) }
{
    let mut rest = rows;
    while let Some((row, beyond)) = rest.split_first() {
        row.push(out)?;
        rest = beyond;
    }
    Ok(())
}
