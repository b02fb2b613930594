//! Spaces, each with its names and its kept reply.
ghost use Rattle.std.specs.Prelude.{◌≡◌, ◌<◌, ◌^◌, ◌∷◌, ◌++◌, ℕ, List, Option, option_copied, All, IfOk, IfSome, IsSomeAnd, OnOk, flat_map, length, map};
ghost use Rattle.codes.specs.StoreVersion.{current};
ghost use Rattle.image.specs.Fitting.{AscendsFrom, FitsKept, FitsNamed, FitsRow, FitsSpace, name_of};
ghost use Rattle.image.specs.Rows.{named_encoding, names_encoding_of, row_encoding_of, rows_of};
ghost use Rattle.ipc_model.specs.declared.reply.NumberedReply.{NumberedReply};
ghost use Rattle.ipc_model.specs.encodings.Images.{kept_encoding};
ghost use Rattle.snapshot.specs.declared.rows.NamedEntry.{NamedEntry};
ghost use Rattle.snapshot.specs.declared.rows.Space.{Space};

use crate::encoded::{push_length, push_rows, take_rows};
use codes::StoreVersion;
use ipc_model::{NumberedReply, Sequence};
use kept_reply::{push_kept_reply, take_kept_reply};
use snapshot::{NamedEntry, Space, ascends};
use std::alloc::{AllocError, Global};
use words::{push_word, take_word};

/// Splits off the kept reply of a space. In version 1 there is none.
fn take_kept(
    alloc: Global,
    version: StoreVersion,
    bytes: &[u8],
) -> Result<Option<(Option<NumberedReply>, &[u8])>, AllocError>
    ensures found { IfOk result (λ found. IfSome found
        (λ r. (bytes.now ≡ kept_encoding version r.0 ++ r.1.now) × FitsKept version r.0)) }
    ensures only { (kept : Option NumberedReply) (rest : List ℕ) → FitsKept version kept
        → bytes.now ≡ kept_encoding version kept ++ rest
        → IfOk result (λ found. IsSomeAnd found (λ r. (r.0 ≡ kept) × (r.1.now ≡ rest))) }
{
    match version {
        StoreVersion::One => Ok(Some((None, bytes))),
        StoreVersion::Two => take_request(alloc, bytes),
    }
}

/// Splits off the kept reply of a space in version 2.
fn take_request(
    alloc: Global,
    bytes: &[u8],
) -> Result<Option<(Option<NumberedReply>, &[u8])>, AllocError>
    ensures found { IfOk result (λ found. IfSome found
        (λ r. (bytes.now ≡ kept_encoding current r.0 ++ r.1.now) × FitsKept current r.0)) }
    ensures only { (kept : Option NumberedReply) (rest : List ℕ) → FitsKept current kept
        → bytes.now ≡ kept_encoding current kept ++ rest
        → IfOk result (λ found. IsSomeAnd found (λ r. (r.0 ≡ kept) × (r.1.now ≡ rest))) }
{
    let Some((request, rest)) = take_word(bytes) else {
        return Ok(None);
    };
    if request == 0 {
        return Ok(Some((None, rest)));
    }
    let Some((kept, rest)) = take_kept_reply(alloc, request, rest)? else {
        return Ok(None);
    };
    Ok(Some((Some(kept), rest)))
}

/// Splits off the names of a space.
fn take_names(
    alloc: Global,
    version: StoreVersion,
    bytes: &[u8],
) -> Result<Option<(Sequence<NamedEntry>, &[u8])>, AllocError>
    ensures found { IfOk result (λ found. IfSome found
        (λ r. (bytes.now ≡ names_encoding_of r.0 ++ r.1.now) × (length r.0 < 2 ^ 32) × All FitsNamed r.0
        × AscendsFrom 0 (map name_of r.0))) }
    ensures only { (names : List NamedEntry) (rest : List ℕ) → length names < 2 ^ 32 → All FitsNamed names
        → AscendsFrom 0 (map name_of names) → bytes.now ≡ names_encoding_of names ++ rest
        → IfOk result (λ found. IsSomeAnd found (λ r. (r.0 ≡ names) × (r.1.now ≡ rest))) }
{
    let Some((count, rest)) = take_word(bytes) else {
        return Ok(None);
    };
    let names: Option<(Sequence<NamedEntry>, &[u8])> = take_rows(alloc, version, count, rest)?;
    let Some((names, rest)) = names else {
        return Ok(None);
    };
    if !ascends(names.as_slice(), 0) {
        return Ok(None);
    }
    Ok(Some((names, rest)))
}

/// Splits off a space with its kept reply.
pub(crate) fn take_space(
    alloc: Global,
    version: StoreVersion,
    bytes: &[u8],
) -> Result<Option<(Space, Option<NumberedReply>, &[u8])>, AllocError>
    ensures found { IfOk result (λ found. IfSome found (λ r.
        (bytes.now ≡ row_encoding_of version (record { space = r.0; kept = r.1 }) ++ r.2.now)
        × FitsSpace r.0 × FitsKept version r.1)) }
    ensures only { (space : Space) (kept : Option NumberedReply) (rest : List ℕ) → FitsSpace space
        → FitsKept version kept
        → bytes.now ≡ row_encoding_of version (record { space = space; kept = kept }) ++ rest
        → IfOk result (λ found. IsSomeAnd found (λ r. (r.0 ≡ space) × (r.1 ≡ kept) × (r.2.now ≡ rest))) }
{
    let Some((number, rest)) = take_word(bytes) else {
        return Ok(None);
    };
    let Some((kept, rest)) = take_kept(alloc, version, rest)? else {
        return Ok(None);
    };
    let Some((names, rest)) = take_names(alloc, version, rest)? else {
        return Ok(None);
    };
    Ok(Some((Space { number, names }, kept, rest)))
}

/// Splits off `count` spaces with their kept replies.
pub(crate) fn take_all(
    alloc: Global,
    version: StoreVersion,
    count: u32,
    bytes: &[u8],
) -> Result<Option<(Sequence<Space>, Sequence<Option<NumberedReply>>, &[u8])>, AllocError>
    ensures found { IfOk result (λ found. IfSome found (λ r.
        (bytes.now ≡ flat_map (row_encoding_of version) (rows_of r.0 r.1) ++ r.2.now)
        × (length r.0 ≡ count) × (length r.1 ≡ count) × All (FitsRow version) (rows_of r.0 r.1))) }
    ensures only { (spaces : List Space) (kept : List (Option NumberedReply)) (rest : List ℕ)
        → All (FitsRow version) (rows_of spaces kept) → length spaces ≡ count → length kept ≡ count
        → bytes.now ≡ flat_map (row_encoding_of version) (rows_of spaces kept) ++ rest
        → IfOk result (λ found. IsSomeAnd found (λ r. (r.0 ≡ spaces) × (r.1 ≡ kept) × (r.2.now ≡ rest))) }
{
    let mut spaces = Vec::new(alloc);
    let mut all_kept = Vec::new(alloc);
    let mut rest = bytes;
    for _ in 0..count {
        let Some((space, kept, beyond)) = take_space(alloc, version, rest)? else {
            return Ok(None);
        };
        spaces.push(space)?;
        all_kept.push(kept)?;
        rest = beyond;
    }
    Ok(Some((Sequence::new(spaces), Sequence::new(all_kept), rest)))
}

/// Appends the kept reply of a space in the current version.
fn push_kept(out: &mut Vec<u8>, kept: Option<&NumberedReply>) -> Result<(), AllocError>
    ensures { OnOk result (out.new.items ≡ out.old.items ++ kept_encoding current (option_copied kept.entry)) }
{
    match kept {
        None => push_word(out, 0),
        Some(kept) => {
            push_word(out, kept.request)?;
            push_kept_reply(out, kept)
        }
    }
}

/// Appends a space with its kept reply in the current version.
fn push_space(
    out: &mut Vec<u8>,
    space: &Space,
    kept: Option<&NumberedReply>,
) -> Result<(), AllocError>
    ensures { OnOk result (out.new.items
        ≡ out.old.items ++ row_encoding_of current (record { space = space.now; kept = option_copied kept.entry })) }
{
    let names = space.names.as_slice();
    push_word(out, space.number)?;
    push_kept(out, kept)?;
    push_length(out, names.len())?;
    push_rows(out, names)?;
    Ok(())
}

/// Splits the kept replies of a list of spaces into that of the first space and the others.
fn first_kept(kept: &[Option<NumberedReply>]) -> (Option<&NumberedReply>, &[Option<NumberedReply>])
    ensures { (space : Space) (spaces : List Space) → rows_of (space ∷ spaces) kept.now
        ≡ record { space = space; kept = option_copied result.0 } ∷ rows_of spaces result.1.now }
{
    match kept.split_first() {
        Some((first, others)) => (first.as_ref(), others),
        None => (None, kept),
    }
}

/// Appends spaces, each with its kept reply, or with none if the list is too short.
pub(crate) fn push_all(
    out: &mut Vec<u8>,
    spaces: &[Space],
    kept: &[Option<NumberedReply>],
) -> Result<(), AllocError>
    ensures { OnOk result (out.new.items
        ≡ out.old.items ++ flat_map (row_encoding_of current) (rows_of spaces.now kept.now)) }
{
    let mut spaces_left = spaces;
    let mut kept_left = kept;
    while let Some((space, beyond)) = spaces_left.split_first() {
        let (first, others) = first_kept(kept_left);
        push_space(out, space, first)?;
        spaces_left = beyond;
        kept_left = others;
    }
    Ok(())
}
