ghost use Rattle.std.specs.Prelude.{◌≡◌, ◌≢◌, ◌<◌, ◌^◌, ◌++◌, [], ℕ, List, Option, All, IfOk, IfSome, IsErrOf, IsSomeAnd, MatchBool, OnOk, flat_map, length, map};
ghost use Rattle.image.specs.Fitting.{FitsImage, FitsLivePort, FitsRow, AscendsFrom, number_of, serial_of};
ghost use Rattle.image.specs.Rows.{live_port_encoding, row_encoding_of, rows_of, snapshot_encoding, snapshot_encoding_of};
ghost use Rattle.ipc_model.specs.declared.reply.NumberedReply.{NumberedReply};
ghost use Rattle.snapshot.specs.declared.rows.LivePort.{LivePort};
ghost use Rattle.snapshot.specs.declared.rows.Snapshot.{Snapshot};
ghost use Rattle.snapshot.specs.declared.rows.Space.{Space};
ghost use Rattle.words.specs.Words.{word};

use crate::ImageFault;
use crate::encoded::{push_length, push_rows, take_rows};
use crate::spaces::{push_all, take_all};
use codes::StoreVersion;
use ipc_model::{NumberedReply, Sequence};
use snapshot::{IpcSnapshot, LivePort, Snapshot, Space, ascends};
use std::alloc::{AllocError, Global};
use words::{push_long_word, take_long_word, take_word};

/// Splits off the number of spaces, then the spaces with their kept replies.
fn take_spaces(
    alloc: Global,
    version: StoreVersion,
    bytes: &[u8],
) -> Result<Option<(Sequence<Space>, Sequence<Option<NumberedReply>>, &[u8])>, AllocError>
    ensures found { IfOk result (λ found. IfSome found (λ r.
        (bytes.now ≡ word (length r.0) ++ (flat_map (row_encoding_of version) (rows_of r.0 r.1) ++ r.2.now))
        × (length r.0 < 2 ^ 32) × (length r.1 ≡ length r.0) × All (FitsRow version) (rows_of r.0 r.1)
        × AscendsFrom 0 (map number_of r.0))) }
    ensures only { (spaces : List Space) (kept : List (Option NumberedReply)) (rest : List ℕ)
        → length spaces < 2 ^ 32 → length kept ≡ length spaces → All (FitsRow version) (rows_of spaces kept)
        → AscendsFrom 0 (map number_of spaces)
        → bytes.now ≡ word (length spaces) ++ (flat_map (row_encoding_of version) (rows_of spaces kept) ++ rest)
        → IfOk result (λ found. IsSomeAnd found (λ r. (r.0 ≡ spaces) × (r.1 ≡ kept) × (r.2.now ≡ rest))) }
{
    let Some((count, rest)) = take_word(bytes) else {
        return Ok(None);
    };
    let Some((spaces, kept, rest)) = take_all(alloc, version, count, rest)? else {
        return Ok(None);
    };
    if !ascends(spaces.as_slice(), 0) {
        return Ok(None);
    }
    Ok(Some((spaces, kept, rest)))
}

/// Splits off the number of live ports, then the ports.
fn take_ports(
    alloc: Global,
    version: StoreVersion,
    bytes: &[u8],
) -> Result<Option<(Sequence<LivePort>, &[u8])>, AllocError>
    ensures found { IfOk result (λ found. IfSome found
        (λ r. (bytes.now ≡ word (length r.0) ++ (flat_map live_port_encoding r.0 ++ r.1.now))
        × (length r.0 < 2 ^ 32) × All FitsLivePort r.0 × AscendsFrom 0 (map serial_of r.0))) }
    ensures only { (ports : List LivePort) (rest : List ℕ) → length ports < 2 ^ 32 → All FitsLivePort ports
        → AscendsFrom 0 (map serial_of ports)
        → bytes.now ≡ word (length ports) ++ (flat_map live_port_encoding ports ++ rest)
        → IfOk result (λ found. IsSomeAnd found (λ r. (r.0 ≡ ports) × (r.1.now ≡ rest))) }
{
    let Some((count, rest)) = take_word(bytes) else {
        return Ok(None);
    };
    let ports: Option<(Sequence<LivePort>, &[u8])> = take_rows(alloc, version, count, rest)?;
    let Some((ports, rest)) = ports else {
        return Ok(None);
    };
    if !ascends(ports.as_slice(), 0) {
        return Ok(None);
    }
    Ok(Some((ports, rest)))
}

/// Returns true if there are no more bytes.
fn is_end(rest: &[u8]) -> bool
    ensures { MatchBool result (rest.now ≡ []) (rest.now ≢ []) }
{
    rest.is_empty()
}

/// Decodes a snapshot.
fn read_snapshot(
    alloc: Global,
    version: StoreVersion,
    bytes: &[u8],
) -> Result<Option<Snapshot>, AllocError>
    ensures found { IfOk result (λ found. IfSome found
        (λ snapshot. (bytes.now ≡ snapshot_encoding_of version snapshot) × FitsImage version snapshot)) }
    ensures only { (snapshot : Snapshot) → FitsImage version snapshot → bytes.now ≡ snapshot_encoding_of version snapshot
        → IfOk result (λ found. IsSomeAnd found (λ read. read ≡ snapshot)) }
{
    let Some((next_serial, rest)) = take_long_word(bytes) else {
        return Ok(None);
    };
    let Some((spaces, kept, rest)) = take_spaces(alloc, version, rest)? else {
        return Ok(None);
    };
    let Some((ports, rest)) = take_ports(alloc, version, rest)? else {
        return Ok(None);
    };
    if !is_end(rest) {
        return Ok(None);
    }
    let ipc = IpcSnapshot {
        next_serial,
        spaces,
        ports,
    };
    Ok(Some(Snapshot { ipc, kept }))
}

/// Decodes the image of a version to a snapshot. Its numbers fit their words, and its spaces, their names and its ports
/// ascend.
///
/// `NotCanonical`: the bytes are no such image. `NoMemory`: an allocation failed.
pub fn read(alloc: Global, version: StoreVersion, bytes: &[u8]) -> Result<Snapshot, ImageFault>
    ensures found { IfOk result (λ snapshot. (bytes.now ≡ snapshot_encoding_of version snapshot) × FitsImage version snapshot) }
    ensures only { (snapshot : Snapshot) → FitsImage version snapshot → bytes.now ≡ snapshot_encoding_of version snapshot
        → IfOk result (λ read. read ≡ snapshot) }
    ensures none { IsErrOf result ImageFault.NotCanonical → (snapshot : Snapshot) → FitsImage version snapshot
        → bytes.now ≡ snapshot_encoding_of version snapshot → ⊥ }
{
    match read_snapshot(alloc, version, bytes)? {
        Some(snapshot) => Ok(snapshot),
        None => Err(ImageFault::NotCanonical),
    }
}

/// Appends the encoding of a snapshot in the current version. If an allocation fails, part of it may have been
/// appended.
pub fn write_into(snapshot: &Snapshot, out: &mut Vec<u8>) -> Result<(), AllocError>
    ensures { OnOk result (out.new.items ≡ out.old.items ++ snapshot_encoding snapshot.now) }
{
    let (spaces, ports) = (
        snapshot.ipc.spaces.as_slice(),
        snapshot.ipc.ports.as_slice(),
    );
    push_long_word(out, snapshot.ipc.next_serial)?;
    push_length(out, spaces.len())?;
    push_all(out, spaces, snapshot.kept.as_slice())?;
    push_length(out, ports.len())?;
    push_rows(out, ports)?;
    Ok(())
}
