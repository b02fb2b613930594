// What a crash leaves of a disk in memory: its calls are done again, torn unless a sync came after them.
ghost use Rattle.std.specs.Prelude.{◌≡◌, length, take, IfOk, OnOk};
ghost use Rattle.disk.specs.Slots.{written_at, TornWrite, TornCut};
ghost use Rattle.disk.specs.Log.{slots_of, seen_after};
ghost use Rattle.disk.specs.Crashes.{Tears};

use crate::Torn;
use crate::log::{Contents, LoggedCall};
use std::alloc::{AllocError, Global};

/// The first bytes of a slot, at most `len`.
pub fn front(alloc: Global, bytes: &[u8], len: u64) -> Result<Vec<u8>, AllocError>
    ensures { IfOk result (λ new. new.items ≡ take len bytes.now) }
{
    let len = bytes.len().min(len as usize);
    bytes[..len].to_vec(alloc)
}

/// A slot's bytes after a write.
pub fn overwritten(alloc: Global, old: &[u8], at: u64, bytes: &[u8]) -> Result<Vec<u8>, AllocError>
    ensures { IfOk result (λ new. new.items ≡ written_at old.now at bytes.now) }
{
    let mut new = front(alloc, old, at)?;
    new.extend_from_slice(bytes)?;
    if bytes.len() < old.len().saturating_sub(at as usize) {
        new.extend_from_slice(&old[at as usize + bytes.len()..])?;
    }
    Ok(new)
}

// The bytes of a range after a torn write over the bytes that stood there before.
fn torn_range(alloc: Global, torn: Torn, below: &[u8], bytes: &[u8]) -> Result<Vec<u8>, AllocError>
    ensures { IfOk result (λ new. length new.items ≡ length bytes.now) }
{
    let kept = match torn {
        Torn::New => bytes.len(),
        Torn::Half => bytes.len().div_ceil(2),
        Torn::Old | Torn::Fill(_) => 0,
    };
    let mut new = Vec::new(alloc);
    for (index, byte) in bytes.iter().enumerate() {
        new.push(match torn {
            Torn::Fill(fill) => fill,
            _ if index < kept => *byte,
            _ => below.get(index).copied().unwrap_or(0),
        })?;
    }
    Ok(new)
}

fn torn_write(
    alloc: Global,
    torn: Torn,
    old: &[u8],
    at: u64,
    bytes: &[u8],
) -> Result<Vec<u8>, AllocError>
    ensures { IfOk result (λ new. TornWrite at (length bytes.now) old.now new.items) }
{
    // The least length may lie before the write, and then none of it is left.
    if torn == Torn::Old || at > old.len() as u64 {
        return old.to_vec(alloc);
    }
    let range = torn_range(alloc, torn, &old[at as usize..], bytes)?;
    overwritten(alloc, old, at, &range)
}

fn torn_cut(alloc: Global, torn: Torn, old: &[u8], len: u64) -> Result<Vec<u8>, AllocError>
    ensures { IfOk result (λ new. TornCut len old.now new.items) }
{
    match torn {
        Torn::Old => front(alloc, old, len),
        _ => old.to_vec(alloc),
    }
}

/// Does a call again: in `seen` as it was done, and in `left` as a crash may leave it.
pub fn redo(
    alloc: Global,
    torn: Torn,
    call: &LoggedCall,
    seen: &mut Contents,
    left: &mut Contents,
) -> Result<(), AllocError>
    ensures seen { OnOk result (slots_of seen.new ≡ seen_after call.now (slots_of seen.old)) }
    ensures left { OnOk result (Tears call.now (slots_of seen.old) (slots_of left.old) (slots_of left.new)) }
{
    match call {
        LoggedCall::Write {
            slot,
            at,
            bytes,
            is_done,
        } => {
            let at = (*at).min(seen.slot(*slot).len() as u64);
            left.set(*slot, torn_write(alloc, torn, left.slot(*slot), at, bytes)?);
            if *is_done {
                seen.set(*slot, overwritten(alloc, seen.slot(*slot), at, bytes)?);
            }
        }
        LoggedCall::Cut { slot, len, is_done } => {
            left.set(*slot, torn_cut(alloc, torn, left.slot(*slot), *len)?);
            if *is_done {
                seen.set(*slot, front(alloc, seen.slot(*slot), *len)?);
            }
        }
        LoggedCall::Sync { slot } => left.set(*slot, seen.slot(*slot).to_vec(alloc)?),
    }
    Ok(())
}
