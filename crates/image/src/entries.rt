ghost use Rattle.std.specs.Prelude.{◌≡◌, ◌<◌, ◌^◌, ◌++◌, ◌∷◌, [], ℕ, Bool, List, Option, IfSome, IsSomeAnd, OnOk};
ghost use Rattle.image.specs.Fitting.{FitsNamed};
ghost use Rattle.ipc_laws.specs.ImageLaws.{EncodableEntry, EncodableTarget};
ghost use Rattle.image.specs.Rows.{named_encoding};
ghost use Rattle.ipc_model.specs.declared.entry.Entry.{Entry};
ghost use Rattle.ipc_model.specs.declared.entry.Entry.TheVariants as entry_variants;
ghost use Rattle.ipc_model.specs.declared.entry.PortRights.{PortRights};
ghost use Rattle.ipc_model.specs.encodings.Images.{entry_encoding, number_or_0};
ghost use Rattle.ipc_model.specs.encodings.PlainCalls.{number_of_bool};
ghost use Rattle.snapshot.specs.declared.rows.NamedEntry.{NamedEntry};
ghost use Rattle.words.specs.Words.{word, long_word};

use crate::encoded::Encoded;
use codes::StoreVersion;
use ipc_model::{Entry, PortRights};
use snapshot::NamedEntry;
use std::alloc::{AllocError, Global};
use words::{push_long_word, push_word, take_long_word, take_word};

/// Returns the serial that a number encodes, or `None` for 0.
pub(crate) fn target_of(number: u64) -> Option<u64>
    ensures encoded { number ≡ number_or_0 result }
    ensures fits { EncodableTarget result }
    ensures only { (target : Option ℕ) → EncodableTarget target → number ≡ number_or_0 target → result ≡ target }
{
    match number {
        0 => None,
        _ => Some(number),
    }
}

/// Appends a serial, or 0 for none. If an allocation fails, nothing changed.
pub(crate) fn push_target(out: &mut Vec<u8>, target: Option<u64>) -> Result<(), AllocError>
    ensures { OnOk result (out.new.items ≡ out.old.items ++ long_word (number_or_0 target)) }
{
    push_long_word(out, target.unwrap_or(0))
}

/// Appends a byte. If an allocation fails, nothing changed.
pub(crate) fn push_byte(out: &mut Vec<u8>, byte: u8) -> Result<(), AllocError>
    ensures { OnOk result (out.new.items ≡ out.old.items ++ (byte ∷ [])) }
{
    out.push(byte)?;
    Ok(())
}

/// Splits off a byte.
pub(crate) fn take_byte(bytes: &[u8]) -> Option<(u8, &[u8])>
    ensures found { IfSome result (λ r. bytes.now ≡ r.0 ∷ r.1.now) }
    ensures only { (byte : ℕ) (rest : List ℕ) → bytes.now ≡ byte ∷ rest
        → IsSomeAnd result (λ r. (r.0 ≡ byte) × (r.1.now ≡ rest)) }
{
    let (byte, rest) = bytes.split_first()?;
    Some((*byte, rest))
}

/// Splits off a flag.
pub(crate) fn take_flag(bytes: &[u8]) -> Option<(bool, &[u8])>
    ensures found { IfSome result (λ r. bytes.now ≡ number_of_bool r.0 ∷ r.1.now) }
    ensures only { (flag : Bool) (rest : List ℕ) → bytes.now ≡ number_of_bool flag ∷ rest
        → IsSomeAnd result (λ r. (r.0 ≡ flag) × (r.1.now ≡ rest)) }
{
    match take_byte(bytes)? {
        (0, rest) => Some((false, rest)),
        (1, rest) => Some((true, rest)),
        _ => None,
    }
}

/// Returns the byte of a flag.
pub(crate) fn byte_of(flag: bool) -> u8
    ensures { result ≡ number_of_bool flag }
{
    u8::from(flag)
}

/// Splits off a port, the flag of its receive right, the references of its send right and the target of the name's
/// request.
fn take_held(bytes: &[u8]) -> Option<(u64, bool, u32, u64, &[u8])>
    ensures found { IfSome result (λ r. bytes.now ≡ long_word r.0
        ++ (number_of_bool r.1 ∷ (word r.2 ++ (long_word r.3 ++ r.4.now)))) }
    ensures fits { IfSome result (λ r. (r.0 < 2 ^ 64) × (r.2 < 2 ^ 32) × (r.3 < 2 ^ 64)) }
    ensures only { (port : ℕ) (receive : Bool) (send target : ℕ) (rest : List ℕ) → port < 2 ^ 64 → send < 2 ^ 32
        → target < 2 ^ 64
        → bytes.now ≡ long_word port ++ (number_of_bool receive ∷ (word send ++ (long_word target ++ rest)))
        → IsSomeAnd result (λ r. (r.0 ≡ port) × (r.1 ≡ receive) × (r.2 ≡ send) × (r.3 ≡ target) × (r.4.now ≡ rest)) }
{
    let (port, rest) = take_long_word(bytes)?;
    let (receive, rest) = take_flag(rest)?;
    let (send, rest) = take_word(rest)?;
    let (target, rest) = take_long_word(rest)?;
    Some((port, receive, send, target, rest))
}

/// Decodes the rights to a port, after the byte that announces them.
fn take_rights(bytes: &[u8]) -> Option<(Entry, &[u8])>
    ensures found { IfSome result (λ r. (1 ∷ bytes.now ≡ entry_encoding r.0 ++ r.1.now) × EncodableEntry r.0) }
    ensures only { (rights : PortRights) (rest : List ℕ) → EncodableEntry (entry_variants.Port rights)
        → 1 ∷ bytes.now ≡ entry_encoding (entry_variants.Port rights) ++ rest
        → IsSomeAnd result (λ r. (r.0 ≡ entry_variants.Port rights) × (r.1.now ≡ rest)) }
{
    let (port, receive, send, target, rest) = take_held(bytes)?;
    let rights = PortRights {
        port,
        receive,
        send,
        dead_name_target: target_of(target),
    };
    Some((Entry::Port(rights), rest))
}

/// Splits off two serials.
pub(crate) fn take_serials(bytes: &[u8]) -> Option<(u64, u64, &[u8])>
    ensures found { IfSome result (λ r. bytes.now ≡ long_word r.0 ++ (long_word r.1 ++ r.2.now)) }
    ensures fits { IfSome result (λ r. (r.0 < 2 ^ 64) × (r.1 < 2 ^ 64)) }
    ensures only { (first second : ℕ) (rest : List ℕ) → first < 2 ^ 64 → second < 2 ^ 64
        → bytes.now ≡ long_word first ++ (long_word second ++ rest)
        → IsSomeAnd result (λ r. (r.0 ≡ first) × (r.1 ≡ second) × (r.2.now ≡ rest)) }
{
    let (first, rest) = take_long_word(bytes)?;
    let (second, rest) = take_long_word(rest)?;
    Some((first, second, rest))
}

/// Decodes a send-once right, after the byte that announces it.
fn take_send_once(bytes: &[u8]) -> Option<(Entry, &[u8])>
    ensures found { IfSome result (λ r. (2 ∷ bytes.now ≡ entry_encoding r.0 ++ r.1.now) × EncodableEntry r.0) }
    ensures only { (port : ℕ) (target : Option ℕ) (rest : List ℕ) → EncodableEntry (entry_variants.SendOnce port target)
        → 2 ∷ bytes.now ≡ entry_encoding (entry_variants.SendOnce port target) ++ rest
        → IsSomeAnd result (λ r. (r.0 ≡ entry_variants.SendOnce port target) × (r.1.now ≡ rest)) }
{
    let (port, target, rest) = take_serials(bytes)?;
    let entry = Entry::SendOnce {
        port,
        dead_name_target: target_of(target),
    };
    Some((entry, rest))
}

/// Splits off the entry of a name.
fn take_entry(bytes: &[u8]) -> Option<(Entry, &[u8])>
    ensures found { IfSome result (λ r. (bytes.now ≡ entry_encoding r.0 ++ r.1.now) × EncodableEntry r.0) }
    ensures only { (entry : Entry) (rest : List ℕ) → EncodableEntry entry → bytes.now ≡ entry_encoding entry ++ rest
        → IsSomeAnd result (λ r. (r.0 ≡ entry) × (r.1.now ≡ rest)) }
{
    let (kind, rest) = take_byte(bytes)?;
    match kind {
        1 => take_rights(rest),
        2 => take_send_once(rest),
        3 => Some((Entry::Set, rest)),
        4 => {
            let (references, rest) = take_word(rest)?;
            Some((Entry::Dead { references }, rest))
        }
        _ => None,
    }
}

/// Appends a send-once right, with the byte that announces it. If an allocation fails, part of it may have been
/// appended.
fn push_send_once(out: &mut Vec<u8>, port: u64, target: Option<u64>) -> Result<(), AllocError>
    ensures { OnOk result (out.new.items ≡ out.old.items ++ entry_encoding (entry_variants.SendOnce port target)) }
{
    push_byte(out, 2)?;
    push_long_word(out, port)?;
    push_target(out, target)?;
    Ok(())
}

/// Appends the entry of a name. If an allocation fails, part of it may have been appended.
fn push_entry(out: &mut Vec<u8>, entry: Entry) -> Result<(), AllocError>
    ensures { OnOk result (out.new.items ≡ out.old.items ++ entry_encoding entry) }
{
    match entry {
        Entry::Port(rights) => {
            push_byte(out, 1)?;
            push_long_word(out, rights.port)?;
            push_byte(out, byte_of(rights.receive))?;
            push_word(out, rights.send)?;
            push_target(out, rights.dead_name_target)
        }
        Entry::SendOnce {
            port,
            dead_name_target,
        } => push_send_once(out, port, dead_name_target),
        Entry::Set => push_byte(out, 3),
        Entry::Dead { references } => {
            push_byte(out, 4)?;
            push_word(out, references)
        }
    }
}

/// Splits off a name with its entry.
fn take_named(bytes: &[u8]) -> Option<(NamedEntry, &[u8])>
    ensures found { IfSome result (λ r. (bytes.now ≡ named_encoding r.0 ++ r.1.now) × FitsNamed r.0) }
    ensures only { (row : NamedEntry) (rest : List ℕ) → FitsNamed row → bytes.now ≡ named_encoding row ++ rest
        → IsSomeAnd result (λ r. (r.0 ≡ row) × (r.1.now ≡ rest)) }
{
    let (name, rest) = take_word(bytes)?;
    let (entry, rest) = take_entry(rest)?;
    Some((NamedEntry { name, entry }, rest))
}

impl Encoded for NamedEntry {
    ghost use Rattle.image.specs.Fitting.{FitsNamed};
    ghost use Rattle.image.specs.Rows.{named_encoding};

    ghost encoding = { λ version. named_encoding };

    ghost fits = { FitsNamed };

    fn take(_: Global, _: StoreVersion, bytes: &[u8]) -> Result<Option<(Self, &[u8])>, AllocError> {
        Ok(take_named(bytes))
    }

    fn push(&self, out: &mut Vec<u8>) -> Result<(), AllocError> {
        push_word(out, self.name)?;
        push_entry(out, self.entry)
    }
}
