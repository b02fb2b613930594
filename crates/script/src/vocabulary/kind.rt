ghost use Rattle.std.specs.Prelude.{◌≡◌, ◌∷◌, [], ◌++◌, find, OnOk, IfOk};
ghost use Rattle.std.specs.Option.{option_copied};
ghost use Rattle.std.specs.String.{string_bytes};
ghost use Rattle.script.specs.vocabulary.Kinds.{begins_with_letter, is_name, name_of, number_text, all_named, value_word, read_word};
ghost use Rattle.script.specs.vocabulary.Spaced.{spaced};

use crate::vocabulary::number::number_of_word;
use crate::vocabulary::spaced::push_spaced;
use codes::{MACH_NOTIFY_DEAD_NAME, MACH_NOTIFY_NO_SENDERS, MACH_NOTIFY_PORT_DESTROYED};
use std::alloc::{AllocError, Global};

/// The written form of a number of a call or a reply.
#[derive(Clone, Copy)]
pub enum Kind {
    /// A name or a type: its hexadecimal digits after `0x`.
    Hexadecimal,
    /// A count.
    Decimal,
    /// A change of a count, signed (in two's complement).
    Signed,
    /// A right, by its word.
    Right,
    /// A disposition, by its word.
    Disposition,
    /// The variant of a notification, by its word.
    Notification,
    /// The type of an item of words, by its word.
    Element,
    /// No number. It is read as 0 and has no word.
    Absent,
}

/// All numbers that have words, of any kind.
const ALL_NAMED: [u32; 14] = [0, 1, 2, 3, 4, 16, 17, 18, 19, 20, 21, 69, 70, 72];

impl Kind {
    /// Returns the word of a number, if it has one.
    fn name_of(self, number: u32) -> Option<&'static [u8]>
        ensures { option_copied result ≡ name_of self number }
    {
        match self {
            Kind::Right => right_name(number),
            Kind::Disposition => disposition_name(number),
            Kind::Notification => notification_name(number),
            Kind::Element => element_name(number),
            _ => None,
        }
    }

    /// Returns true if this is the word of the number.
    fn is_name(self, number: u32, word: &[u8]) -> bool
        ensures { result ≡ is_name self word.now number }
    {
        match self.name_of(number) {
            Some(name) => name == word,
            None => false,
        }
    }

    /// Returns the number with this word.
    fn number_named(self, word: &[u8]) -> Option<u32>
        ensures { result ≡ find (λ number. is_name self word.now number) all_named }
    {
        ALL_NAMED
            .iter()
            .copied()
            .find(|number| self.is_name(*number, word))
    }

    /// Returns the number with this word, or the number that its digits give.
    #[tactic(auto, unfolding(crate::specs::vocabulary::Kinds::read_word))]
    pub fn read_word(self, word: &[u8]) -> Option<u32>
        ensures { result ≡ read_word self word.now }
    {
        if begins_with_letter(word) {
            self.number_named(word)
        } else {
            number_of_word(word)
        }
    }

    /// Returns the digits of a number that has no word.
    fn number_text(self, alloc: Global, number: u32) -> Result<String, AllocError>
        ensures { IfOk result (λ text. string_bytes text ≡ number_text self number) }
    {
        match self {
            Kind::Hexadecimal => format!(in alloc; "0x{number:x}"),
            Kind::Signed => signed_text(alloc, number),
            _ => format!(in alloc; "{number}"),
        }
    }
}

fn right_name(number: u32) -> Option<&'static [u8]>
    ensures { option_copied result ≡ name_of Kind.Right number }
{
    match number {
        0 => Some(b"send"),
        1 => Some(b"receive"),
        2 => Some(b"send_once"),
        3 => Some(b"port_set"),
        4 => Some(b"dead_name"),
        _ => None,
    }
}

fn disposition_name(number: u32) -> Option<&'static [u8]>
    ensures { option_copied result ≡ name_of Kind.Disposition number }
{
    match number {
        16 => Some(b"move_receive"),
        17 => Some(b"move_send"),
        18 => Some(b"move_send_once"),
        19 => Some(b"copy_send"),
        20 => Some(b"make_send"),
        21 => Some(b"make_send_once"),
        _ => None,
    }
}

fn element_name(number: u32) -> Option<&'static [u8]>
    ensures { option_copied result ≡ name_of Kind.Element number }
{
    match number {
        2 => Some(b"words"),
        _ => disposition_name(number),
    }
}

fn notification_name(number: u32) -> Option<&'static [u8]>
    ensures { option_copied result ≡ name_of Kind.Notification number }
{
    match number {
        MACH_NOTIFY_PORT_DESTROYED => Some(b"port_destroyed"),
        MACH_NOTIFY_NO_SENDERS => Some(b"no_senders"),
        MACH_NOTIFY_DEAD_NAME => Some(b"dead_name"),
        _ => None,
    }
}

fn begins_with_letter(word: &[u8]) -> bool
    ensures { result ≡ begins_with_letter word.now }
{
    match word {
        [first, ..] => *first >= b'a',
        [] => false,
    }
}

fn signed_text(alloc: Global, number: u32) -> Result<String, AllocError>
    ensures { IfOk result (λ text. string_bytes text ≡ number_text Kind.Signed number) }
{
    if number < 0x8000_0000 {
        return format!(in alloc; "{number}");
    }
    let below = 0xffff_ffff - number + 1;
    format!(in alloc; "-{below}")
}

/// Appends a number as a word, after a space. If an allocation fails, part of it may have been appended.
#[tactic(auto, unfolding(crate::specs::vocabulary::Kinds::value_word))]
pub fn push_value(line: &mut Vec<u8>, kind: Kind, number: u32) -> Result<(), AllocError>
    ensures { OnOk result (line.new.items ≡ line.old.items ++ spaced (value_word kind number ∷ [])) }
{
    match kind.name_of(number) {
        Some(name) => push_spaced(line, name),
        None => {
            let text = kind.number_text(*line.allocator(), number)?;
            push_spaced(line, text.as_bytes())
        }
    }
}
