ghost use Rattle.std.specs.Prelude.{◌≡◌, ◌≤◌};
ghost use Rattle.script.specs.vocabulary.Numbers.{natural, number_from, with_digit, number_of_word};

/// Returns the number with these digits, or `None` if there are none or it doesn't fit four bytes.
fn natural(radix: u32, digits: &[u8]) -> Option<u32>
    requires low { 2 ≤ radix }
    requires high { radix ≤ 36 }
    ensures { result ≡ natural radix digits.now }
{
    if digits.is_empty() {
        return None;
    }
    number_from(radix, digits)
}

/// Returns a number with one more digit.
fn with_digit(radix: u32, number: u32, byte: u8) -> Option<u32>
    requires low { 2 ≤ radix }
    requires high { radix ≤ 36 }
    ensures { result ≡ with_digit radix number byte }
{
    let digit = char::from(byte).to_digit(radix)?;
    number.checked_mul(radix)?.checked_add(digit)
}

fn number_from(radix: u32, digits: &[u8]) -> Option<u32>
    requires low { 2 ≤ radix }
    requires high { radix ≤ 36 }
    ensures { result ≡ number_from radix 0 digits.now }
{
    let mut number = 0u32;
    for byte in digits {
        number = with_digit(radix, number, *byte)?;
    }
    Some(number)
}

/// Returns the number that a word gives: hexadecimal digits after `0x`, or decimal digits, possibly after a `-` (then
/// in two's complement).
pub(crate) fn number_of_word(word: &[u8]) -> Option<u32>
    ensures { result ≡ number_of_word word.now }
{
    if word.starts_with(b"0x") {
        natural(16, &word[2..])
    } else if word.starts_with(b"-") {
        let below = natural(10, &word[1..])?;
        Some(below.wrapping_neg())
    } else {
        natural(10, word)
    }
}
