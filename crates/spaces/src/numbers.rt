//! The numbers of spaces as bits, so that the least free number is found without a look at each space.
ghost use Rattle.std.specs.Prelude.{◌≡◌, ◌≢◌, ℕ, ◌+◌, ◌<◌, MatchOption};
ghost use Rattle.std.specs.FinMap as map;
ghost use Rattle.std.specs.Int.{bit_at};
ghost use Rattle.spaces.specs.Numbers.{place_at, AreTaken, IsFirstFree};
ghost use Rattle.spaces.specs.Slots.{SpaceMap};

use codes::MAX_SPACES;

/// The numbers from 1 to `MAX_SPACES` that spaces have, as one bit for each, 64 in a word. It is copied as a whole by a
/// commit or rollback.
#[derive(Clone, Copy)]
pub(crate) struct Numbers {
    pub(crate) words: [u64; 4],
}

impl Numbers {
    /// Creates the numbers of no spaces.
    pub(crate) fn new() -> Self
        ensures { AreTaken result map.empty }
    {
        Numbers { words: [0; 4] }
    }

    /// Marks a number as used by a space.
    pub(crate) fn add(&mut self, number: u32)
        ensures { (spaces : SpaceMap) → AreTaken self.old spaces
            → AreTaken self.new (map.insert spaces number map.empty) }
    {
        if let Some(place) = place_of(number) {
            self.take(place);
        }
    }

    /// Marks a number as free.
    pub(crate) fn remove(&mut self, number: u32)
        ensures { (spaces : SpaceMap) → AreTaken self.old spaces → AreTaken self.new (map.remove spaces number) }
    {
        if let Some(place) = place_of(number) {
            self.leave(place);
        }
    }

    /// Sets the bit with this index.
    fn take(&mut self, place: u32)
        requires { place < 256 }
        ensures taken { place_at self.new place ≡ 1 }
        ensures others { (k : ℕ) → k ≢ place → place_at self.new k ≡ place_at self.old k }
    {
        let at = (place / 64) as usize;
        self.words[at] = with_bit(self.words[at], place % 64);
    }

    /// Clears the bit with this index.
    fn leave(&mut self, place: u32)
        requires { place < 256 }
        ensures free { place_at self.new place ≡ 0 }
        ensures others { (k : ℕ) → k ≢ place → place_at self.new k ≡ place_at self.old k }
    {
        let at = (place / 64) as usize;
        self.words[at] = without_bit(self.words[at], place % 64);
    }

    /// Returns the index of the first clear bit, or the number of bits if all are set.
    pub(crate) fn first_free(&self) -> u32
        ensures { IsFirstFree self.now result }
    {
        let mut before: u32 = 0;
        for word in &self.words {
            if let Some(bit) = first_clear(*word) {
                return before + bit;
            }
            before += 64;
        }
        before
    }
}

/// Returns the index of a number's bit, or `None` if it has none.
fn place_of(number: u32) -> Option<u32>
    ensures { MatchOption result ((k : ℕ) → k < 256 → number ≡ k + 1 → ⊥)
        (λ place. (place < 256) × (number ≡ place + 1)) }
{
    if 0 < number && number as usize <= MAX_SPACES {
        Some(number - 1)
    } else {
        None
    }
}

/// Returns the first clear bit of a word, if there is one.
fn first_clear(word: u64) -> Option<u32>
    ensures { MatchOption result ((i : ℕ) → i < 64 → bit_at word i ≡ 1)
        (λ bit. (bit < 64) × (bit_at word bit ≡ 0) × ((i : ℕ) → i < bit → bit_at word i ≡ 1)) }
{
    if word == u64::MAX {
        None
    } else {
        Some(word.trailing_ones())
    }
}

/// Returns a word with one bit set.
fn with_bit(word: u64, bit: u32) -> u64
    requires { bit < 64 }
    ensures set { bit_at result bit ≡ 1 }
    ensures others { (i : ℕ) → i ≢ bit → bit_at result i ≡ bit_at word i }
{
    word | (1 << bit)
}

/// Returns a word with one bit cleared.
fn without_bit(word: u64, bit: u32) -> u64
    requires { bit < 64 }
    ensures clear { bit_at result bit ≡ 0 }
    ensures others { (i : ℕ) → i < 64 → i ≢ bit → bit_at result i ≡ bit_at word i }
{
    word & !(1 << bit)
}
