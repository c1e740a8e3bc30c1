//! A run of bits of a word.
ghost use Rattle.std.specs.Prelude.{◌≡◌, ◌+◌, ◌<◌, ◌≤◌};
ghost use Rattle.words.specs.Layout.{bits};

// Bits `high` to `low` of the word, bit 0 being the lowest.
pub(crate) fn field(word: u32, high: u32, low: u32) -> u32
    requires order { low ≤ high }
    requires width { high < low + 31 }
    requires top { high < 32 }
    ensures { result ≡ bits high low word }
{
    (word >> low) & ((1 << (high + 1 - low)) - 1)
}
