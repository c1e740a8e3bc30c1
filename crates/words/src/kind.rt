//! The kinds of words.
ghost use Rattle.std.specs.Prelude.{◌≡◌};
ghost use Rattle.words.specs.Layout.{kind_of, kind_word, blank, zero_bits};

use crate::field::field;
use recording::Kind;

// What a word is, with its top three bits, of which only a frame uses the last.
#[derive(Clone, Copy)]
pub(crate) enum WordKind {
    Note = 0b000,
    Write = 0b010,
    Read = 0b100,
    Opening = 0b110,
    Closing = 0b111,
}

impl From<u32> for WordKind {
    ghost from_gives = { λ word kind. kind ≡ kind_of word };

    fn from(word: u32) -> WordKind {
        // The top three bits lie between the code of the kind and that of the next.
        match field(word, 31, 29) {
            bits if bits < WordKind::Write as u32 => WordKind::Note,
            bits if bits < WordKind::Read as u32 => WordKind::Write,
            bits if bits < WordKind::Opening as u32 => WordKind::Read,
            bits if bits < WordKind::Closing as u32 => WordKind::Opening,
            _ => WordKind::Closing,
        }
    }
}

impl From<Kind> for WordKind {
    ghost from_gives = { λ kind word. word ≡ kind_word kind };

    fn from(kind: Kind) -> WordKind {
        match kind {
            Kind::Write => WordKind::Write,
            Kind::Read => WordKind::Read,
        }
    }
}

impl WordKind {
    // The word of the kind whose other bits are all 0.
    pub(crate) fn blank(self) -> u32
        ensures { result ≡ blank self }
    {
        u32::from(self as u8) << 29
    }

    // The bits of the word that its kind has at 0.
    pub(crate) fn zero_bits(self, word: u32) -> u32
        ensures { result ≡ zero_bits self word }
    {
        match self {
            WordKind::Note => field(word, 29, 8),
            WordKind::Write => field(word, 29, 29),
            WordKind::Read => field(word, 29, 29),
            WordKind::Opening => field(word, 28, 8),
            WordKind::Closing => 0,
        }
    }
}
