//! The rule by which what has happened before what grows, for the reads of one station.
ghost use Rattle.std.specs.Prelude.{◌≡◌, length};

use rows::WORDS;

pub mod demanding;
mod making;

/// The reads of one station, each with its source, as a table of pairs (source, read).
#[derive(Clone, Copy)]
pub struct Happening {
    words: [u64; WORDS],
    ghost full: { length words ≡ 1024 },
}
