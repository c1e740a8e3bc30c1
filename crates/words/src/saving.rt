//! Saving a recording as words.
ghost use Rattle.std.specs.Prelude.{◌≡◌, ◌^◌, ◌<◌, ◌≤◌};
ghost use Rattle.recording.specs.Telling.{recorded};
ghost use Rattle.words.specs.Saving.{opening_word, operation_word, closing_word, Saves, LoadsBack, Copied, number_of};

use crate::kind::WordKind;
use crate::loading::load;
use recording::{Operation, Recording};
use std::error::Error;
use std::fmt;

/// Why a save is refused.
#[derive(Clone, Copy, PartialEq, Eq, Debug)]
pub enum SaveRefusal {
    /// 8: fewer words than operations plus 2.
    TooShort = 8,
}

impl SaveRefusal {
    /// The fixed number of the ground.
    pub fn number(self) -> u8
        ensures { result ≡ number_of self }
    {
        self as u8
    }
}

impl fmt::Display for SaveRefusal {
    fn fmt<W: fmt::Write>(&self, f: &mut fmt::Formatter<W>) -> fmt::Result {
        f.write_str(match self {
            SaveRefusal::TooShort => "the words are fewer than the operations and 2",
        })
    }
}

impl Error for SaveRefusal {}

/// Writes opening, operations and closing to the front of `words`, and answers how many words these are.
pub fn save(recording: &Recording, words: &mut [u32]) -> Result<usize, SaveRefusal>
    ensures { Saves (recorded recording.now) words.old result words.new }
{
    let operations = recording.operations();
    let count = operations.len();
    if words.len() < count + 2 {
        return Err(SaveRefusal::TooShort);
    }
    words[0] = WordKind::Opening.blank() | recording.stations() as u32;
    // No `words[1..].iter_mut().zip(operations)`: an adapter of `iter_mut` leaves the words unknown to the proof.
    for (place, operation) in (1..).zip(operations) {
        words[place] = operation_word(*operation);
    }
    words[count + 1] = WordKind::Closing.blank() | count as u32;
    Ok(count + 2)
}

/// Saves the recording to `words`, and loads the copy from there: it is equal then. Answers the count of words.
pub fn copy(
    recording: &Recording,
    words: &mut [u32],
    copied: &mut Recording,
) -> Result<usize, SaveRefusal>
    ensures saved { Saves (recorded recording.now) words.old result words.new }
    ensures equal { Copied (recorded recording.now) (recorded copied.old) result (recorded copied.new) }
    ensures loads_back { LoadsBack (recorded recording.now) }
{
    let count = save(recording, words)?;
    load(copied, &words[..count]).unwrap();
    Ok(count)
}

// The word of an operation.
fn operation_word(operation: Operation) -> u32
    requires station { operation.station < 16 }
    requires register { operation.register < 64 }
    requires value { operation.value < 2 ^ 19 }
    ensures { result ≡ operation_word operation }
{
    WordKind::from(operation.kind).blank()
        | u32::from(operation.station) << 25
        | u32::from(operation.register) << 19
        | operation.value
}
