//! Reading a term list from its spelling.
ghost use Rattle.std.specs.Prelude.{◌≡◌};
ghost use Rattle.visibility.specs.Reading.{SpellingAnswer};

use crate::draft::Draft;
use crate::terms::{Misspelled, TermList};
use std::error::Error;
use std::fmt;

impl TermList {
    /// The term list that the bytes spell: letters s and v, terms parted by one comma. Refuses by 15.
    pub fn spelled(bytes: &[u8]) -> Result<TermList, Misspelled>
        ensures { SpellingAnswer bytes.now result }
    {
        let mut draft = Draft::blank();
        for (place, byte) in bytes.iter().enumerate() {
            draft.take(*byte).map_err(|_| Misspelled { place })?;
        }
        draft.finished().ok_or(Misspelled { place: bytes.len() })
    }
}

impl Misspelled {
    /// The fixed number of the ground.
    // A literal, since a struct has no discriminant, and an enum of one case would stand round the place for nothing.
    pub fn number(self) -> u8
        ensures { result ≡ 15 }
    {
        15
    }
}

impl fmt::Display for Misspelled {
    fn fmt<W: fmt::Write>(&self, f: &mut fmt::Formatter<W>) -> fmt::Result {
        f.write_str("up to eight terms of one to four letters s and v, parted by one comma")
    }
}

impl Error for Misspelled {}
