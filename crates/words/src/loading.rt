//! Loading a recording from words.
ghost use Rattle.std.specs.Prelude.{◌≡◌};
ghost use Rattle.recording.specs.Telling.{recorded};
ghost use Rattle.words.specs.declared.loading.LoadRefusal.TheVariants.{Reader};
ghost use Rattle.words.specs.Loading.{ToldAnswer, Loads, layer_of, number_of, place_of};
ghost use Rattle.words.specs.Reading.{heard};

use crate::fault::Misread;
use crate::reader::Reader;
use crate::record::{Placed, Record};
use recording::{Recording, Refusal};
use std::error::Error;
use std::fmt;

// The most words that a load takes.
const MOST_WORDS: usize = 1024;

/// Why a load is refused, by the layer that refuses.
#[derive(Clone, Copy, PartialEq, Eq, Debug)]
pub enum LoadRefusal {
    /// Layer 0, number 8, place 0: more than 1,024 words.
    TooLong,
    /// Layer 1: the reader, with its place.
    Reader(Misread),
    /// Layer 2: the recording, at the place of that word.
    Recording { refusal: Refusal, place: usize },
}

// Its numbers are matched, since variants that hold something have no discriminants.
impl LoadRefusal {
    /// The layer that refuses: 0 the load itself, 1 the reader, 2 the recording.
    pub fn layer(self) -> u8
        ensures { result ≡ layer_of self }
    {
        match self {
            LoadRefusal::TooLong => 0,
            LoadRefusal::Reader(_) => 1,
            LoadRefusal::Recording { .. } => 2,
        }
    }

    /// The number of the ground in that layer.
    pub fn number(self) -> u8
        ensures { result ≡ number_of self }
    {
        match self {
            LoadRefusal::TooLong => 8,
            LoadRefusal::Reader(misread) => misread.fault.number(),
            LoadRefusal::Recording { refusal, .. } => refusal.number(),
        }
    }

    /// The place of the word at which the load ended.
    pub fn place(self) -> usize
        ensures { result ≡ place_of self }
    {
        match self {
            LoadRefusal::TooLong => 0,
            LoadRefusal::Reader(misread) => misread.place,
            LoadRefusal::Recording { place, .. } => place,
        }
    }
}

impl fmt::Display for LoadRefusal {
    fn fmt<W: fmt::Write>(&self, f: &mut fmt::Formatter<W>) -> fmt::Result {
        match self {
            LoadRefusal::TooLong => write!(f, "the words are at most {MOST_WORDS}"),
            LoadRefusal::Reader(misread) => write!(f, "{misread}"),
            LoadRefusal::Recording { refusal, place } => write!(f, "{refusal} at word {place}"),
        }
    }
}

impl Error for LoadRefusal {}

impl From<Misread> for LoadRefusal {
    ghost from_gives = { λ misread refusal. refusal ≡ Reader misread };

    fn from(refused: Misread) -> LoadRefusal {
        LoadRefusal::Reader(refused)
    }
}

/// Tells the recording the opening and each operation of the words, and answers the count of operations.
/// After a refusal the recording has what was told before the fault.
pub fn load(recording: &mut Recording, words: &[u32]) -> Result<usize, LoadRefusal>
    ensures { Loads (recorded recording.old) words.now result (recorded recording.new) }
{
    if words.len() > MOST_WORDS {
        return Err(LoadRefusal::TooLong);
    }
    let mut reader = Reader::new(words);
    while let Some(Placed { place, record }) = reader.next()? {
        tell_record(recording, record).map_err(|refusal| LoadRefusal::Recording {
            refusal,
            place,
        })?;
    }
    Ok(recording.count())
}

// Tells what one record says.
fn tell_record(recording: &mut Recording, told: Record<'_>) -> Result<(), Refusal>
    ensures { ToldAnswer (recorded recording.old) (heard told.entry) result (recorded recording.new) }
{
    match told {
        Record::Opening(stations) => recording.start(u32::from(stations))?,
        Record::Write {
            station,
            register,
            value,
        } => {
            recording.write(u32::from(station), u32::from(register), value)?;
        }
        Record::Read {
            station,
            register,
            value,
        } => {
            recording.read(u32::from(station), u32::from(register), value)?;
        }
        Record::Note(_) | Record::Closing(_) => {}
    }
    Ok(())
}
