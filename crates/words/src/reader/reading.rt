//! How a reader goes from record to record.
ghost use Rattle.std.specs.Prelude.{◌≡◌, ◌+◌, ◌<◌, ◌≤◌, length};
ghost use Rattle.words.specs.Reading.{reading, at_start, heard, width_of, tells, phase_after, pass, Next, SaidAnswer, RecordAnswer};

use crate::fault::{Fault, Misread};
use crate::field::field;
use crate::kind::WordKind;
use crate::reader::{Phase, Reader};
use crate::record::{Placed, Record};

impl<'a> Reader<'a> {
    /// A reader before the first word.
    pub fn new(words: &'a [u32]) -> Reader<'a>
        ensures { reading result ≡ at_start words.now }
    {
        Reader {
            words,
            place: 0,
            operations: 0,
            phase: Phase::Before,
        }
    }

    /// The next record with its place, or none after a closing that ends the words. A reader that refuses stays put.
    pub fn next(&mut self) -> Result<Option<Placed<'a>>, Misread>
        ensures { Next (reading self.old) result (reading self.new) }
    {
        let place = self.place;
        let said = self.said().map_err(|fault| Misread { fault, place })?;
        let Some(record) = said else {
            return Ok(None);
        };
        self.pass(record);
        Ok(Some(Placed { place, record }))
    }

    // What the words that are left say first.
    fn said(&self) -> Result<Option<Record<'a>>, Fault>
        ensures { SaidAnswer (reading self.now) result }
    {
        match (self.phase, self.rest()) {
            (Phase::Before, []) => Err(Fault::NotAnOpening),
            (Phase::Between, []) => Err(Fault::Unclosed),
            (Phase::After, []) => Ok(None),
            (_, [first, rest @ ..]) => Ok(Some(self.record(*first, rest)?)),
        }
    }

    // What the next word says, with what follows it.
    fn record(&self, first: u32, rest: &'a [u32]) -> Result<Record<'a>, Fault>
        ensures { RecordAnswer self.now.phase self.now.operations first rest.now result }
    {
        let kind = WordKind::from(first);
        let zero_bit_set = kind.zero_bits(first) != 0;
        let station = field(first, 28, 25) as u8;
        let register = field(first, 24, 19) as u8;
        let value = field(first, 18, 0);
        match (self.phase, kind) {
            (Phase::Before, WordKind::Opening) if zero_bit_set => Err(Fault::OutOfForm),
            (Phase::Before, WordKind::Opening) => Ok(Record::Opening(field(first, 7, 0) as u8)),
            (Phase::Before, _) => Err(Fault::NotAnOpening),
            (Phase::Between, _) if zero_bit_set => Err(Fault::OutOfForm),
            (Phase::Between, WordKind::Opening) => Err(Fault::OutOfForm),
            (Phase::Between, WordKind::Note) => {
                let text = rest.get(..field(first, 7, 0) as usize);
                Ok(Record::Note(text.ok_or(Fault::NoteTooLong)?))
            }
            (Phase::Between, WordKind::Write) => Ok(Record::Write {
                station,
                register,
                value,
            }),
            (Phase::Between, WordKind::Read) => Ok(Record::Read {
                station,
                register,
                value,
            }),
            (Phase::Between, WordKind::Closing) => {
                let count = field(first, 28, 0);
                if count as usize != self.operations {
                    return Err(Fault::WrongCount);
                }
                Ok(Record::Closing(count))
            }
            (Phase::After, _) => Err(Fault::AfterClosing),
        }
    }

    // What is left of the words.
    fn rest(&self) -> &'a [u32]
        ensures { result.now ≡ (reading self.now).rest }
    {
        &self.words[self.place..]
    }

    // Goes past a record.
    fn pass(&mut self, passed: Record<'a>)
        requires { width_of (heard passed) ≤ length (reading self.old).rest }
        ensures { reading self.new ≡ pass (reading self.old) (heard passed.entry) }
    {
        self.place += passed.text_length() + 1;
        self.operations += passed.operations();
        self.phase = passed.phase_after(self.phase);
    }
}

impl Record<'_> {
    // How many words it takes after the first.
    fn text_length(self) -> usize
        ensures { 1 + result ≡ width_of (heard self.entry) }
    {
        match self {
            Record::Note(text) => text.len(),
            _ => 0,
        }
    }

    // How many operations it tells.
    fn operations(self) -> usize
        ensures { result ≡ tells (heard self.entry) }
    {
        match self {
            Record::Write { .. } | Record::Read { .. } => 1,
            _ => 0,
        }
    }

    // How far a reader has come after it.
    fn phase_after(self, phase: Phase) -> Phase
        ensures { result ≡ phase_after (heard self.entry) phase }
    {
        match self {
            Record::Opening(_) => Phase::Between,
            Record::Closing(_) => Phase::After,
            _ => phase,
        }
    }
}
