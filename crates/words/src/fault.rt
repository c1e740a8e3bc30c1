//! Why a reader refuses the words.
ghost use Rattle.std.specs.Prelude.{◌≡◌};
ghost use Rattle.words.specs.Faults.{number_of};

use std::error::Error;
use std::fmt;

/// The grounds on which a reader refuses, each with a fixed number.
#[derive(Clone, Copy, PartialEq, Eq, Debug)]
pub enum Fault {
    /// 9: the words do not begin with an opening.
    NotAnOpening = 9,
    /// 10: a second opening, or a bit that has to be 0 is set.
    OutOfForm = 10,
    /// 11: the text of a note runs past the end.
    NoteTooLong = 11,
    /// 12: a closing with a wrong count of operations.
    WrongCount = 12,
    /// 13: the words end before a closing.
    Unclosed = 13,
    /// 14: a word after the closing.
    AfterClosing = 14,
}

impl Fault {
    /// The fixed number of the ground.
    pub fn number(self) -> u8
        ensures { result ≡ number_of self }
    {
        self as u8
    }
}

impl fmt::Display for Fault {
    fn fmt<W: fmt::Write>(&self, f: &mut fmt::Formatter<W>) -> fmt::Result {
        f.write_str(match self {
            Fault::NotAnOpening => "the words do not begin with an opening",
            Fault::OutOfForm => "a second opening, or a bit that has to be 0 is set",
            Fault::NoteTooLong => "the text of a note runs past the end",
            Fault::WrongCount => "the closing has a wrong count of operations",
            Fault::Unclosed => "the words end before a closing",
            Fault::AfterClosing => "a word stands after the closing",
        })
    }
}

impl Error for Fault {}

/// A fault, and its place: that of the record's first word, or the count of words if there is none.
#[derive(Clone, Copy, PartialEq, Eq, Debug)]
pub struct Misread {
    pub fault: Fault,
    pub place: usize,
}

impl fmt::Display for Misread {
    fn fmt<W: fmt::Write>(&self, f: &mut fmt::Formatter<W>) -> fmt::Result {
        write!(f, "{} at word {}", self.fault, self.place)
    }
}

impl Error for Misread {}
