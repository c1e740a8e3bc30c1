//! What can be asked about a recording, and what is answered.
use judgement::Verdict;
use std::fmt;

/// A question about a recording.
#[derive(Clone, Copy)]
pub enum Question {
    /// The own judgement.
    Own,
    /// The shared judgement.
    Shared,
    /// The session judgement.
    Session,
    /// The order for the read of that number.
    OrderForRead(usize),
    /// The listing of the last operation of that station.
    OrderForStation(usize),
}

/// The answer: to a judgement a verdict, to an order its length.
#[derive(Clone, Copy)]
pub enum Reply {
    Judged(Verdict),
    Ordered(usize),
}

impl fmt::Display for Question {
    fn fmt<W: fmt::Write>(&self, f: &mut fmt::Formatter<W>) -> fmt::Result {
        match self {
            Question::Own => write!(f, "own"),
            Question::Shared => write!(f, "shared"),
            Question::Session => write!(f, "session"),
            Question::OrderForRead(read) => write!(f, "order {read}"),
            Question::OrderForStation(station) => write!(f, "listing {station}"),
        }
    }
}
