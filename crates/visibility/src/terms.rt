//! Term lists: terms of letters, each a way of steps by station order and visibility.
use crate::few::Few;

mod spelling;
mod walking;

// As many letters as a term may have.
pub(crate) const LETTERS: usize = 4;

// As many terms as a list may have.
pub(crate) const TERMS: usize = 8;

/// A letter of a term: a step of station order, spelled `s`, or of visibility, spelled `v`.
#[derive(Clone, Copy)]
pub enum Letter {
    Station,
    Seen,
}

pub(crate) type Term = Few<Letter, LETTERS>;

/// At most eight terms of one to four letters.
#[derive(Clone, Copy)]
pub struct TermList {
    pub(crate) terms: Few<Term, TERMS>,
}

/// A spelling that no term list has.
#[derive(Clone, Copy, PartialEq, Eq, Debug)]
pub struct Misspelled {
    /// Of the first byte after which no lawful spelling is possible, or the length, if it ends too early.
    pub place: usize,
}
