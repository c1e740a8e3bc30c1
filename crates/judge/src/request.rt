//! What the arguments ask for: the rule, and what is printed besides the verdicts.
use std::env::Args;
use std::fmt;
use std::num::ParseIntError;
use visibility::{Late, LateRefusal, Misspelled, TermList};

/// A rule that the arguments name.
#[derive(Clone, Copy, Default)]
pub enum Chosen {
    #[default]
    Causal,
    Late(Late),
    Terms(TermList),
}

/// The rule, whether what each operation sees is printed, the read whose order is, and the station whose listing is.
#[derive(Clone, Copy, Default)]
pub struct Request {
    pub rule: Chosen,
    pub sees: bool,
    pub order: Option<usize>,
    pub listing: Option<usize>,
}

/// Why the arguments cannot be used.
#[derive(Clone, Copy)]
pub enum Unusable {
    /// A word that is none of the program's, or one too few.
    Words,
    /// A distance that the late rule refuses.
    Late(LateRefusal),
    /// A spelling that the term list refuses.
    Terms(Misspelled),
}

impl From<ParseIntError> for Unusable {
    fn from(_error: ParseIntError) -> Unusable {
        Unusable::Words
    }
}

impl From<LateRefusal> for Unusable {
    fn from(refusal: LateRefusal) -> Unusable {
        Unusable::Late(refusal)
    }
}

impl From<Misspelled> for Unusable {
    fn from(misspelled: Misspelled) -> Unusable {
        Unusable::Terms(misspelled)
    }
}

impl fmt::Display for Unusable {
    fn fmt<W: fmt::Write>(&self, f: &mut fmt::Formatter<W>) -> fmt::Result {
        match self {
            Unusable::Words => f.write_str(
                "arguments: [causal | late DISTANCE | terms SPELLING] [sees] [order READ] [listing STATION]",
            ),
            Unusable::Late(refusal) => {
                write!(f, "late: refused by {}, {refusal}", refusal.number())
            }
            Unusable::Terms(misspelled) => {
                let (number, place) = (misspelled.number(), misspelled.place);
                write!(f, "terms: refused by {number} at {place}, {misspelled}")
            }
        }
    }
}

impl Request {
    /// What the arguments ask for, after the program's name. Without any: the causal rule, and the verdicts alone.
    pub fn read(mut words: Args) -> Result<Request, Unusable> {
        let mut request = Request::default();
        words.next();
        while let Some(word) = words.next() {
            match word.as_str() {
                "causal" => request.rule = Chosen::Causal,
                "late" => request.rule = late(words.next())?,
                "terms" => request.rule = terms(words.next())?,
                "sees" => request.sees = true,
                "order" => request.order = Some(number(words.next())?),
                "listing" => request.listing = Some(number(words.next())?),
                _ => return Err(Unusable::Words),
            }
        }
        Ok(request)
    }
}

// The late rule with a distance in decimal.
fn late(word: Option<String>) -> Result<Chosen, Unusable> {
    let distance = word.ok_or(Unusable::Words)?.as_str().parse()?;
    Ok(Chosen::Late(Late::new(distance)?))
}

// The term list with a spelling.
fn terms(word: Option<String>) -> Result<Chosen, Unusable> {
    let spelling = word.ok_or(Unusable::Words)?;
    Ok(Chosen::Terms(TermList::spelled(spelling.as_bytes())?))
}

// The number of an operation or of a station in decimal.
fn number(word: Option<String>) -> Result<usize, Unusable> {
    Ok(word.ok_or(Unusable::Words)?.as_str().parse()?)
}
