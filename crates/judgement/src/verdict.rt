//! What a judgement says of a recording.
ghost use Rattle.std.specs.Prelude.{◌≡◌};
ghost use Rattle.judgement.specs.Numbers.{violation_number, finding_number};

use std::error::Error;
use std::fmt;

mod making;

/// What can stand against a recording, each with a fixed number. A judgement names the first that holds.
#[derive(Clone, Copy, PartialEq, Eq, Debug)]
pub enum Violation {
    /// 1: a read with a value other than 0 has no source.
    ThinAir = 1,
    /// 2: the least visibility has a cycle.
    BadVisibility = 2,
    /// 3: a read of 0 sees a write of its register.
    BadInitRead = 3,
    /// 4: a read sees another write of its register, to which steps between writes lead from its source.
    BadRead = 4,
    /// 5: what every order has to keep for the sake of all reads has a cycle.
    BadArb = 5,
    /// 6: a write of its register has happened before a read of 0, for the last operation of its station.
    HbInitRead = 6,
    /// 7: another write of its register has happened before a read and after its source, for the last operation of its station.
    CyclicHb = 7,
}

/// What a judgement says.
#[derive(Clone, Copy)]
pub struct Verdict {
    /// The label of the rule.
    pub label: u8,
    /// The first violation that holds; none if the recording is explained.
    pub violation: Option<Violation>,
    /// The station that the violation is about, if it is about one; else 0.
    // No `Option`: a verdict is fixed as numbers, of which 0 stands for no station.
    pub station: u8,
    /// How many numbers at the front of the evidence buffer are evidence.
    pub count: usize,
}

impl Violation {
    /// The fixed number of the violation.
    pub fn number(self) -> u8
        ensures { result ≡ violation_number self }
    {
        self as u8
    }
}

impl fmt::Display for Violation {
    fn fmt<W: fmt::Write>(&self, f: &mut fmt::Formatter<W>) -> fmt::Result {
        f.write_str(match self {
            Violation::ThinAir => "thinair",
            Violation::BadVisibility => "badvisibility",
            Violation::BadInitRead => "badinitread",
            Violation::BadRead => "badread",
            Violation::BadArb => "badarb",
            Violation::HbInitRead => "hbinitread",
            Violation::CyclicHb => "cyclichb",
        })
    }
}

impl Error for Violation {}

impl Verdict {
    /// The fixed number of the violation, or 0 for explained.
    pub fn number(self) -> u8
        ensures { result ≡ finding_number self.violation }
    {
        self.violation.map_or(0, |violation| violation.number())
    }
}

impl fmt::Display for Verdict {
    fn fmt<W: fmt::Write>(&self, f: &mut fmt::Formatter<W>) -> fmt::Result {
        match self.violation {
            Some(violation) => write!(f, "{violation}"),
            None => write!(f, "explained"),
        }
    }
}
