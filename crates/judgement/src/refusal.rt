//! Why a judgement or an order is refused.
ghost use Rattle.std.specs.Prelude.{◌≡◌};
ghost use Rattle.judgement.specs.Numbers.{refusal_number};

use std::error::Error;
use std::fmt;

/// The grounds on which the calls refuse, each with a fixed number.
#[derive(Clone, Copy, PartialEq, Eq, Debug)]
pub enum Refusal {
    /// 2: a station that is not below the count of stations.
    NoSuchStation = 2,
    /// 7: the number names no read.
    NotARead = 7,
    /// 8: a table or the buffer has another length.
    WrongLength = 8,
    /// 17: the recording is not explained, so there is no order.
    NotExplained = 17,
}

impl Refusal {
    /// The fixed number of the ground.
    pub fn number(self) -> u8
        ensures { result ≡ refusal_number self }
    {
        self as u8
    }
}

impl fmt::Display for Refusal {
    fn fmt<W: fmt::Write>(&self, f: &mut fmt::Formatter<W>) -> fmt::Result {
        f.write_str(match self {
            Refusal::NoSuchStation => "there is no such station",
            Refusal::NotARead => "the number names no read",
            Refusal::WrongLength => "a table or the buffer has another length",
            Refusal::NotExplained => "the recording is not explained",
        })
    }
}

impl Error for Refusal {}
