//! Why a recording refuses a call.
ghost use Rattle.std.specs.Prelude.{◌≡◌};
ghost use Rattle.recording.specs.Refusals.{number_of};

use std::error::Error;
use std::fmt;

/// The grounds on which a recording refuses, each with a fixed number.
#[derive(Clone, Copy, PartialEq, Eq, Debug)]
pub enum Refusal {
    /// 1: a count of stations that is 0 or above 16.
    StationCount = 1,
    /// 2: a station that is not below the count of stations.
    NoSuchStation = 2,
    /// 3: a register above 63.
    NoSuchRegister = 3,
    /// 4: a value above 524,287, or a write of 0.
    ValueOutOfRange = 4,
    /// 5: the recording holds 256 operations.
    Full = 5,
    /// 6: the register has been written with that value.
    ValueRepeated = 6,
    /// 7: the number names no read.
    NotARead = 7,
}

impl Refusal {
    /// The fixed number of the ground.
    pub fn number(self) -> u8
        ensures { result ≡ number_of self }
    {
        self as u8
    }
}

impl fmt::Display for Refusal {
    fn fmt<W: fmt::Write>(&self, f: &mut fmt::Formatter<W>) -> fmt::Result {
        f.write_str(match self {
            Refusal::StationCount => "the stations are 1 to 16",
            Refusal::NoSuchStation => "there is no such station",
            Refusal::NoSuchRegister => "the registers are 0 to 63",
            Refusal::ValueOutOfRange => "the values are 0 to 524287, and no write carries 0",
            Refusal::Full => "the recording holds 256 operations",
            Refusal::ValueRepeated => "the register has been written with that value",
            Refusal::NotARead => "the number names no read",
        })
    }
}

impl Error for Refusal {}
