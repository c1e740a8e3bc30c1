//! How a late rule is made.
ghost use Rattle.std.specs.Prelude.{◌≡◌};
ghost use Rattle.visibility.specs.Late.{LateAnswer, number_of};

use crate::late::{Late, LateRefusal};
use std::error::Error;
use std::fmt;

impl Late {
    /// The late rule with a distance. Refuses by 16.
    pub fn new(distance: u32) -> Result<Late, LateRefusal>
        ensures { LateAnswer distance result }
    {
        match u8::try_from(distance) {
            Ok(distance) if distance > 0 => Ok(Late { distance }),
            _ => Err(LateRefusal::Distance),
        }
    }
}

impl LateRefusal {
    /// The fixed number of the ground.
    pub fn number(self) -> u8
        ensures { result ≡ number_of self }
    {
        self as u8
    }
}

impl fmt::Display for LateRefusal {
    fn fmt<W: fmt::Write>(&self, f: &mut fmt::Formatter<W>) -> fmt::Result {
        f.write_str(match self {
            LateRefusal::Distance => "a distance is 1 to 255",
        })
    }
}

impl Error for LateRefusal {}
