//! One operation of a recording.
ghost use Rattle.std.specs.Prelude.{◌≡◌};

use std::fmt;

/// What an operation does with its register.
#[derive(Clone, Copy, Default, PartialEq, Eq)]
pub enum Kind {
    Write,
    #[default]
    Read,
}

/// A write or a read by one station of one register, with the value written or read.
#[derive(Clone, Copy, Default)]
pub struct Operation {
    pub kind: Kind,
    pub station: u8,
    pub register: u8,
    pub value: u32,
}

impl Operation {
    ghost use Rattle.recording.specs.Operations.{gives};

    // Whether it writes the value to the register.
    pub(crate) fn gives(&self, register: u8, value: u32) -> bool
        ensures { result ≡ gives self.now register value }
    {
        self.kind == Kind::Write && self.register == register && self.value == value
    }
}

impl fmt::Display for Operation {
    fn fmt<W: fmt::Write>(&self, f: &mut fmt::Formatter<W>) -> fmt::Result {
        let Operation {
            station,
            register,
            value,
            ..
        } = self;
        match self.kind {
            Kind::Write => write!(f, "station {station} writes {value} to register {register}"),
            Kind::Read => write!(
                f,
                "station {station} reads {value} from register {register}"
            ),
        }
    }
}
