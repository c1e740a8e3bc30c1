//! The calls that change a recording, and whole runs of them.
ghost use Rattle.std.specs.Prelude.{◌≡◌, List, [], ◌∷◌, ◌++◌};
ghost use Rattle.recording.specs.Telling.{Recorded, recorded};
ghost use Rattle.words.specs.declared.calls.CallRefusal.TheVariants.{Recording, Load};
ghost use Rattle.words.specs.Calls.{Answers};
ghost use Rattle.words.specs.Runs.{Settles};

use crate::loading::{LoadRefusal, load};
use recording::{Recording, Refusal};
use std::error::Error;
use std::fmt;

/// A call that changes a recording, with what it is handed.
// A write and a read have equal parts and a case each, as a recording takes each by a call of its own.
#[derive(Clone, Copy)]
pub enum Call<'a> {
    Start(u32),
    Write {
        station: u32,
        register: u32,
        value: u32,
    },
    Read {
        station: u32,
        register: u32,
        value: u32,
    },
    Load(&'a [u32]),
}

/// What an accepted call answers: a start nothing, an operation its number, a load the count of operations.
#[derive(Clone, Copy, PartialEq, Eq, Debug)]
pub enum Answer {
    Started,
    Told(usize),
    Loaded(usize),
}

impl fmt::Display for Answer {
    fn fmt<W: fmt::Write>(&self, f: &mut fmt::Formatter<W>) -> fmt::Result {
        match self {
            Answer::Started => f.write_str("started"),
            Answer::Told(number) => write!(f, "operation {number}"),
            Answer::Loaded(count) => write!(f, "{count} operations loaded"),
        }
    }
}

/// Why a call is refused: by the recording, or as a load.
#[derive(Clone, Copy, PartialEq, Eq, Debug)]
pub enum CallRefusal {
    Recording(Refusal),
    Load(LoadRefusal),
}

impl fmt::Display for CallRefusal {
    fn fmt<W: fmt::Write>(&self, f: &mut fmt::Formatter<W>) -> fmt::Result {
        match self {
            CallRefusal::Recording(refusal) => {
                write!(f, "refused by {}, {refusal}", refusal.number())
            }
            CallRefusal::Load(refusal) => {
                let (number, place) = (refusal.number(), refusal.place());
                write!(f, "refused by {number} at word {place}")
            }
        }
    }
}

impl Error for CallRefusal {}

impl From<Refusal> for CallRefusal {
    ghost from_gives = { λ refusal call. call ≡ Recording refusal };

    fn from(refused: Refusal) -> CallRefusal {
        CallRefusal::Recording(refused)
    }
}

impl From<LoadRefusal> for CallRefusal {
    ghost from_gives = { λ refusal call. call ≡ Load refusal };

    fn from(refused: LoadRefusal) -> CallRefusal {
        CallRefusal::Load(refused)
    }
}

/// Tells a recording one call. What earlier calls settled, and this one, settle what it holds then.
pub fn tell(recording: &mut Recording, call: Call<'_>) -> Result<Answer, CallRefusal>
    ensures answer { Answers (recorded recording.old) call.entry result (recorded recording.new) }
    ensures settles { (calls : List Call) → Settles calls (recorded recording.old) → Settles (calls ++ call.entry ∷ []) (recorded recording.new) }
{
    hand_on(recording, call)
}

/// The recording that a run of calls settles, beginning unstarted.
pub fn told(calls: &[Call<'_>]) -> Recording
    ensures settled { Settles calls.now (recorded result) }
    ensures alone { (other : Recorded) → Settles calls.now other → other ≡ recorded result }
{
    let mut recording = Recording::unstarted();
    for call in calls {
        let _ = tell(&mut recording, *call);
    }
    recording
}

// Hands a call on to the recording; apart from `tell`, whose second clause follows from what this answers.
fn hand_on(recording: &mut Recording, call: Call<'_>) -> Result<Answer, CallRefusal>
    ensures { Answers (recorded recording.old) call.entry result (recorded recording.new) }
{
    Ok(match call {
        Call::Start(stations) => {
            recording.start(stations)?;
            Answer::Started
        }
        Call::Write {
            station,
            register,
            value,
        } => Answer::Told(recording.write(station, register, value)?),
        Call::Read {
            station,
            register,
            value,
        } => Answer::Told(recording.read(station, register, value)?),
        Call::Load(words) => Answer::Loaded(load(recording, words)?),
    })
}
