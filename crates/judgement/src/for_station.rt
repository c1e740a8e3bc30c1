//! The order for a station: a listing of its last operation.
ghost use Rattle.std.specs.Prelude.{◌≡◌, ◌<◌, length};
ghost use Rattle.recording.specs.Telling.{recorded};
ghost use Rattle.rows.specs.Members.{related};
ghost use Rattle.visibility.specs.Visible.{CausalDemand, IsLeast};
ghost use Rattle.violations.specs.Views.{operations_of, seen_of};
ghost use Rattle.sessions.specs.Happening.{Last};
ghost use Rattle.sessions.specs.Listings.{SessionExplains};
ghost use Rattle.judgement.specs.Ordered.{ListingFound, ListedPast};
ghost use Rattle.judgement.specs.Verdicts.{ListingAnswer, lent};

use crate::lending::NUMBERS;
use crate::refusal::Refusal;
use crate::session::session_verdict;
use crate::stale::last_of;
use recording::Recording;
use relation::order_or_cycle;
use rows::{Table, WORDS};
use sessions::{Listed, StationView};
use violations::View;

/// Puts a lawful listing of the station's last operation at the front of `evidence`, and answers its length, which is 0 for a
/// station without operations. Refuses by 8, by 2 if there is no such station, and by 17 if the session judgement is not
/// explained; then tables and evidence are as that judgement leaves them.
pub fn order_for_station(
    recording: &Recording,
    station: usize,
    seen: &mut [u64],
    working: &mut [u64],
    evidence: &mut [u16],
) -> Result<usize, Refusal>
    ensures answered { ListingAnswer (recorded recording.now) station (lent seen.old working.old evidence.old) result (lent seen.new working.new evidence.new) }
{
    let seen = seen.as_mut_array::<WORDS>().ok_or(Refusal::WrongLength)?;
    let working = working.as_mut_array::<WORDS>().ok_or(Refusal::WrongLength)?;
    let evidence = evidence
        .as_mut_array::<NUMBERS>()
        .ok_or(Refusal::WrongLength)?;
    if station >= recording.stations() {
        return Err(Refusal::NoSuchStation);
    }
    session_order(recording, station, seen, working, evidence)
}

// The listing of a station, where all lengths are right. Refuses by 17.
fn session_order(
    recording: &Recording,
    station: usize,
    seen: &mut [u64; WORDS],
    working: &mut [u64; WORDS],
    evidence: &mut [u16; NUMBERS],
) -> Result<usize, Refusal>
    requires station { station < (recorded recording.now).stations }
    ensures { ListingFound (recorded recording.now).operations station (related seen.new) evidence.old evidence.new result }
{
    session_verdict(recording, seen, working, evidence).grant()?;
    match last_of(recording, station) {
        Some(last) => {
            let seen = Table { words: seen };
            let view = View { recording, seen };
            let here = StationView { view, last };
            Ok(list_past(here, working, evidence))
        }
        None => Ok(0),
    }
}

// Puts a listing of the last operation of a station at the front of the evidence, and answers its length.
fn list_past(
    here: StationView<'_, '_>,
    working: &mut [u64; WORDS],
    evidence: &mut [u16; NUMBERS],
) -> usize
    requires last { Last (operations_of here.view) here.last }
    requires least { IsLeast CausalDemand (operations_of here.view) (seen_of here.view) }
    requires session_explains { SessionExplains (operations_of here.view) (seen_of here.view) }
    ensures { ListedPast (operations_of here.entry.view) (seen_of here.entry.view) here.entry.last result evidence.old evidence.new }
{
    here.put_happened(working);
    let listed = Listed {
        happened: Table { words: working },
        reads: here.reads(),
    };
    order_or_cycle(&listed, here.past(), evidence).unwrap()
}
