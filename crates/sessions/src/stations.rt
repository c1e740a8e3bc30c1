//! Which operations are of one station.
ghost use Rattle.std.specs.Prelude.{ℕ, Decides};
ghost use Rattle.recording.specs.Telling.{recorded};
ghost use Rattle.rows.specs.Members.{member};
ghost use Rattle.sessions.specs.Listings.{StationRead};

use recording::{Kind, Recording};
use rows::Row;

/// The reads of the station of an operation.
pub fn station_reads(recording: &Recording, other: usize) -> Row
    ensures { (k : ℕ) → Decides (member result k) (StationRead (recorded recording.now).operations other k) }
{
    Row::below(recording.count()).filter(|number| is_station_read(recording, other, number))
}

/// Whether a number names a read of the station of another operation.
pub fn is_station_read(recording: &Recording, other: usize, number: usize) -> bool
    ensures { Decides result (StationRead (recorded recording.now).operations other number) }
{
    recording.operation(number).is_some_and(|operation| {
        operation.kind == Kind::Read
            && operation.station == recording.operation(other).unwrap_or_default().station
    })
}
