//! A view, from the last operation of a station.
ghost use Rattle.std.specs.Prelude.{ℕ, Decides};
ghost use Rattle.rows.specs.Members.{member};
ghost use Rattle.sessions.specs.Listings.{StationRead};
ghost use Rattle.violations.specs.Views.{operations_of};

use crate::stations::{is_station_read, station_reads};
use rows::Row;
use violations::View;

/// A view, and the last operation of a station.
#[derive(Clone, Copy)]
pub struct StationView<'r, 's> {
    pub view: View<'r, 's>,
    pub last: usize,
}

impl StationView<'_, '_> {
    /// The reads of the station.
    pub fn reads(self) -> Row
        ensures { (k : ℕ) → Decides (member result k) (StationRead (operations_of self.entry.view) self.entry.last k) }
    {
        station_reads(self.view.recording, self.last)
    }

    // Whether a number names such a read.
    pub(crate) fn has_read(self, number: usize) -> bool
        ensures { Decides result (StationRead (operations_of self.entry.view) self.entry.last number) }
    {
        is_station_read(self.view.recording, self.last, number)
    }
}
