//! Reads of one station that what has happened before them forbids. Here a view sees what has happened before. The reads are
//! asked one by one, up to the first hit: no set of them is gathered before.
ghost use Rattle.std.specs.Prelude.{◌≡◌};
ghost use Rattle.violations.specs.Explained.{In, SeesOf};
ghost use Rattle.violations.specs.Firsts.{Smallest, SmallestPair, SmallestRivals};
ghost use Rattle.violations.specs.Views.{operations_of, seen_of};
ghost use Rattle.sessions.specs.Happening.{HbInitRead, CyclicHb};
ghost use Rattle.sessions.specs.Listings.{StationRead};

use crate::station_view::StationView;
use rows::Row;
use violations::{Pair, Rivals, is_initial_read};

impl StationView<'_, '_> {
    /// The smallest read of 0 of the station of `last` before which a write of its register has happened, with the smallest such write.
    pub fn hb_init_read(self) -> Option<Pair>
        ensures { SmallestPair (HbInitRead (operations_of self.entry.view) self.entry.last (seen_of self.entry.view)) result }
    {
        for read in 0..self.view.recording.count() {
            if self.has_read(read) && is_initial_read(self.view.recording, read) {
                if let Some(write) = self.first_before(read) {
                    return Some(Pair { read, write });
                }
            }
        }
        None
    }

    // The smallest write of its register that has happened before a read.
    fn first_before(self, read: usize) -> Option<usize>
        ensures { Smallest (SeesOf (operations_of self.entry.view) (In (seen_of self.entry.view)) read) result }
    {
        Row::below(self.view.recording.count()).find(|write| self.view.sees(read, write))
    }

    /// The smallest read of the station of `last` with a source before which another write of its register has happened, and that
    /// after the source; with the source and the smallest such write.
    pub fn cyclic_hb(self) -> Option<Rivals>
        ensures { SmallestRivals (CyclicHb (operations_of self.entry.view) self.entry.last (seen_of self.entry.view)) result }
    {
        for read in 0..self.view.recording.count() {
            if self.has_read(read) {
                if let Some(found) = self.cyclic_at(read) {
                    return Some(found);
                }
            }
        }
        None
    }

    // The same of one read of the station.
    fn cyclic_at(self, read: usize) -> Option<Rivals>
        requires { StationRead (operations_of self.view) self.last read }
        ensures { SmallestRivals (λ r w x. (r ≡ read) × CyclicHb (operations_of self.entry.view) self.entry.last (seen_of self.entry.view) r w x) result }
    {
        let happened = self.view.seen;
        self.view
            .overtaken(Row::of(read), |source| happened.row(source))
    }
}
