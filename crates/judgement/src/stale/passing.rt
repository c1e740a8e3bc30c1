//! Passes the stations one after the other. What has happened before what is grown once for each.
ghost use Rattle.std.specs.Prelude.{◌≡◌, ◌+◌, ◌<◌, length};
ghost use Rattle.recording.specs.Stations.{LastOf};
ghost use Rattle.recording.specs.Telling.{recorded};
ghost use Rattle.judgement.specs.Passing.{FoundAt, Passed, PassedTo};
ghost use Rattle.violations.specs.Views.{operations_of, seen_of};

use crate::scene::Scene;
use crate::stale::AtStation;
use recording::Recording;
use rows::{Table, WORDS};
use sessions::StationView;
use violations::{Pair, Rivals, View};

// The last operation of a station.
pub(crate) fn last_of(recording: &Recording, station: usize) -> Option<usize>
    requires { station < (recorded recording.now).stations }
    ensures { LastOf (recorded recording.now).operations station result }
{
    recording.entry(station)?.last
}

impl Scene<'_, '_> {
    // The first station with violation 6, as an error; else the first with violation 7, if there is one.
    pub(crate) fn pass_stations(
        self,
        working: &mut [u64; WORDS],
    ) -> Result<Option<AtStation<Rivals>>, AtStation<Pair>>
        ensures { PassedTo (operations_of self.entry.view) (seen_of self.entry.view) (recorded self.entry.view.recording.now).stations result }
    {
        let mut cyclic = None;
        for station in 0..self.view.recording.stations() {
            cyclic = self.pass(working, station, cyclic)?;
        }
        Ok(cyclic)
    }

    // Passes one station. The violation 7 of an earlier one is kept.
    fn pass(
        self,
        working: &mut [u64; WORDS],
        station: usize,
        cyclic: Option<AtStation<Rivals>>,
    ) -> Result<Option<AtStation<Rivals>>, AtStation<Pair>>
        requires station { station < (recorded self.view.recording.now).stations }
        requires passed { Passed (operations_of self.view) (seen_of self.view) station cyclic }
        ensures { PassedTo (operations_of self.entry.view) (seen_of self.entry.view) (station + 1) result }
    {
        let Some(last) = last_of(self.view.recording, station) else {
            return Ok(cyclic);
        };
        match self.find_at(last, working) {
            Ok(None) => Ok(cyclic),
            Ok(Some(found)) => Ok(cyclic.or(Some(AtStation {
                station,
                last,
                found,
            }))),
            Err(found) => Err(AtStation {
                station,
                last,
                found,
            }),
        }
    }

    // What stands against the station of its last operation: violation 6, as an error; else violation 7.
    fn find_at(self, last: usize, working: &mut [u64; WORDS]) -> Result<Option<Rivals>, Pair>
        requires { last < length (operations_of self.view) }
        ensures { FoundAt (operations_of self.entry.view) (seen_of self.entry.view) last result }
    {
        let view = self.view;
        StationView { view, last }.put_happened(working);
        let recording = view.recording;
        let seen = Table { words: working };
        let view = View { recording, seen };
        let happened = StationView { view, last };
        match happened.hb_init_read() {
            Some(pair) => Err(pair),
            None => Ok(happened.cyclic_hb()),
        }
    }
}
