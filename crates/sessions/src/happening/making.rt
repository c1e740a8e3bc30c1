//! How the reads of a station are gathered.
ghost use Rattle.recording.specs.Telling.{recorded};
ghost use Rattle.visibility.specs.Visible.{SourceTable};
ghost use Rattle.sessions.specs.Listings.{StationRead};

use crate::happening::Happening;
use crate::stations::station_reads;
use recording::Recording;
use rows::WORDS;
use visibility::put_sources;

impl Happening {
    /// The reads of the station of operation `last` that have a source.
    pub fn of(recording: &Recording, last: usize) -> Happening
        ensures { SourceTable (recorded recording.now).operations (StationRead (recorded recording.now).operations last) result.words }
    {
        let mut words = [0; WORDS];
        put_sources(recording, station_reads(recording, last), &mut words);
        Happening { words }
    }
}
