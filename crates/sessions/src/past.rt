//! What has happened before what for the last operation of a station: grown from visibility among what it sees.
ghost use Rattle.std.specs.Prelude.{◌≡◌, ℕ, length, Decides, ◌≢◌};
ghost use Rattle.rows.specs.Members.{member, related};
ghost use Rattle.violations.specs.Views.{operations_of, seen_of};
ghost use Rattle.sessions.specs.Deriving.{Grounded, PastOperation, PastTable};
ghost use Rattle.sessions.specs.Happening.{HappensBefore};

use crate::happening::Happening;
use crate::station_view::StationView;
use rows::{Row, WORDS, clear, put_row};
use visibility::{Outline, grow};

impl StationView<'_, '_> {
    /// Makes a table of 1,024 words the smallest transitive relation that holds what is seen among the operation `last` and all
    /// that it sees, and puts a write that is before a read of its station before the read's source. Words of another length are
    /// left as they are.
    pub fn put_happened(self, table: &mut [u64])
        ensures happened { Grounded (operations_of self.entry.view) (seen_of self.entry.view) self.entry.last table.old → HappensBefore (operations_of self.entry.view) (seen_of self.entry.view) self.entry.last (related table.new) }
        ensures unfit { length table.old ≢ 1024 → table.new ≡ table.old }
    {
        if let Some(table) = table.as_mut_array::<WORDS>() {
            self.put_past(table);
            let recording = self.view.recording;
            grow(
                &Happening::of(recording, self.last),
                &Outline::from(recording),
                table,
            );
        }
    }

    // Makes the table hold what is seen among `last` and all that it sees, and nothing else.
    fn put_past(self, table: &mut [u64; WORDS])
        ensures { PastTable (operations_of self.entry.view) (seen_of self.entry.view) self.entry.last table.new }
    {
        let past = self.past();
        clear(table);
        for a in past.members() {
            put_row(table, a, self.view.seen.row(a).intersection(past));
        }
    }

    /// The operation `last`, and all operations that it sees.
    pub fn past(self) -> Row
        ensures { (a : ℕ) → Decides (member result a) (PastOperation (operations_of self.entry.view) (seen_of self.entry.view) self.entry.last a) }
    {
        let count = self.view.recording.count();
        Row::below(count).filter(|a| a == self.last || self.view.seen.pair(a, self.last))
    }
}
