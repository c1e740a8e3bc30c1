//! Which write has to come before which, for the sake of a read.
ghost use Rattle.std.specs.Prelude.{◌≡◌, ◌+◌, ◌<◌, length, ◌≢◌};
ghost use Rattle.violations.specs.Tabled.{Tabled};
ghost use Rattle.violations.specs.Views.{operations_of, seen_of};

use crate::view::View;
use rows::{WORDS, clear, put_pair};

impl View<'_, '_> {
    /// Makes a table of 1,024 words hold (x, w) for each conflict, and nothing else. Words of another length are left as they are.
    pub fn put_conflicts(self, table: &mut [u64])
        ensures conflicts { length table.old ≡ 1024 → Tabled (operations_of self.entry) (seen_of self.entry) (length (operations_of self.entry)) table.new }
        ensures unfit { length table.old ≢ 1024 → table.new ≡ table.old }
    {
        if let Some(table) = table.as_mut_array::<WORDS>() {
            clear(table);
            for read in 0..self.recording.count() {
                self.put_rivals(read, table);
            }
        }
    }

    // Adds the conflicts of one number, if it names a read with a source.
    fn put_rivals(self, read: usize, table: &mut [u64; WORDS])
        requires { Tabled (operations_of self) (seen_of self) read table.old }
        ensures { Tabled (operations_of self.entry) (seen_of self.entry) (read + 1) table.new }
    {
        let Ok(Some(source)) = self.recording.source(read) else {
            return;
        };
        let rivals = self.rivals_of(read, source);
        for other in rivals.members() {
            put_pair(table, other, source);
        }
    }
}
