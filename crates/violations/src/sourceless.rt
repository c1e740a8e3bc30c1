//! Reads without a source: out of thin air, or of 0.
ghost use Rattle.std.specs.Prelude.{◌≡◌, true, Decides};
ghost use Rattle.recording.specs.Operations.{at, IsRead};
ghost use Rattle.recording.specs.Telling.{recorded};
ghost use Rattle.rows.specs.Members.{member};
ghost use Rattle.violations.specs.Firsts.{Smallest, SmallestPair};
ghost use Rattle.violations.specs.Sourceless.{SourcelessValue};
ghost use Rattle.violations.specs.Views.{operations_of, seen_of};
ghost use Rattle.violations.specs.Violations.{ThinAir, InitialRead, BadInitRead};

use crate::evidence::Pair;
use crate::view::View;
use recording::Recording;
use rows::Row;

/// The smallest read that has a value other than 0 and no source.
pub fn thin_air(recording: &Recording) -> Option<usize>
    ensures { Smallest (ThinAir (recorded recording.now).operations) result }
{
    Row::below(recording.count()).find(|number| is_thin_air(recording, number))
}

// Whether a number names a read that has a value other than 0 and no source.
fn is_thin_air(recording: &Recording, number: usize) -> bool
    ensures { Decides result (ThinAir (recorded recording.now).operations number) }
{
    sourceless_value(recording, number).is_some_and(|value| value != 0)
}

/// Whether a number names a read of 0.
pub fn is_initial_read(recording: &Recording, number: usize) -> bool
    ensures { Decides result (InitialRead (recorded recording.now).operations number) }
{
    sourceless_value(recording, number).is_some_and(|value| value == 0)
}

// The value of a read without a source.
fn sourceless_value(recording: &Recording, number: usize) -> Option<u32>
    ensures { SourcelessValue (recorded recording.now).operations number result }
{
    match recording.source(number) {
        Ok(None) => recording.operation(number).map(|read| read.value),
        _ => None,
    }
}

impl View<'_, '_> {
    /// The smallest read of 0 that sees a write of its register, with the smallest such write.
    pub fn bad_init_read(self) -> Option<Pair>
        ensures { SmallestPair (BadInitRead (operations_of self.entry) (seen_of self.entry)) result }
    {
        self.init_read(Row::below(self.recording.count()))
    }

    /// The smallest of some reads that is a read of 0 and sees a write of its register, with the smallest such write.
    pub fn init_read(self, reads: Row) -> Option<Pair>
        ensures { SmallestPair (λ r w. (member reads r ≡ true) × BadInitRead (operations_of self.entry) (seen_of self.entry) r w) result }
    {
        // Nested loops that a label leaves at the first hit are a form that the project fixes.
        let mut found = None;
        'reads: for read in reads.members() {
            if is_initial_read(self.recording, read) {
                for write in 0..self.recording.count() {
                    if self.sees(read, write) {
                        found = Some(Pair { read, write });
                        break 'reads;
                    }
                }
            }
        }
        found
    }
}
