//! The writes of a recording, and what is seen between them.
ghost use Rattle.std.specs.Prelude.{◌≡◌, ℕ, ◌&&◌, Decides};
ghost use Rattle.recording.specs.Operations.{IsWrite};
ghost use Rattle.recording.specs.Telling.{recorded};
ghost use Rattle.rows.specs.Members.{member, related};
ghost use Rattle.violations.specs.Explained.{Writes};
ghost use Rattle.violations.specs.Views.{operations_of, seen_of};

use crate::view::View;
use recording::{Kind, Recording};
use relation::Narrowed;
use rows::{Row, Table};

/// The writes.
pub fn writes(recording: &Recording) -> Row
    ensures { (k : ℕ) → Decides (member result k) (IsWrite (recorded recording.now).operations k) }
{
    Row::below(recording.count()).filter(|number| is_write(recording, number))
}

// Whether a number names a write.
fn is_write(recording: &Recording, number: usize) -> bool
    ensures { Decides result (IsWrite (recorded recording.now).operations number) }
{
    recording
        .operation(number)
        .is_some_and(|operation| operation.kind == Kind::Write)
}

impl<'s> View<'_, 's> {
    /// What is seen, narrowed to the writes.
    pub fn between_writes(self) -> Narrowed<Table<'s>>
        ensures writes { (k : ℕ) → Decides (member result.mask k) (IsWrite (operations_of self.entry) k) }
        ensures between { (a b : ℕ) → Decides (member result.mask a && (member result.mask b && related result.relation.words.now a b)) (Writes (operations_of self.entry) (seen_of self.entry) a b) }
    {
        Narrowed {
            relation: self.seen,
            mask: writes(self.recording),
        }
    }
}
