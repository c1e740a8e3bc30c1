//! The writes that have to come before the source of a read.
ghost use Rattle.std.specs.Prelude.{ℕ, ◌&&◌, Decides, ◌==◌, nat_lt};
ghost use Rattle.recording.specs.Operations.{SourceOf};
ghost use Rattle.rows.specs.Members.{member};
ghost use Rattle.violations.specs.Firsts.{Smallest};
ghost use Rattle.violations.specs.Views.{operations_of, seen_of};
ghost use Rattle.violations.specs.Violations.{Rival};

use crate::view::View;
use relation::Toward;
use rows::Row;

impl View<'_, '_> {
    /// From each write that has to come before the source of a read to that source; nothing if the number names no read with a source.
    pub fn forced(self, read: usize) -> Toward
        ensures { (a b : ℕ) → Decides (member result.from a && (nat_lt result.to 256 && b == result.to)) (Rival (operations_of self.entry) (seen_of self.entry) read b a) }
    {
        match self.recording.source(read) {
            Ok(Some(source)) => Toward {
                from: self.rivals_of(read, source),
                to: source,
            },
            _ => Toward {
                from: Row::empty(),
                to: 0,
            },
        }
    }

    // The writes of its register that a read sees, other than its source.
    pub(crate) fn rivals_of(self, read: usize, source: usize) -> Row
        requires { SourceOf (operations_of self) source read }
        ensures { (k : ℕ) → Decides (member result k) (Rival (operations_of self.entry) (seen_of self.entry) read source k) }
    {
        Row::below(self.recording.count()).filter(|other| self.is_rival(read, source, other))
    }

    // The smallest such write.
    pub(crate) fn first_rival(self, read: usize, source: usize) -> Option<usize>
        requires { SourceOf (operations_of self) source read }
        ensures { Smallest (Rival (operations_of self.entry) (seen_of self.entry) read source) result }
    {
        Row::below(self.recording.count()).find(|other| self.is_rival(read, source, other))
    }

    // Whether a number names such a write.
    pub(crate) fn is_rival(self, read: usize, source: usize, other: usize) -> bool
        requires { SourceOf (operations_of self) source read }
        ensures { Decides result (Rival (operations_of self.entry) (seen_of self.entry) read source other) }
    {
        other != source && self.sees(read, other)
    }
}
