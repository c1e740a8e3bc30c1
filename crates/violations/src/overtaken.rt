//! Reads that see a write after the one whose value they have: first the other writes of its register that a read sees, and
//! only if there are any, what comes after its source.
ghost use Rattle.std.specs.Prelude.{◌≡◌, true};
ghost use Rattle.recording.specs.Operations.{SourceOf};
ghost use Rattle.rows.specs.Members.{member};
ghost use Rattle.violations.specs.Firsts.{SmallestRivals};
ghost use Rattle.violations.specs.Overtaking.{FoundRival, FoundRivals};
ghost use Rattle.violations.specs.Views.{operations_of, seen_of};
ghost use Rattle.violations.specs.Violations.{Rival, BadRead};

use crate::evidence::Rivals;
use crate::view::View;
use relation::reach::reach;
use rows::Row;

impl View<'_, '_> {
    /// The smallest read that sees another write of its register to which steps between writes lead from its source,
    /// with the smallest such write.
    pub fn bad_read(self) -> Option<Rivals>
        ensures { SmallestRivals (BadRead (operations_of self.entry) (seen_of self.entry)) result }
    {
        let between = self.between_writes();
        self.overtaken(Row::below(self.recording.count()), |source| {
            reach(&between, source)
        })
    }

    /// The smallest of some reads that sees another write of its register that comes after its source, with the source and the
    /// smallest such write.
    pub fn overtaken<F: Fn(usize) -> Row>(self, reads: Row, after: F) -> Option<Rivals>
        requires { F.IsAlwaysCallable after }
        ensures { FoundRivals (λ r w x. (member reads r ≡ true) × Rival (operations_of self.entry) (seen_of self.entry) r w x) (λ w row. F.post after w row) result }
    {
        for read in reads.members() {
            if let Ok(Some(source)) = self.recording.source(read) {
                if let Some(rival) = self.overtaker(read, source, &after) {
                    return Some(Rivals {
                        read,
                        source,
                        rival,
                    });
                }
            }
        }
        None
    }

    // The smallest write that overtakes the source of a read.
    fn overtaker<F: Fn(usize) -> Row>(self, read: usize, source: usize, after: &F) -> Option<usize>
        requires source { SourceOf (operations_of self) source read }
        requires after { F.IsAlwaysCallable after.now }
        ensures { FoundRival (Rival (operations_of self.entry) (seen_of self.entry) read source) (λ row. F.post after.entry.now source row) result }
    {
        let first = self.first_rival(read, source)?;
        after(source)
            .difference(Row::below(first))
            .find(|other| self.is_rival(read, source, other))
    }
}
