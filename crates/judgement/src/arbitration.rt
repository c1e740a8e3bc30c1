//! One order of all writes for all reads, or a cycle of what it would have to keep.
ghost use Rattle.std.specs.Prelude.{length};
ghost use Rattle.judgement.specs.Arbitrated.{Arbitrated};
ghost use Rattle.violations.specs.Views.{operations_of, seen_of};
ghost use Rattle.violations.specs.Tabled.{Tabled};

use crate::lending::NUMBERS;
use crate::scene::Scene;
use crate::shown::Shown;
use crate::verdict::Violation;
use relation::{Obstacle, Union, order_or_cycle};
use rows::Table;

impl Scene<'_, '_> {
    // Puts at the front of the evidence an order of all writes that keeps visibility and conflicts, and answers its length;
    // or shows a cycle of these.
    pub(crate) fn arbitrate(
        self,
        conflicts: Table<'_>,
        evidence: &mut [u16; NUMBERS],
    ) -> Result<usize, Shown>
        requires { Tabled (operations_of self.view) (seen_of self.view) (length (operations_of self.view)) conflicts.words.now }
        ensures { Arbitrated (operations_of self.entry.view) (seen_of self.entry.view) evidence.old evidence.new result }
    {
        let between = self.view.between_writes();
        let kept = Union {
            one: between,
            other: conflicts,
        };
        match order_or_cycle(&kept, between.mask, evidence) {
            Ok(count) => Ok(count),
            Err(Obstacle::Cycle(count)) => Err(Shown {
                violation: Violation::BadArb,
                station: 0,
                count,
            }),
            Err(Obstacle::NoRoom) => unreachable(),
        }
    }
}
