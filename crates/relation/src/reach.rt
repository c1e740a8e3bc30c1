//! Where the steps of a relation lead. Costs a row for each number that is reached.
ghost use Rattle.std.specs.Prelude.{◌≡◌, ℕ, true, Decides};
ghost use Rattle.rows.specs.Members.{member};
ghost use Rattle.relation.specs.Steps.{Steps};

use crate::image::image;
use crate::pairs::Relation;
use rows::Row;

/// The numbers that one or more steps lead to from `a`.
pub fn reach<R: Relation>(relation: &R, a: usize) -> Row
    ensures { (b : ℕ) → Decides (member result b) (Steps (λ x y. R.holds relation.now x y ≡ true) a b) }
{
    let mut reached = Row::empty();
    let mut new = relation.row(a);
    'reaching: while !new.is_empty() {
        reached = reached.union(new);
        new = image(relation, new).difference(reached);
    }
    reached
}
