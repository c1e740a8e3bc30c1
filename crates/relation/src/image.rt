//! What the numbers of a set are related to. Costs a row for each number of the set.
ghost use Rattle.rows.specs.Members.{member};
ghost use Rattle.relation.specs.Orders.{Image};

use crate::pairs::Relation;
use rows::Row;

/// The numbers that some number of `from` is related to.
pub fn image<R: Relation>(relation: &R, from: Row) -> Row
    ensures { Image (R.holds relation.now) (member from) (member result) }
{
    from.gather(|a| relation.row(a))
}
