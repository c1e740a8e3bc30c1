//! What either of two relations relates.
ghost use Rattle.std.specs.Prelude.{◌||◌};

use crate::pairs::Relation;
use rows::Row;

/// The union of two relations.
#[derive(Clone, Copy)]
pub struct Union<A, B> {
    pub one: A,
    pub other: B,
}

impl<A: Relation, B: Relation> Relation for Union<A, B> {
    ghost holds = { λ s a b. A.holds s.one a b || B.holds s.other a b };

    fn row(&self, a: usize) -> Row {
        self.one.row(a).union(self.other.row(a))
    }
}
