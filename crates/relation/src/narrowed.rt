//! What a relation relates of the numbers of a set.
ghost use Rattle.std.specs.Prelude.{◌&&◌};
ghost use Rattle.rows.specs.Members.{member};

use crate::pairs::Relation;
use rows::Row;

/// A relation, narrowed to the pairs of which both ends are in the mask.
#[derive(Clone, Copy)]
pub struct Narrowed<R> {
    pub relation: R,
    pub mask: Row,
}

impl<R: Relation> Relation for Narrowed<R> {
    ghost holds = { λ s a b. member s.mask a && (member s.mask b && R.holds s.relation a b) };

    fn row(&self, a: usize) -> Row {
        if self.mask.contains(a) {
            self.mask.intersection(self.relation.row(a))
        } else {
            Row::empty()
        }
    }
}
