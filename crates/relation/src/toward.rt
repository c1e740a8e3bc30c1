//! From each number of a set to one number.
ghost use Rattle.std.specs.Prelude.{◌&&◌, ◌==◌, nat_lt};
ghost use Rattle.rows.specs.Members.{member};

use crate::pairs::Relation;
use rows::Row;

/// Relates each number of a set to one number; a number above 255 is related to none, and none to it.
#[derive(Clone, Copy)]
pub struct Toward {
    pub from: Row,
    pub to: usize,
}

impl Relation for Toward {
    ghost holds = { λ s a b. member s.from a && (nat_lt s.to 256 && b == s.to) };

    fn row(&self, a: usize) -> Row {
        if self.from.contains(a) {
            Row::of(self.to)
        } else {
            Row::empty()
        }
    }
}
