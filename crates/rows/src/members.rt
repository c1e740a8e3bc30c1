//! Goes through the members of a set.
ghost use Rattle.std.specs.Iterator.{at_most};
ghost use Rattle.rows.specs.Counts.{size};
ghost use Rattle.rows.specs.Members.{member};
ghost use Rattle.rows.specs.Steps.{Next};

use crate::row::Row;

/// The members that are left of a set, the smallest first.
#[derive(Clone, Copy)]
pub struct Members {
    pub left: Row,
}

impl Iterator for Members {
    type Item = usize;

    ghost next_gives = { λ s first t. Next (member s.left) first (member t.left) };

    ghost remaining = { λ s. at_most (size (member s.left) 256) };

    fn next(&mut self) -> Option<usize> {
        self.left.take_first()
    }
}
