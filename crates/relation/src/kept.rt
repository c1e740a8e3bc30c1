//! A relation as a table keeps it.
ghost use Rattle.rows.specs.Members.{related};

use crate::pairs::Relation;
use rows::{Row, Table};

impl Relation for Table<'_> {
    ghost holds = { λ s a b. related s.words.now a b };

    fn row(&self, a: usize) -> Row {
        Table::row(*self, a)
    }
}
