//! What a listing keeps.
ghost use Rattle.std.specs.Prelude.{◌≡◌, ℕ, not, ◌&&◌, ◌||◌, ◌==◌, nat_lt};
ghost use Rattle.rows.specs.Members.{member, related};

use relation::Relation;
use rows::{Row, Table};

/// What has happened before what, and each of some reads before all that has not happened before it.
#[derive(Clone, Copy)]
pub struct Listed<'a> {
    pub happened: Table<'a>,
    pub reads: Row,
}

impl Relation for Listed<'_> {
    ghost holds = { λ s a b. related s.happened.words.now a b || (member s.reads a && (nat_lt b 256 && (not (b == a) && not (related s.happened.words.now b a)))) };

    fn row(&self, a: usize) -> Row {
        let row = self.happened.row(a);
        if self.reads.contains(a) {
            row.union(others(self.happened, a))
        } else {
            row
        }
    }
}

// All other numbers below 256 that have not happened before `a`.
fn others(happened: Table<'_>, a: usize) -> Row
    ensures { (b : ℕ) → member result b ≡ (nat_lt b 256 && (not (b == a) && not (related happened.entry.words.now b a))) }
{
    Row::below(256).without(a).filter(|b| !happened.pair(b, a))
}
