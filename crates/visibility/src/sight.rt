//! An outline, and what its operations see: what a rule is asked about.
ghost use Rattle.std.specs.Prelude.{ℕ, Decides};
ghost use Rattle.rows.specs.Members.{member};
ghost use Rattle.visibility.specs.Sights.{shapes_in, seen_in};
ghost use Rattle.visibility.specs.Visible.{Asked, Through};

use crate::outline::Outline;
use relation::image::image;
use rows::{Row, Table};

/// An outline, and what its operations see.
#[derive(Clone, Copy)]
pub struct Sight<'o, 's> {
    pub outline: &'o Outline,
    pub seen: Table<'s>,
}

impl Sight<'_, '_> {
    /// The operations that see one that sees operation `a`; none where there is no operation `a`.
    // Inlined, since as a call it makes the causal rule take a third longer.
    #[inline]
    pub fn through(self, a: usize) -> Row
        ensures { (b : ℕ) → Decides (member result b) (Asked (λ _ v. Through v) (shapes_in self.entry) (seen_in self.entry) a b) }
    {
        let count = self.outline.count();
        if a < count {
            image(&self.seen, self.seen.row(a)).intersection(Row::below(count))
        } else {
            Row::empty()
        }
    }
}
