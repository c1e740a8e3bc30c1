//! The pairs that a term list demands, by whole rows.
ghost use Rattle.std.specs.Prelude.{◌≡◌, ℕ, ◌<◌, true, Decides};
ghost use Rattle.rows.specs.Members.{member};
ghost use Rattle.visibility.specs.Shapes.{shapes_of, before};
ghost use Rattle.visibility.specs.Sights.{shapes_in, seen_in};
ghost use Rattle.visibility.specs.Terms.{term_of, Step, Walk, TermDemand};
ghost use Rattle.visibility.specs.Walks.{walk_grows};

use crate::outline::Outline;
use crate::rule::Rule;
use crate::sight::Sight;
use crate::terms::{Letter, TermList};
use relation::Relation;
use relation::image::image;
use rows::Row;

const LABEL: u8 = 2;

// Station order as a relation.
#[derive(Clone, Copy)]
struct StationOrder<'a> {
    outline: &'a Outline,
}

impl Relation for StationOrder<'_> {
    ghost holds = { λ s a b. before (shapes_of s.outline.now) a b };

    fn row(&self, a: usize) -> Row {
        self.outline.later(a)
    }
}

impl Rule for TermList {
    ghost demands = { λ s f v a b. TermDemand s f v a b };

    ghost known = { λ _. 2 };

    ghost grows = { λ s f u v i a b d. (d.0, d.1, walk_grows f u v i (term_of s d.0) a b d.2) };

    fn asks(&self, sight: Sight<'_, '_>, a: usize, b: usize) -> bool {
        self.demanded(sight, a).contains(b)
    }

    fn label(&self) -> u8 {
        LABEL
    }

    fn demanded(&self, sight: Sight<'_, '_>, a: usize) -> Row {
        let count = sight.outline.count();
        if a >= count {
            return Row::empty();
        }
        let mut all = Row::empty();
        for term in self.terms.iter() {
            all = all.union(reach(term, sight, a));
        }
        all.intersection(Row::below(count))
    }
}

// What the steps by some letters join `a` to.
fn reach(letters: &[Letter], sight: Sight<'_, '_>, a: usize) -> Row
    requires { a < 256 }
    ensures { (b : ℕ) → Decides (member result b) (Walk (shapes_in sight.entry) (seen_in sight.entry) letters.now a b) }
{
    let mut reached = Row::of(a);
    for letter in letters {
        reached = step(*letter, sight, reached);
    }
    reached
}

// What one step by a letter leads to from some number of a set.
fn step(letter: Letter, sight: Sight<'_, '_>, from: Row) -> Row
    ensures { (b : ℕ) → Decides (member result b) ((a : ℕ) × (member from a ≡ true) × Step (shapes_in sight.entry) (seen_in sight.entry) letter a b) }
{
    match letter {
        Letter::Station => image(
            &StationOrder {
                outline: sight.outline,
            },
            from,
        ),
        Letter::Seen => image(&sight.seen, from),
    }
}
