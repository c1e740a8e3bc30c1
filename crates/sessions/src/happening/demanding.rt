//! What the rule demands: what comes before what comes before, and a write before the source of a read that it is before.
ghost use Rattle.std.specs.Prelude.{ℕ, Decides};
ghost use Rattle.rows.specs.Members.{member, related};
ghost use Rattle.visibility.specs.Sights.{shapes_in, seen_in};
ghost use Rattle.visibility.specs.Visible.{Asked};
ghost use Rattle.sessions.specs.Deriving.{Derives, HappeningDemand};
ghost use Rattle.std.proofs.Common.{rules};

use crate::happening::Happening;
use recording::Kind;
use rows::{Row, Table};
use visibility::{Rule, Sight};

const LABEL: u8 = 0;

impl Rule for Happening {
    ghost demands = { λ s f v a b. HappeningDemand (related s.words) f v a b };

    ghost known = { λ _. 0 };

    ghost grows = { Prim.search rules };

    fn asks(&self, sight: Sight<'_, '_>, a: usize, b: usize) -> bool {
        self.demanded(sight, a).contains(b)
    }

    fn label(&self) -> u8 {
        LABEL
    }

    fn demanded(&self, sight: Sight<'_, '_>, a: usize) -> Row {
        self.derived(sight, a).union(sight.through(a))
    }
}

impl Happening {
    // The sources that the write `a` has to come before.
    fn derived(&self, sight: Sight<'_, '_>, a: usize) -> Row
        ensures { (w : ℕ) → Decides (member result w) (Asked (Derives (related self.now.words)) (shapes_in sight.entry) (seen_in sight.entry) a w) }
    {
        Row::below(sight.outline.count()).filter(|source| self.derives(sight, a, source))
    }

    // Whether `a` is another write of the register of `source`, and before a read whose source that is.
    fn derives(&self, sight: Sight<'_, '_>, a: usize, source: usize) -> bool
        ensures { Decides result (Asked (Derives (related self.now.words)) (shapes_in sight.entry) (seen_in sight.entry) a source) }
    {
        let Some(write) = sight.outline.shape(a) else {
            return false;
        };
        let Some(other) = sight.outline.shape(source) else {
            return false;
        };
        let readers = Table { words: &self.words };
        write.kind == Kind::Write
            && write.register == other.register
            && a != source
            && readers
                .row(source)
                .intersection(sight.seen.row(a))
                .first()
                .is_some()
    }
}
