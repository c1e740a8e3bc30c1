//! What a visibility rule is: which pairs it demands, given the outline of a recording and a visibility.
ghost use Rattle.std.specs.Prelude.{◌≡◌, ℕ, Bool, List, Decides};
ghost use Rattle.rows.specs.Members.{member};
ghost use Rattle.visibility.specs.Growth.{Inside};
ghost use Rattle.visibility.specs.declared.outline.Shape.{Shape};
ghost use Rattle.visibility.specs.Sights.{shapes_in, seen_in};
ghost use Rattle.visibility.specs.Visible.{Asked};

use crate::sight::Sight;
use rows::Row;

/// A visibility rule. Whoever writes one owes what it demands, its law, `asks` and `label`.
pub trait Rule {
    /// Whether the first operation has to be seen by the second, in an outline and under a visibility.
    ghost demands: { Self → List Shape → (ℕ → ℕ → Bool) → ℕ → ℕ → Type 0 };

    /// The number that a rule is known by.
    ghost known: { Self → ℕ };

    /// Whether the pair is demanded; beyond the operations no pair is.
    // No default by `demanded`, whose own is by `asks`: such a ring proves, but is named under `hides`, which the gate refuses.
    fn asks(&self, sight: Sight<'_, '_>, a: usize, b: usize) -> bool
        ensures { Decides result (Asked (demands self.now) (shapes_in sight.entry) (seen_in sight.entry) a b) };

    /// The rule's label, 0 to 255.
    // A number and no enum: whoever writes a rule gives it a label of their own.
    fn label(&self) -> u8
        ensures { result ≡ known self.now };

    /// All operations that have to see `a`.
    fn demanded(&self, sight: Sight<'_, '_>, a: usize) -> Row
        ensures { (b : ℕ) → Decides (member result b) (Asked (demands self.now) (shapes_in sight.entry) (seen_in sight.entry) a b) }
    {
        // A loop, since through `filter` a rule with a cheap `asks` takes twice as long.
        let mut demanded = Row::empty();
        for b in 0..256 {
            if self.asks(sight, a, b) {
                demanded = demanded.with(b);
            }
        }
        demanded
    }

    /// The law: what is demanded under a visibility is demanded under every one that contains it.
    ghost grows: { (s : Self) (f : List Shape) (u v : ℕ → ℕ → Bool) → Inside u v → (a b : ℕ) → demands s f u a b → demands s f v a b };
}
