//! What a relation on numbers is to the code: it answers the row of a number.
ghost use Rattle.std.specs.Prelude.{◌≡◌, ℕ, Bool};
ghost use Rattle.rows.specs.Members.{member};

use rows::Row;

/// A relation on the numbers below 256.
pub trait Relation {
    /// Whether it relates the first number to the second.
    ghost holds: { Self → ℕ → ℕ → Bool };

    /// The numbers that `a` is related to.
    fn row(&self, a: usize) -> Row
        ensures { (b : ℕ) → member result b ≡ holds self.now a b };
}
