//! The causal rule: station order, and what is seen by what is seen is seen.
ghost use Rattle.visibility.specs.Visible.{CausalDemand};
ghost use Rattle.std.proofs.Common.{rules};

use crate::rule::Rule;
use crate::sight::Sight;
use rows::Row;

const LABEL: u8 = 1;

/// The causal rule, label 1.
#[derive(Clone, Copy)]
pub struct Causal;

impl Rule for Causal {
    ghost demands = { λ _ f v a b. CausalDemand f v a b };

    ghost known = { λ _. 1 };

    ghost grows = { Prim.search rules };

    fn asks(&self, sight: Sight<'_, '_>, a: usize, b: usize) -> bool {
        self.demanded(sight, a).contains(b)
    }

    fn label(&self) -> u8 {
        LABEL
    }

    fn demanded(&self, sight: Sight<'_, '_>, a: usize) -> Row {
        sight.outline.later(a).union(sight.through(a))
    }
}
