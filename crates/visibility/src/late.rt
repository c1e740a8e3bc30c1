//! The late rule: what came long enough before at one station is seen.
ghost use Rattle.std.specs.Prelude.{◌≤◌};
ghost use Rattle.visibility.specs.Visible.{LateDemand};

use crate::rule::Rule;
use crate::sight::Sight;
use rows::Row;

mod making;

const LABEL: u8 = 3;

/// The late rule, label 3, with its distance, 1 to 255.
#[derive(Clone, Copy)]
pub struct Late {
    distance: u8,
    ghost some: { 1 ≤ distance },
}

/// Why a late rule is refused.
#[derive(Clone, Copy, PartialEq, Eq, Debug)]
pub enum LateRefusal {
    /// 16: a distance of 0 or above 255.
    Distance = 16,
}

impl Rule for Late {
    ghost demands = { λ s f v a b. LateDemand s.distance f a b };

    ghost known = { λ _. 3 };

    ghost grows = { λ _ _ _ _ _ _ _ d. d };

    fn asks(&self, sight: Sight<'_, '_>, a: usize, b: usize) -> bool {
        self.demanded(sight, a).contains(b)
    }

    fn label(&self) -> u8 {
        LABEL
    }

    fn demanded(&self, sight: Sight<'_, '_>, a: usize) -> Row {
        let mut later = sight.outline.later(a).members();
        // Not by `skip`, since what is wanted is the set that is left.
        for _ in 1..self.distance {
            if later.next().is_none() {
                break;
            }
        }
        later.left
    }
}
