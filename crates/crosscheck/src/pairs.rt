//! Relations on small numbers, as plain arrays: the second checker shares no rows and no tables with the judgements.
use std::array;

/// A relation on the numbers below 16; a made recording has at most twelve operations.
#[derive(Clone, Copy)]
pub struct Pairs {
    rows: [[bool; 16]; 16],
}

impl Pairs {
    /// The pairs that pass a test.
    pub fn that<F: Fn(usize, usize) -> bool>(test: F) -> Pairs
        requires { F.IsAlwaysCallable test }
    {
        Pairs {
            rows: array::from_fn(|a| array::from_fn(|b| test(a, b))),
        }
    }

    /// Whether `a` is related to `b`.
    pub fn has(&self, a: usize, b: usize) -> bool {
        a < 16 && b < 16 && self.rows[a][b]
    }

    /// Relates `a` to `b`.
    pub fn add(&mut self, a: usize, b: usize) {
        if a < 16 && b < 16 {
            self.rows[a][b] = true;
        }
    }

    /// Whether no steps lead from a number to itself.
    // The numbers themselves are what the loops are about: `reached` changes while they run, so it is not iterated over.
    pub fn is_acyclic(&self) -> bool {
        let mut reached = *self;
        for c in 0..16 {
            for a in 0..16 {
                for b in 0..16 {
                    if reached.has(a, c) && reached.has(c, b) {
                        reached.add(a, b);
                    }
                }
            }
        }
        !(0..16).any(|a| reached.has(a, a))
    }
}
