//! Numbers that look as if they were thrown, the same in every run.

/// A fixed sequence of numbers.
#[derive(Clone, Copy)]
pub struct Dice {
    state: u64,
}

impl Dice {
    /// The sequence that begins at a seed.
    pub fn new(seed: u64) -> Dice {
        Dice { state: seed }
    }

    /// The next number, below `sides`; 0 where there are none.
    pub fn below(&mut self, sides: u32) -> u32 {
        self.state = self
            .state
            .wrapping_mul(6364136223846793005)
            .wrapping_add(1442695040888963407);
        if sides == 0 {
            return 0;
        }
        ((self.state >> 33) % sides as u64) as u32
    }
}
