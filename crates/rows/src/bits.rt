//! Goes through the bits of a word that are set.
ghost use Rattle.std.specs.Prelude.{◌≡◌};
ghost use Rattle.std.specs.Iterator.{at_most};
ghost use Rattle.rows.specs.Counts.{size};
ghost use Rattle.rows.specs.Members.{bit};
ghost use Rattle.rows.specs.Steps.{NextBit};

// The bits that are left of a word, the lowest first. To keep one word at hand costs less than to look through four each time.
#[derive(Clone, Copy)]
pub(crate) struct Bits {
    pub(crate) left: u64,
}

impl Bits {
    // The bits of a word.
    pub(crate) fn of(word: u64) -> Bits
        ensures { result.left ≡ word }
    {
        Bits { left: word }
    }
}

impl Iterator for Bits {
    type Item = usize;

    ghost next_gives = { λ s first t. NextBit s.left first t.left };

    ghost remaining = { λ s. at_most (size (bit s.left) 256) };

    fn next(&mut self) -> Option<usize> {
        if self.left == 0 {
            return None;
        }
        let lowest = self.left.trailing_zeros() as usize;
        self.left &= self.left - 1;
        Some(lowest)
    }
}
