//! Station order, as an outline has it.
ghost use Rattle.std.specs.Prelude.{◌≡◌, ℕ};
ghost use Rattle.rows.specs.Members.{member};
ghost use Rattle.visibility.specs.Shapes.{shapes_of, before};

use crate::outline::Outline;
use rows::Row;

impl Outline {
    /// The later operations of the station of operation `a`.
    pub fn later(&self, a: usize) -> Row
        ensures { (b : ℕ) → member result b ≡ before (shapes_of self.now) a b }
    {
        let Some(first) = self.shapes.get(a) else {
            return Row::empty();
        };
        // A loop, since `Row::below(..).filter(..)` makes the causal rule take three quarters longer.
        let mut later = Row::empty();
        for (b, shape) in self.shapes.iter().enumerate().skip(a + 1) {
            if shape.station == first.station {
                later = later.with(b);
            }
        }
        later
    }
}
