//! One operation of an outline.
ghost use Rattle.visibility.specs.Shapes.{shapes_of, ShapeAnswer};

use crate::outline::{Outline, Shape};

impl Outline {
    /// The operation of that number, without its value.
    pub fn shape(&self, number: usize) -> Option<Shape>
        ensures { ShapeAnswer (shapes_of self.now) number result }
    {
        self.shapes.get(number).copied()
    }
}
