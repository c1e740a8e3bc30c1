//! How an outline is made of a recording.
ghost use Rattle.std.specs.Prelude.{◌≡◌, ◌≤◌, map, length};
ghost use Rattle.recording.specs.Telling.{recorded};
ghost use Rattle.visibility.specs.Shapes.{shapes_of, shape};

use crate::outline::{Outline, Shape};
use arrayvec::ArrayVec;
use recording::{Operation, Recording};

impl From<Operation> for Shape {
    ghost from_gives = { λ operation x. x ≡ shape operation };

    fn from(operation: Operation) -> Shape {
        Shape {
            kind: operation.kind,
            station: operation.station,
            register: operation.register,
        }
    }
}

impl From<&Recording> for Outline {
    ghost from_gives = { λ recording outline. shapes_of outline ≡ map shape (recorded recording.now).operations };

    fn from(recording: &Recording) -> Outline {
        let mut shapes = ArrayVec::new();
        for operation in recording.operations() {
            shapes.push(Shape::from(*operation));
        }
        Outline { shapes }
    }
}

impl Outline {
    /// How many operations there are.
    pub fn count(&self) -> usize
        ensures count { result ≡ length (shapes_of self.now) }
        ensures few { result ≤ 256 }
    {
        self.shapes.len()
    }
}
