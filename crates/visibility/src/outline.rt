//! What a rule may look at of a recording: stations, kinds and registers in their order, and no values.
ghost use Rattle.std.specs.Prelude.{◌≡◌, ◌≤◌, length};

use arrayvec::ArrayVec;
use recording::Kind;

mod later;
mod making;
mod reading;

/// An operation without its value.
#[derive(Clone, Copy, Default)]
pub struct Shape {
    pub kind: Kind,
    pub station: u8,
    pub register: u8,
}

/// The operations of a recording without their values.
#[derive(Drop)]
pub struct Outline {
    shapes: ArrayVec<Shape, 256>,
    ghost few: { length shapes.items ≤ 256 },
}
