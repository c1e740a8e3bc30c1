//! Relations on operation numbers, and the one way to put numbers in an order that keeps a relation, or to find a cycle.
#![tactic(auto)]

pub mod front;
pub mod image;
pub mod kept;
pub mod narrowed;
pub mod order;
pub mod pairs;
pub mod reach;
pub mod theory;
pub mod toward;
pub mod union;
mod walk;

pub use front::put_front;
pub use narrowed::Narrowed;
pub use order::{Obstacle, order_or_cycle};
pub use pairs::Relation;
pub use theory::order_theory;
pub use toward::Toward;
pub use union::Union;
