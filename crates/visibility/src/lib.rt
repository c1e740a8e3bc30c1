//! Visibility rules, and the least visibility of a recording under one.
#![tactic(auto)]

pub mod causal;
mod draft;
mod few;
pub mod growing;
pub mod late;
pub mod least;
pub mod outline;
pub mod rule;
pub mod sight;
pub mod sources;
pub mod terms;

pub use causal::Causal;
pub use growing::{grow, sweep};
pub use late::{Late, LateRefusal};
pub use least::least_visibility;
pub use outline::{Outline, Shape};
pub use rule::Rule;
pub use sight::Sight;
pub use sources::put_sources;
pub use terms::{Misspelled, TermList};
