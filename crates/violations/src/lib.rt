//! What explained means, the violations that stand against a recording, and how each is found; the proofs say why they decide.
#![tactic(auto)]

pub mod conflicts;
pub mod evidence;
pub mod overtaken;
pub mod rivals;
pub mod sight;
pub mod sourceless;
pub mod view;
pub mod written;

pub use evidence::{Pair, Rivals};
pub use sourceless::{is_initial_read, thin_air};
pub use view::View;
pub use written::writes;
