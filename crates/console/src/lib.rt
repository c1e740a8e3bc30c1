//! What the programs share: the lines of a recording in text, and what is printed of calls and recordings.
#![tactic(auto)]

pub mod line;
pub mod printing;

pub use line::{Unreadable, parse};
pub use printing::{print_answer, print_operations, print_words};
