//! Any question about any run of calls: the main promise on one call.
#![tactic(auto)]

pub mod asking;
pub mod question;

pub use asking::examine;
pub use question::{Question, Reply};
