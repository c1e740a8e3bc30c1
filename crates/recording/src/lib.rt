//! Recordings of reads and writes: how one is told, and what can be looked up in it.
#![tactic(auto)]

pub mod operation;
pub mod recording;
pub mod refusal;
pub mod stations;

pub use operation::{Kind, Operation};
pub use recording::Recording;
pub use refusal::Refusal;
pub use stations::Entry;
