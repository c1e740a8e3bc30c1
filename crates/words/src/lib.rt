//! Recordings as words of 32 bits: the reader, load and save, and whole runs of calls.
#![tactic(auto)]

pub mod calls;
pub mod fault;
mod field;
mod kind;
pub mod loading;
pub mod reader;
pub mod record;
pub mod saving;

pub use calls::{Answer, Call, CallRefusal, tell, told};
pub use fault::{Fault, Misread};
pub use loading::{LoadRefusal, load};
pub use reader::Reader;
pub use record::{Placed, Record};
pub use saving::{SaveRefusal, copy, save};
