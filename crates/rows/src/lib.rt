//! Sets of operation numbers, and tables with such a set for each number, by words of 64 bits.
//! Only this crate knows of words and bits; everyone else speaks of members and pairs.
#![tactic(auto)]

mod bits;
pub mod members;
pub mod row;
pub mod table;

pub use members::Members;
pub use row::Row;
pub use table::{Table, WORDS, clear, put_pair, put_row};
