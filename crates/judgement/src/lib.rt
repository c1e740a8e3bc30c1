//! Judgements of recordings: own, shared and session; the order for a read, and the listing of a station.
#![tactic(auto)]

mod arbitration;
pub mod for_read;
pub mod for_station;
mod lending;
pub mod own;
pub mod refusal;
mod scene;
pub mod session;
pub mod shared;
mod showing;
mod shown;
mod stale;
pub mod verdict;

pub use for_read::order_for_read;
pub use for_station::order_for_station;
pub use own::judge_own;
pub use refusal::Refusal;
pub use session::judge_session;
pub use shared::judge_shared;
pub use verdict::{Verdict, Violation};
