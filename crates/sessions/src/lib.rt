//! What it means that a recording is explained by sessions, and what stands against it: what has happened before what for
//! the last operation of a station, and the violations of that.
#![tactic(auto)]

pub mod happening;
pub mod listed;
pub mod past;
pub mod stale;
pub mod station_view;
pub mod stations;

pub use happening::Happening;
pub use listed::Listed;
pub use station_view::StationView;
pub use stations::{is_station_read, station_reads};
