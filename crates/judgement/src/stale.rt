//! The violations of stations: looked for at each station, 6 before 7.

mod passing;

pub(crate) use passing::last_of;

// What is found at a station, with its last operation.
#[derive(Clone, Copy)]
pub(crate) struct AtStation<T> {
    pub(crate) station: usize,
    pub(crate) last: usize,
    pub(crate) found: T,
}
