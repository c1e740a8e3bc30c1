//! A recording, and what its operations see.
use recording::Recording;
use rows::Table;

/// A recording, and what its operations see.
#[derive(Clone, Copy)]
pub struct View<'r, 's> {
    pub recording: &'r Recording,
    pub seen: Table<'s>,
}
