//! What the words of a recording say.

/// One record: a frame, an operation, or a note with its text.
// A write and a read have a case each, as the format has a kind of word for each, and a recording a call.
#[derive(Clone, Copy)]
pub enum Record<'a> {
    Opening(u8),
    Write {
        station: u8,
        register: u8,
        value: u32,
    },
    Read {
        station: u8,
        register: u8,
        value: u32,
    },
    Note(&'a [u32]),
    Closing(u32),
}

/// A record, with the place of its first word.
#[derive(Clone, Copy)]
pub struct Placed<'a> {
    pub place: usize,
    pub record: Record<'a>,
}
