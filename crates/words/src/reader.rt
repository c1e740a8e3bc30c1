//! A reader: where it stands in the words of a recording.
ghost use Rattle.std.specs.Prelude.{◌≤◌, length};

mod reading;

/// How far a reader has come: before the opening, between it and the closing, or after the closing.
#[derive(Clone, Copy)]
pub enum Phase {
    Before,
    Between,
    After,
}

/// Reads the words of a recording, one record at a time.
#[derive(Clone, Copy)]
pub struct Reader<'a> {
    words: &'a [u32],
    place: usize,
    operations: usize,
    phase: Phase,
    ghost within: { place ≤ length words.now },
    ghost few: { operations ≤ place },
}
