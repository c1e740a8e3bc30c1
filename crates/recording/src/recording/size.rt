//! How large a recording is.
ghost use Rattle.std.specs.Prelude.{◌≡◌, length};
ghost use Rattle.recording.specs.Telling.{recorded};

use crate::recording::Recording;

impl Recording {
    /// How many stations there are.
    pub fn stations(&self) -> usize
        ensures { result ≡ (recorded self.now).stations }
    {
        self.stations as usize
    }

    /// How many operations there are.
    pub fn count(&self) -> usize
        ensures { result ≡ length (recorded self.now).operations }
    {
        self.operations.len()
    }
}
