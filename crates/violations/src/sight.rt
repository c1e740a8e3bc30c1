//! Which writes of its register a read sees. The writes, by the name that they have beside it.
ghost use Rattle.std.specs.Prelude.{Decides};
ghost use Rattle.violations.specs.Explained.{In, SeesOf};
ghost use Rattle.violations.specs.Views.{operations_of, seen_of};

use crate::view::View;
pub use crate::written::writes;
use recording::Kind;

impl View<'_, '_> {
    /// Whether a number names a write of `read`'s register that `read` sees.
    pub fn sees(self, read: usize, write: usize) -> bool
        ensures { Decides result (SeesOf (operations_of self.entry) (In (seen_of self.entry)) read write) }
    {
        self.recording.operation(write).is_some_and(|writer| {
            writer.kind == Kind::Write
                && writer.register == self.recording.operation(read).unwrap_or_default().register
        }) && self.seen.pair(write, read)
    }
}
