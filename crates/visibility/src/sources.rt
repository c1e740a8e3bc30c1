//! The sources of reads as a table.
ghost use Rattle.std.specs.Prelude.{◌≡◌, ℕ, true, ◌⊎◌, length, Decides, ◌≢◌};
ghost use Rattle.recording.specs.Operations.{SourceOf};
ghost use Rattle.recording.specs.Telling.{recorded};
ghost use Rattle.rows.specs.Members.{member, related};
ghost use Rattle.visibility.specs.Visible.{SourceTable};

use recording::Recording;
use rows::{Row, WORDS, clear, put_pair};

/// Makes a table of 1,024 words hold (source, read) for each of the reads that has a source, and nothing else.
/// Words of another length are left as they are.
pub fn put_sources(recording: &Recording, reads: Row, table: &mut [u64])
    ensures sources { length table.old ≡ 1024 → SourceTable (recorded recording.now).operations (λ r. member reads r ≡ true) table.new }
    ensures unfit { length table.old ≢ 1024 → table.new ≡ table.old }
{
    if let Some(table) = table.as_mut_array::<WORDS>() {
        clear(table);
        for read in reads.members() {
            put_source(recording, read, table);
        }
    }
}

// Adds (source, read), if the number is that of a read with a source.
fn put_source(recording: &Recording, read: usize, table: &mut [u64; WORDS])
    ensures { (a b : ℕ) → Decides (related table.new a b) ((related table.old a b ≡ true) ⊎ ((b ≡ read) × SourceOf (recorded recording.now).operations a b)) }
{
    if let Ok(Some(write)) = recording.source(read) {
        put_pair(table, write, read);
    }
}
