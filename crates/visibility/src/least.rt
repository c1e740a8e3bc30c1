//! The least visibility of a recording under a rule.
ghost use Rattle.std.specs.Prelude.{◌≡◌, length, ◌≢◌};
ghost use Rattle.recording.specs.Telling.{recorded};
ghost use Rattle.rows.specs.Members.{related};
ghost use Rattle.visibility.specs.Visible.{IsLeast};

use crate::growing::grow;
use crate::outline::Outline;
use crate::rule::Rule;
use crate::sources::put_sources;
use recording::Recording;
use rows::{Row, WORDS};

/// Makes a table of 1,024 words the least visibility of the recording under the rule, pair for pair.
/// Words of another length are left as they are.
pub fn least_visibility<R: Rule>(recording: &Recording, rule: &R, table: &mut [u64])
    ensures least { length table.old ≡ 1024 → IsLeast (R.demands rule.now) (recorded recording.now).operations (related table.new) }
    ensures unfit { length table.old ≢ 1024 → table.new ≡ table.old }
{
    if let Some(table) = table.as_mut_array::<WORDS>() {
        put_sources(recording, Row::below(recording.count()), table);
        grow(rule, &Outline::from(recording), table);
    }
}
