//! Grows a table until it holds all that a rule demands. A round asks for a row of each operation; there are as many
//! rounds as it takes until one changes nothing: one to five in the program `sweeps`, since a round goes from the last to the first.
ghost use Rattle.std.specs.Prelude.{◌≡◌, ◌+◌, ◌<◌, false, length, ◌≢◌};
ghost use Rattle.rows.specs.Members.{related};
ghost use Rattle.visibility.specs.Growth.{Grown, Least};
ghost use Rattle.visibility.specs.Shapes.{shapes_of};
ghost use Rattle.visibility.specs.Visible.{Asked};

use crate::outline::Outline;
use crate::rule::Rule;
use crate::sight::Sight;
use rows::{Table, WORDS, put_row};

/// Adds to a table of 1,024 words what the rule demands, until nothing more is demanded: the least relation that holds
/// what the table held and all that is demanded under it. Words of another length are left as they are.
// Rule, outline and table stand side by side in four functions: a struct of them would be made for one call, and taken apart at
// each row.
pub fn grow<R: Rule>(rule: &R, outline: &Outline, table: &mut [u64])
    ensures least { length table.old ≡ 1024 → Least (Asked (R.demands rule.now) (shapes_of outline.now)) (related table.old) (related table.new) }
    ensures unfit { length table.old ≢ 1024 → table.new ≡ table.old }
{
    if let Some(table) = table.as_mut_array::<WORDS>() {
        while round(rule, outline, table) {}
    }
}

/// One round of the growth, for whoever counts them: says whether anything was new. Words of another length are left as they are.
pub fn sweep<R: Rule>(rule: &R, outline: &Outline, table: &mut [u64]) -> bool
    ensures grown { length table.old ≡ 1024 → Grown (Asked (R.demands rule.now) (shapes_of outline.now)) 0 (length (shapes_of outline.now)) table.old table.new result }
    ensures unfit { length table.old ≢ 1024 → (result ≡ false) × (table.new ≡ table.old) }
{
    match table.as_mut_array::<WORDS>() {
        Some(table) => round(rule, outline, table),
        None => false,
    }
}

// One round over the rows, the last one first; says whether anything was new.
fn round<R: Rule>(rule: &R, outline: &Outline, table: &mut [u64; WORDS]) -> bool
    ensures { Grown (Asked (R.demands rule.now) (shapes_of outline.now)) 0 (length (shapes_of outline.now)) table.old table.new result }
{
    let mut changed = false;
    for a in (0..outline.count()).rev() {
        changed |= grow_row(rule, outline, table, a);
    }
    changed
}

// Adds to row `a` what is demanded of it, and says whether that was anything new.
fn grow_row<R: Rule>(rule: &R, outline: &Outline, table: &mut [u64; WORDS], a: usize) -> bool
    requires { a < 256 }
    ensures { Grown (Asked (R.demands rule.now) (shapes_of outline.now)) a (a + 1) table.old table.new result }
{
    let seen = Table { words: table };
    let old = seen.row(a);
    let new = old.union(rule.demanded(Sight { outline, seen }, a));
    if new.same(old) {
        return false;
    }
    put_row(table, a, new);
    true
}
