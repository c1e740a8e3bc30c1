//! Tables of pairs: 1,024 words of 64 bits that the caller supplies, a row of four words for each number.
ghost use Rattle.std.specs.Prelude.{
  ◌≡◌,
  ℕ,
  ◌<◌,
  ◌≤◌,
  true,
  false,
  length,
  replicate,
  ◌≢◌,
  ◌==◌,
  ◌&&◌,
  ◌||◌,
};
ghost use Rattle.rows.specs.Members.{member, related};

use crate::row::Row;
use std::array;

/// The words of a table. Calls that need a whole table take a slice of any length, and change nothing of one that has another: an
/// array would ask more of a caller.
pub const WORDS: usize = 1024;

/// A table that is read: a relation on the numbers below 256.
#[derive(Clone, Copy)]
pub struct Table<'a> {
    pub words: &'a [u64],
    ghost full: { length words.now ≡ 1024 },
}

impl Table<'_> {
    /// Whether `a` is related to `b`.
    pub fn pair(self, a: usize, b: usize) -> bool
        ensures { result ≡ related self.entry.words.now a b }
    {
        self.row(a).contains(b)
    }

    /// The numbers that `a` is related to.
    pub fn row(self, a: usize) -> Row
        ensures { (b : ℕ) → member result b ≡ related self.entry.words.now a b }
    {
        if a < 256 {
            Row {
                words: array::from_fn(|i| self.words[4 * a + i]),
            }
        } else {
            Row::empty()
        }
    }
}

/// Puts `row` in the place of row `a`. Where `a` is above 255, or the words are not 1,024, nothing changes.
pub fn put_row(table: &mut [u64], a: usize, row: Row)
    ensures here { length table.old ≡ 1024 → a < 256 → (b : ℕ) → related table.new a b ≡ member row b }
    ensures others { (c b : ℕ) → c ≢ a → related table.new c b ≡ related table.old c b }
    ensures long { length table.new ≡ length table.old }
    ensures above { 256 ≤ a → table.new ≡ table.old }
    ensures unfit { length table.old ≢ 1024 → table.new ≡ table.old }
{
    if table.len() == WORDS && a < 256 {
        // Word by word, as a copy of the four as a slice takes a fifth longer.
        table[4 * a] = row.words[0];
        table[4 * a + 1] = row.words[1];
        table[4 * a + 2] = row.words[2];
        table[4 * a + 3] = row.words[3];
    }
}

/// Relates `a` to `b` as well. Where one of them is above 255, or the words are not 1,024, nothing changes.
pub fn put_pair(table: &mut [u64], a: usize, b: usize)
    ensures pair { length table.old ≡ 1024 → a < 256 → b < 256 → (x y : ℕ) → related table.new x y ≡ (related table.old x y || (x == a && y == b)) }
    ensures long { length table.new ≡ length table.old }
    ensures above { 256 ≤ a → table.new ≡ table.old }
    ensures beyond { 256 ≤ b → table.new ≡ table.old }
    ensures unfit { length table.old ≢ 1024 → table.new ≡ table.old }
{
    if table.len() == WORDS && a < 256 && b < 256 {
        let row = Table { words: table }.row(a).with(b);
        put_row(table, a, row);
    }
}

/// Sets all words to 0: no number is related to another.
pub fn clear(table: &mut [u64])
    ensures words { table.new ≡ replicate (length table.old) 0 }
    ensures pairs { (a b : ℕ) → related table.new a b ≡ false }
{
    table.fill(0);
}
