//! A set of the numbers 0 to 255, in four words of 64 bits. Each call but those that go through the members costs a few operations on words.
ghost use Rattle.std.specs.Prelude.{◌≡◌, ℕ, ◌+◌, ◌<◌, ◌≤◌, min, true, false, not, ◌&&◌, ◌||◌, Decides, ◌==◌, count_ones, nat_lt, slice_index};
ghost use Rattle.rows.specs.Counts.{size};
ghost use Rattle.rows.specs.Members.{bit, member, First, Found, Gathered};
ghost use Rattle.rows.specs.Steps.{Next};

use crate::bits::Bits;
use crate::members::Members;
use std::array;

/// A set of numbers below 256.
#[derive(Clone, Copy, PartialEq, Eq, Debug)]
pub struct Row {
    pub(crate) words: [u64; 4],
}

impl Row {
    /// The set with no member.
    pub fn empty() -> Row
        ensures { (k : ℕ) → member result k ≡ false }
    {
        Row { words: [0; 4] }
    }

    /// The set of one number; a number above 255 is in no set.
    pub fn of(b: usize) -> Row
        ensures { (k : ℕ) → member result k ≡ (nat_lt b 256 && k == b) }
    {
        Row::empty().with(b)
    }

    /// The numbers below `n`, as far as they are below 256.
    pub fn below(n: usize) -> Row
        ensures { (k : ℕ) → member result k ≡ nat_lt k (min n 256) }
    {
        Row {
            words: array::from_fn(|i| low_bits(n.saturating_sub(64 * i))),
        }
    }

    /// Whether `b` is a member.
    pub fn contains(self, b: usize) -> bool
        ensures { result ≡ member self b }
    {
        b < 256 && (self.words[b / 64] >> (b % 64)) & 1 == 1
    }

    /// The members, and `b` where it is below 256.
    pub fn with(mut self, b: usize) -> Row
        ensures inside { b < 256 → (k : ℕ) → member result k ≡ (member self k || k == b) }
        ensures outside { 256 ≤ b → result ≡ self }
    {
        if b < 256 {
            self.words[b / 64] |= 1 << (b % 64);
        }
        self
    }

    /// The members but `b`.
    pub fn without(mut self, b: usize) -> Row
        ensures { (k : ℕ) → member result k ≡ (member self k && not (k == b)) }
    {
        if b < 256 {
            self.words[b / 64] &= !(1 << (b % 64));
        }
        self
    }

    /// The members of either.
    pub fn union(self, other: Row) -> Row
        ensures { (k : ℕ) → member result k ≡ (member self k || member other k) }
    {
        self.zip(other, |a, b| a | b)
    }

    /// The members of both.
    pub fn intersection(self, other: Row) -> Row
        ensures { (k : ℕ) → member result k ≡ (member self k && member other k) }
    {
        self.zip(other, |a, b| a & b)
    }

    /// The members that `other` lacks.
    pub fn difference(self, other: Row) -> Row
        ensures { (k : ℕ) → member result k ≡ (member self k && not (member other k)) }
    {
        self.zip(other, |a, b| a & !b)
    }

    // The set whose words an operation makes of the words of both.
    fn zip<F: Fn(u64, u64) -> u64>(self, other: Row, operation: F) -> Row
        requires { F.IsAlwaysCallable operation }
        ensures { (q : ℕ) → q < 4 → F.post operation (slice_index self.words q) (slice_index other.words q) (slice_index result.words q) }
    {
        Row {
            words: array::from_fn(|i| operation(self.words[i], other.words[i])),
        }
    }

    /// Whether there is no member.
    pub fn is_empty(self) -> bool
        ensures { Decides result ((k : ℕ) → member self k ≡ false) }
    {
        self.same(Row::empty())
    }

    /// Whether both have the same members. It stands beside `==`, which speaks of words, because it promises it of members.
    pub fn same(self, other: Row) -> bool
        ensures { Decides result ((k : ℕ) → member self k ≡ member other k) }
    {
        self == other
    }

    /// The smallest member.
    // Not by `take_first`, since to write what is left takes as long again.
    pub fn first(self) -> Option<usize>
        ensures { First (member self) result }
    {
        for i in 0..4 {
            let word = self.words[i];
            if word != 0 {
                return Some(64 * i + word.trailing_zeros() as usize);
            }
        }
        None
    }

    // Takes out the smallest member. It goes by index, as a look-up by `position` takes twice as long.
    pub(crate) fn take_first(&mut self) -> Option<usize>
        ensures { Next (member self.old) result (member self.new) }
    {
        for i in 0..4 {
            let word = self.words[i];
            if word != 0 {
                self.words[i] = word & (word - 1);
                let taken = 64 * i + word.trailing_zeros() as usize;
                return Some(taken);
            }
        }
        None
    }

    /// The members, the smallest first.
    pub fn members(self) -> Members
        ensures { result.left ≡ self }
    {
        Members { left: self }
    }

    /// The members that a test passes.
    pub fn filter<F: Fn(usize) -> bool>(self, passes: F) -> Row
        requires { (k : ℕ) → member self k ≡ true → F.pre passes k }
        ensures passed { (k : ℕ) → member self k ≡ true → F.post passes k (member result k) }
        ensures others { (k : ℕ) → member self k ≡ false → member result k ≡ false }
    {
        let mut passed = Row::empty();
        for i in 0..4 {
            passed.words[i] = filter_word(self.words[i], 64 * i, &passes);
        }
        passed
    }

    /// The smallest member that a test passes.
    // Loops: in the iterator's `find` the closure has to say again what the test requires, and lemmas on its steps are needed.
    pub fn find<F: Fn(usize) -> bool>(self, passes: F) -> Option<usize>
        requires { (k : ℕ) → member self k ≡ true → F.pre passes k }
        ensures { Found (member self) (λ k says. F.post passes k says) result }
    {
        for i in 0..4 {
            for b in Bits::of(self.words[i]) {
                let k = 64 * i + b;
                if passes(k) {
                    return Some(k);
                }
            }
        }
        None
    }

    /// The members of all sets that a function answers to the members.
    pub fn gather<F: Fn(usize) -> Row>(self, row: F) -> Row
        requires { (k : ℕ) → member self k ≡ true → F.pre row k }
        ensures { Gathered (member self) (λ k answer. F.post row k answer) (member result) }
    {
        let mut all = Row::empty();
        for i in 0..4 {
            for b in Bits::of(self.words[i]) {
                all = all.union(row(64 * i + b));
            }
        }
        all
    }

    /// How many members there are.
    pub fn count(self) -> usize
        ensures { result ≡ size (member self) 256 }
    {
        self.words.iter().map(|word| ones_in(*word)).sum()
    }
}

// The bits of a word that a test passes, told the numbers from `from` on.
fn filter_word<F: Fn(usize) -> bool>(word: u64, from: usize, passes: &F) -> u64
    requires room { from ≤ 192 }
    requires test { (b : ℕ) → b < 64 → bit word b ≡ true → F.pre passes.now (from + b) }
    ensures passed { (b : ℕ) → b < 64 → bit word b ≡ true → F.post passes.now (from + b) (bit result b) }
    ensures others { (b : ℕ) → b < 64 → bit word b ≡ false → bit result b ≡ false }
{
    let mut passed = 0;
    for b in Bits::of(word) {
        if passes(from + b) {
            passed |= 1 << b;
        }
    }
    passed
}

// How many bits of a word are set.
fn ones_in(word: u64) -> usize
    ensures ones { result ≡ count_ones word }
    ensures few { result ≤ 64 }
{
    word.count_ones() as usize
}

// A word with the lowest `n` bits set, or all.
fn low_bits(n: usize) -> u64
    ensures { (i : ℕ) → i < 64 → bit result i ≡ nat_lt i n }
{
    if n < 64 { (1 << n) - 1 } else { u64::MAX }
}
