//! A cycle among numbers of which each has one before it, found by walking back. Costs a row for each number at each step.
ghost use Rattle.std.specs.Prelude.{◌≡◌, ℕ, ◌<◌, true, None, length, slice_index};
ghost use Rattle.rows.specs.Members.{member};
ghost use Rattle.relation.specs.Orders.{Free, Ring};

use crate::pairs::Relation;
use arrayvec::ArrayVec;
use rows::Row;

// Goes from `start` to a number that is related to it, and so on, until a number comes again: the way back to it is a cycle.
pub(crate) fn walk<R: Relation>(relation: &R, left: Row, start: usize) -> ArrayVec<u16, 256>
    requires inside { member left start ≡ true }
    requires free { Free (R.holds relation.now) (member left) None }
    ensures { Ring (R.holds relation.now) (member left) result.items 0 (length result.items) }
{
    let mut path: ArrayVec<u16, 256> = ArrayVec::new();
    let mut seen = Row::empty();
    let mut number = start;
    'walking: while !seen.contains(number) {
        path.push(number as u16);
        seen = seen.with(number);
        number = predecessor(relation, left, number);
    }
    path.reverse();
    let end = place(&path, number);
    path.truncate(end + 1);
    path
}

// The smallest number of `left` that is related to `b`.
fn predecessor<R: Relation>(relation: &R, left: Row, b: usize) -> usize
    requires { (a : ℕ) × (member left a ≡ true) × (R.holds relation.now a b ≡ true) }
    ensures inside { member left result ≡ true }
    ensures before { R.holds relation.now result b ≡ true }
{
    left.find(|a| relation.row(a).contains(b)).unwrap()
}

// Where `value` first stands in the path.
fn place(path: &[u16], value: usize) -> usize
    requires { (i : ℕ) × (i < length path.now) × (slice_index path.now i ≡ value) }
    ensures { (result < length path.now) × (slice_index path.now result ≡ value) }
{
    path.iter()
        .position(|number| *number as usize == value)
        .unwrap()
}
