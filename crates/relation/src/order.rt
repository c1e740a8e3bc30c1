//! An order of the numbers of a set that keeps a relation, or a cycle. For n numbers it asks for some n * n / 2 rows.
ghost use Rattle.std.specs.Prelude.{None, length};
ghost use Rattle.rows.specs.Members.{member};
ghost use Rattle.relation.specs.Orders.{Free, Arranged};
ghost use Rattle.relation.specs.Found.{Found, Exactly};

use crate::front::put_front;
use crate::image::image;
use crate::pairs::Relation;
use crate::walk::walk;
use arrayvec::ArrayVec;
use rows::Row;

/// Why there is no order: a cycle of that many numbers was found, or there was no room for 256 numbers.
#[derive(Clone, Copy, PartialEq, Eq, Debug)]
pub enum Obstacle {
    Cycle(usize),
    NoRoom,
}

/// Puts the members in an order in which `a` comes before `b` wherever the relation holds of `a` and `b`,
/// the smallest free one first, and answers how many they are; or finds a cycle. What it finds stands at the front of `out`,
/// the rest of which is unchanged.
pub fn order_or_cycle<R: Relation>(
    relation: &R,
    members: Row,
    out: &mut [u16],
) -> Result<usize, Obstacle>
    ensures found { Found (R.holds relation.now) (member members) out.old out.new result }
    ensures exactly { Exactly (R.holds relation.now) (member members) result }
{
    if out.len() < 256 {
        return Err(Obstacle::NoRoom);
    }
    let (order, left) = arrange(relation, members);
    match left.first() {
        None => {
            put_front(&order, out);
            Ok(order.len())
        }
        Some(start) => {
            let cycle = walk(relation, left, start);
            put_front(&cycle, out);
            Err(Obstacle::Cycle(cycle.len()))
        }
    }
}

// Puts numbers of `members` in order as long as one of those that are left is free; answers the order, and what is left.
fn arrange<R: Relation>(relation: &R, members: Row) -> (ArrayVec<u16, 256>, Row)
    ensures arranged { Arranged (R.holds relation.now) (member members) (member result.1) result.0.items (length result.0.items) }
    ensures stuck { Free (R.holds relation.now) (member result.1) None }
{
    let mut order = ArrayVec::new();
    let mut left = members;
    while let Some(k) = free(relation, left) {
        order.push(k as u16);
        left = left.without(k);
    }
    (order, left)
}

// The smallest number of `left` that the relation puts after none of them.
fn free<R: Relation>(relation: &R, left: Row) -> Option<usize>
    ensures { Free (R.holds relation.now) (member left) result }
{
    left.difference(image(relation, left)).first()
}
