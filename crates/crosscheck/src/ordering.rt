//! Own and shared judgement by trying every order of the writes.
use crate::seeing::Sight;
use arrayvec::ArrayVec;
use recording::{Kind, Recording};

/// What every order tells: whether each read has one, and whether one serves all.
#[derive(Clone, Copy)]
pub struct Tried {
    pub own: bool,
    pub shared: bool,
}

/// Tries every order of the writes under the least visibility that holds what is demanded.
pub fn try_orders<F: Fn(&Sight<'_>, usize, usize) -> bool>(
    recording: &Recording,
    demands: F,
) -> Tried
    requires { F.IsAlwaysCallable demands }
{
    let sight = Sight::least(recording, demands);
    let is_acyclic = sight.seen.is_acyclic();
    Tried {
        own: is_acyclic
            && (0..recording.count()).all(|read| {
                some_order(&sight, |order| sight.has_its_value(order, read))
            }),
        shared: is_acyclic
            && some_order(&sight, |order| {
                (0..recording.count()).all(|read| sight.has_its_value(order, read))
            }),
    }
}

// Whether some order of the writes keeps what is seen and passes a test.
fn some_order<F: Fn(&[usize]) -> bool>(sight: &Sight<'_>, test: F) -> bool
    requires { F.IsAlwaysCallable test }
{
    let count = writes_of(sight.recording).len();
    (0..factorial(count)).any(|code| {
        let order = order_of(code, writes_of(sight.recording));
        sight.is_kept_by(&order) && test(&order)
    })
}

// The writes, of which a made recording has at most six.
fn writes_of(recording: &Recording) -> ArrayVec<usize, 6> {
    let mut writes = ArrayVec::new();
    let _ = writes.extend((0..recording.count()).filter(|number| is_write(recording, *number)));
    writes
}

// Whether the operation of that number is a write.
fn is_write(recording: &Recording, number: usize) -> bool {
    recording
        .operation(number)
        .is_some_and(|operation| operation.kind == Kind::Write)
}

// How many orders of so many writes there are.
fn factorial(count: usize) -> usize {
    (1..=count).fold(1, usize::saturating_mul)
}

// The order of a code: its digits, in bases that fall by one, say which of the writes that are left comes next.
fn order_of(code: usize, mut writes: ArrayVec<usize, 6>) -> ArrayVec<usize, 6> {
    let mut rest = code;
    // The place itself is swapped with a later one, so it is counted.
    for place in 0..writes.len() {
        let left = writes.len() - place;
        writes.swap(place, place + rest % left);
        rest /= left;
    }
    writes
}
