//! Session judgement by trying every listing.
use crate::pairs::Pairs;
use crate::seeing::Sight;
use recording::{Kind, Operation, Recording};
use std::array;

// The search for a listing for an operation of that station.
#[derive(Clone, Copy)]
struct Search<'s, 'a> {
    sight: &'s Sight<'a>,
    station: u8,
}

// What is left to list, and the values that what is listed left in the registers.
#[derive(Clone, Copy)]
struct State {
    left: [bool; 16],
    values: [u32; 64],
}

/// Whether every operation has a listing, under the smallest causal order.
pub fn try_listings(recording: &Recording) -> bool {
    let sight = Sight::least(recording, |sight, a, b| sight.is_causal(a, b));
    sight.seen.is_acyclic() && (0..recording.count()).all(|last| has_listing(&sight, last))
}

// Whether the operation, and all that it sees, can be listed.
fn has_listing(sight: &Sight<'_>, last: usize) -> bool {
    sight.recording.operation(last).is_some_and(|operation| {
        let search = Search {
            sight,
            station: operation.station,
        };
        let state = State {
            left: array::from_fn(|a| a == last || sight.seen.has(a, last)),
            values: [0; 64],
        };
        search.lists(state, 16)
    })
}

impl Search<'_, '_> {
    // Whether what is left can be listed, in at most so many steps.
    fn lists(self, state: State, steps: usize) -> bool {
        if state.left == [false; 16] {
            return true;
        }
        if steps == 0 {
            return false;
        }
        // A loop, since a call of itself inside the closure of `any` would want three measures.
        for next in (0..16).filter_map(|a| self.listed(state, a)) {
            if self.lists(next, steps - 1) {
                return true;
            }
        }
        false
    }

    // The state after `a`, if it is left and may be listed next.
    fn listed(self, state: State, a: usize) -> Option<State> {
        let operation = self.sight.recording.operation(a)?;
        if state.is_free(&self.sight.seen, a) && self.comes_right(operation, state) {
            Some(state.after(a, operation))
        } else {
            None
        }
    }

    // Whether an operation may come next: a read of the station has to have the value of its register.
    fn comes_right(self, operation: Operation, state: State) -> bool {
        operation.kind == Kind::Write
            || operation.station != self.station
            || operation.value == state.value(operation.register)
    }
}

impl State {
    // Whether `a` is left, and nothing that is left comes before it.
    fn is_free(&self, seen: &Pairs, a: usize) -> bool {
        a < 16
            && self.left[a]
            && !self
                .left
                .iter()
                .enumerate()
                .any(|(b, is_left)| *is_left && seen.has(b, a))
    }

    // The value that is in a register.
    fn value(&self, register: u8) -> u32 {
        self.values[register as usize % 64]
    }

    // The state after `a`, which is that operation.
    fn after(mut self, a: usize, operation: Operation) -> State {
        if a < 16 {
            self.left[a] = false;
        }
        if operation.kind == Kind::Write {
            self.values[operation.register as usize % 64] = operation.value;
        }
        self
    }
}
