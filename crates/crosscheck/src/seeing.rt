//! Least visibilities, pair by pair from the definition.
use crate::pairs::Pairs;
use recording::{Kind, Recording};
use std::array;

/// A step of a term: by station order, or by what is seen.
// Not the `Letter` of `visibility`: the second checker shares only the recording with the judgements.
#[derive(Clone, Copy)]
pub enum Step {
    Station,
    Seen,
}

/// A recording, and what its operations see.
#[derive(Clone, Copy)]
pub struct Sight<'a> {
    pub recording: &'a Recording,
    pub seen: Pairs,
}

impl<'a> Sight<'a> {
    /// The least visibility of a recording that holds what is demanded under it.
    pub fn least<F: Fn(&Sight<'_>, usize, usize) -> bool>(
        recording: &'a Recording,
        demands: F,
    ) -> Sight<'a>
        requires { F.IsAlwaysCallable demands }
    {
        let seen = Pairs::that(|w, r| is_source(recording, w, r));
        let mut sight = Sight { recording, seen };
        // There are 256 pairs, and every round but the last adds one.
        for _ in 0..257 {
            if !sight.add_demanded(&demands) {
                return sight;
            }
        }
        sight
    }

    // Adds each pair that is demanded, and says whether one was new.
    fn add_demanded<F: Fn(&Sight<'_>, usize, usize) -> bool>(&mut self, demands: &F) -> bool
        requires { F.IsAlwaysCallable demands.now }
    {
        let mut new = false;
        // Loops, since `seen` changes while they run.
        for a in 0..self.recording.count() {
            for b in 0..self.recording.count() {
                if !self.seen.has(a, b) && demands(self, a, b) {
                    self.seen.add(a, b);
                    new = true;
                }
            }
        }
        new
    }

    /// What the causal rule demands: what comes before at one station, and what is seen by way of another operation.
    pub fn is_causal(&self, a: usize, b: usize) -> bool {
        self.is_before(a, b) || (0..16).any(|c| self.seen.has(a, c) && self.seen.has(c, b))
    }

    /// What a late rule demands: what comes before at one station by so many places.
    pub fn is_late(&self, distance: usize, a: usize, b: usize) -> bool {
        self.is_before(a, b)
            && (0..16).filter(|c| *c <= b && self.is_before(a, *c)).count() >= distance
    }

    /// What a term demands: whether its steps lead from `a` to `b`.
    pub fn walks(&self, term: &[Step], a: usize, b: usize) -> bool {
        let mut here: [bool; 16] = array::from_fn(|c| c == a);
        for step in term {
            here = self.after(*step, &here);
        }
        b < 16 && here[b]
    }

    // Where a step leads from some numbers.
    fn after(&self, step: Step, here: &[bool; 16]) -> [bool; 16] {
        let leads = |c, b| match step {
            Step::Station => self.is_before(c, b),
            Step::Seen => self.seen.has(c, b),
        };
        array::from_fn(|b| here
            .iter()
            .enumerate()
            .any(|(c, is_here)| *is_here && leads(c, b)))
    }

    // Whether `b` comes after `a` at one station.
    fn is_before(&self, a: usize, b: usize) -> bool {
        match (self.recording.operation(a), self.recording.operation(b)) {
            (Some(first), Some(second)) => a < b && first.station == second.station,
            _ => false,
        }
    }

    /// Whether an order of the writes keeps what is seen: `a` comes before `b` wherever `b` sees `a`.
    pub fn is_kept_by(&self, order: &[usize]) -> bool {
        order.iter().enumerate().all(|(place, b)| order
            .iter()
            .skip(place)
            .all(|a| !self.seen.has(*a, *b)))
    }

    /// Whether a read has the value of the last write of its register that it sees, or 0 where it sees none; a write always does.
    pub fn has_its_value(&self, order: &[usize], number: usize) -> bool {
        let Some(read) = self.recording.operation(number) else {
            return true;
        };
        let last = order
            .iter()
            .rev()
            .filter(|write| self.seen.has(**write, number))
            .filter_map(|write| self.recording.operation(*write))
            .find(|write| write.register == read.register);
        read.kind == Kind::Write || last.map_or(0, |write| write.value) == read.value
    }
}

// Whether the write `w` gives the read `r` its value.
fn is_source(recording: &Recording, w: usize, r: usize) -> bool {
    match (recording.operation(w), recording.operation(r)) {
        (Some(write), Some(read)) => {
            write.kind == Kind::Write
                && read.kind == Kind::Read
                && write.register == read.register
                && write.value == read.value
        }
        _ => false,
    }
}
