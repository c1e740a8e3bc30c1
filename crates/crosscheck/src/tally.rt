//! How often each verdict came.
use judgement::Violation;
use std::fmt;

// How often a recording was explained, or a violation was named.
#[derive(Clone, Copy)]
struct Count {
    verdict: Option<Violation>,
    times: u64,
}

/// The verdicts of one judgement, and how often the second checker disagreed.
#[derive(Clone, Copy)]
pub struct Tally {
    counts: [Count; 8],
    disagreed: u64,
}

impl Tally {
    /// No verdict yet.
    pub fn new() -> Tally {
        let verdicts = [
            None,
            Some(Violation::ThinAir),
            Some(Violation::BadVisibility),
            Some(Violation::BadInitRead),
            Some(Violation::BadRead),
            Some(Violation::BadArb),
            Some(Violation::HbInitRead),
            Some(Violation::CyclicHb),
        ];
        Tally {
            counts: verdicts.map(|verdict| Count { verdict, times: 0 }),
            disagreed: 0,
        }
    }

    /// Notes a verdict, and whether the second checker explains the recording.
    pub fn note(&mut self, verdict: Option<Violation>, explained: bool) {
        if let Some(place) = self
            .counts
            .iter()
            .position(|count| count.verdict == verdict)
        {
            let count = &mut self.counts[place];
            count.times = count.times.saturating_add(1);
        }
        if verdict.is_none() != explained {
            self.disagreed = self.disagreed.saturating_add(1);
        }
    }
}

impl fmt::Display for Count {
    fn fmt<W: fmt::Write>(&self, f: &mut fmt::Formatter<W>) -> fmt::Result {
        match self.verdict {
            Some(violation) => write!(f, "{violation} {}", self.times),
            None => write!(f, "explained {}", self.times),
        }
    }
}

// Each verdict that came, after a space; then a line with how often the second checker disagreed.
impl fmt::Display for Tally {
    fn fmt<W: fmt::Write>(&self, f: &mut fmt::Formatter<W>) -> fmt::Result {
        for count in self.counts.iter().filter(|count| count.times > 0) {
            write!(f, " {count}")?;
        }
        write!(f, "\ndisagreed: {}", self.disagreed)
    }
}
