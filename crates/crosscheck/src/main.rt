//! Judges many small recordings twice: by the judgements, and by a second checker that tries every order and every listing.
#![tactic(auto)]

mod dice;
mod lent;
mod listing;
mod making;
mod ordering;
mod pairs;
mod seeing;
mod tally;

use dice::Dice;
use judgement::{judge_own, judge_session, judge_shared};
use lent::Lent;
use listing::try_listings;
use making::make;
use ordering::try_orders;
use recording::Recording;
use seeing::Sight;
use seeing::Step::{self, Seen, Station};
use tally::Tally;
use visibility::{Causal, Late, Rule, TermList};

const RECORDINGS: u32 = 3000;

// What came of each judgement.
#[derive(Clone, Copy)]
struct Tallies {
    own: Tally,
    shared: Tally,
    session: Tally,
}

impl Tallies {
    // No verdict yet.
    fn new() -> Tallies {
        Tallies {
            own: Tally::new(),
            shared: Tally::new(),
            session: Tally::new(),
        }
    }

    // Judges a recording under a rule, and by the second checker under what the rule demands.
    fn compare<R: Rule, F: Fn(&Sight<'_>, usize, usize) -> bool>(
        &mut self,
        recording: &Recording,
        rule: &R,
        demands: F,
    ) -> anyhow::Result<()>
        requires { F.IsAlwaysCallable demands }
    {
        let tried = try_orders(recording, demands);
        let mut lent = Lent::default();
        let own = lent.judged(|seen, working, evidence| judge_own(
            recording, rule, seen, working, evidence,
        ))?;
        self.own.note(own.violation, tried.own);
        let shared = lent.judged(|seen, working, evidence| judge_shared(
            recording, rule, seen, working, evidence,
        ))?;
        self.shared.note(shared.violation, tried.shared);
        Ok(())
    }

    // The session judgement likewise.
    fn compare_sessions(&mut self, recording: &Recording) -> anyhow::Result<()> {
        let session = Lent::default().judged(|seen, working, evidence| judge_session(
            recording, seen, working, evidence,
        ))?;
        self.session
            .note(session.violation, try_listings(recording));
        Ok(())
    }

    // Under a term list, as it is spelled and as its terms.
    fn compare_terms(
        &mut self,
        recording: &Recording,
        spelling: &[u8],
        terms: &[&[Step]],
    ) -> anyhow::Result<()> {
        let rule = TermList::spelled(spelling)?;
        self.compare(recording, &rule, |sight, a, b| {
            terms.iter().any(|term| sight.walks(term, a, b))
        })
    }

    // Under a late rule.
    fn compare_late(&mut self, recording: &Recording, distance: u32) -> anyhow::Result<()> {
        let rule = Late::new(distance)?;
        self.compare(recording, &rule, |sight, a, b| {
            sight.is_late(distance as usize, a, b)
        })
    }

    // One recording under every rule.
    fn compare_all(&mut self, recording: &Recording) -> anyhow::Result<()> {
        self.compare(recording, &Causal, |sight, a, b| sight.is_causal(a, b))?;
        self.compare_terms(recording, b"", &[])?;
        self.compare_terms(recording, b"vs", &[&[Seen, Station]])?;
        self.compare_terms(
            recording,
            b"s,vs,sv",
            &[&[Station], &[Seen, Station], &[Station, Seen]],
        )?;
        self.compare_late(recording, 1)?;
        self.compare_late(recording, 2)?;
        self.compare_sessions(recording)
    }
}

fn run(rt: &impl Print) -> anyhow::Result<()> {
    let mut tallies = Tallies::new();
    let mut dice = Dice::new(1);
    for _ in 0..RECORDINGS {
        tallies.compare_all(&make(&mut dice))?;
    }
    println!(rt; "{RECORDINGS} recordings")?;
    println!(rt; "own:{}", tallies.own)?;
    println!(rt; "shared:{}", tallies.shared)?;
    println!(rt; "session:{}", tallies.session)?;
    Ok(())
}

fn main(rt: HostRuntime) -> anyhow::Result<()> {
    run(&rt)
}
