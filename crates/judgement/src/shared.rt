//! Shared judgement: one order for all reads.
ghost use Rattle.recording.specs.Telling.{recorded};
ghost use Rattle.rows.specs.Members.{related};
ghost use Rattle.judgement.specs.Arbitrated.{SharedSought};
ghost use Rattle.violations.specs.Views.{operations_of, seen_of};
ghost use Rattle.judgement.specs.Verdicts.{JudgementAnswer, SharedJudged, lent};

use crate::lending::NUMBERS;
use crate::refusal::Refusal;
use crate::scene::Scene;
use crate::shown::Shown;
use crate::verdict::Verdict;
use recording::Recording;
use rows::{Table, WORDS};
use violations::View;
use visibility::{Rule, least_visibility};

/// Whether one order of all writes gives every read its value, under a visibility as the rule demands it.
/// Refuses by 8. Makes `seen` the least visibility; the order, or the first violation's evidence, goes to the front of `evidence`.
pub fn judge_shared<R: Rule>(
    recording: &Recording,
    rule: &R,
    seen: &mut [u64],
    working: &mut [u64],
    evidence: &mut [u16],
) -> Result<Verdict, Refusal>
    ensures judged { JudgementAnswer (SharedJudged (R.demands rule.now) (R.known rule.now) (recorded recording.now).operations) (lent seen.old working.old evidence.old) result (lent seen.new working.new evidence.new) }
{
    let seen = seen.as_mut_array::<WORDS>().ok_or(Refusal::WrongLength)?;
    let working = working.as_mut_array::<WORDS>().ok_or(Refusal::WrongLength)?;
    let evidence = evidence
        .as_mut_array::<NUMBERS>()
        .ok_or(Refusal::WrongLength)?;
    Ok(shared_verdict(recording, rule, seen, working, evidence))
}

// The verdict, where all lengths are right; why it is not one with `own_verdict` stands there.
fn shared_verdict<R: Rule>(
    recording: &Recording,
    rule: &R,
    seen: &mut [u64; WORDS],
    working: &mut [u64; WORDS],
    evidence: &mut [u16; NUMBERS],
) -> Verdict
    ensures { SharedJudged (R.demands rule.now) (R.known rule.now) (recorded recording.now).operations result (related seen.new) evidence.old evidence.new }
{
    least_visibility(recording, rule, seen);
    let seen = Table { words: seen };
    let view = View { recording, seen };
    let scene = Scene { view };
    Verdict::of(rule.label(), scene.check_shared(working, evidence))
}

impl Scene<'_, '_> {
    // Puts an order of all writes for all reads at the front of the evidence, and answers its length; or shows the first
    // violation of the shared judgement that holds.
    fn check_shared(
        self,
        working: &mut [u64; WORDS],
        evidence: &mut [u16; NUMBERS],
    ) -> Result<usize, Shown>
        ensures { SharedSought (operations_of self.entry.view) (seen_of self.entry.view) evidence.old evidence.new result }
    {
        self.check_own(evidence)?;
        self.view.put_conflicts(working);
        self.arbitrate(Table { words: working }, evidence)
    }
}
