//! Own judgement: each read has an order of its own.
ghost use Rattle.recording.specs.Telling.{recorded};
ghost use Rattle.rows.specs.Members.{related};
ghost use Rattle.judgement.specs.Verdicts.{JudgementAnswer, OwnJudged, lent};

use crate::lending::NUMBERS;
use crate::refusal::Refusal;
use crate::scene::Scene;
use crate::verdict::Verdict;
use recording::Recording;
use rows::{Table, WORDS};
use violations::View;
use visibility::{Rule, least_visibility};

/// Whether each read has an order of all writes that gives it its value, under a visibility as the rule demands it.
/// Refuses by 8. Makes `seen` the least visibility; the first violation's evidence goes to the front of `evidence`.
pub fn judge_own<R: Rule>(
    recording: &Recording,
    rule: &R,
    seen: &mut [u64],
    working: &mut [u64],
    evidence: &mut [u16],
) -> Result<Verdict, Refusal>
    ensures judged { JudgementAnswer (OwnJudged (R.demands rule.now) (R.known rule.now) (recorded recording.now).operations) (lent seen.old working.old evidence.old) result (lent seen.new working.new evidence.new) }
{
    let seen = seen.as_mut_array::<WORDS>().ok_or(Refusal::WrongLength)?;
    working.as_mut_array::<WORDS>().ok_or(Refusal::WrongLength)?;
    let evidence = evidence
        .as_mut_array::<NUMBERS>()
        .ok_or(Refusal::WrongLength)?;
    Ok(own_verdict(recording, rule, seen, evidence))
}

// The verdict, where all lengths are right. Those of the other judgements differ in the check alone. One function that takes the
// check as a closure was tried: its caller does not learn what the closure makes of the evidence.
pub(crate) fn own_verdict<R: Rule>(
    recording: &Recording,
    rule: &R,
    seen: &mut [u64; WORDS],
    evidence: &mut [u16; NUMBERS],
) -> Verdict
    ensures { OwnJudged (R.demands rule.now) (R.known rule.now) (recorded recording.now).operations result (related seen.new) evidence.old evidence.new }
{
    least_visibility(recording, rule, seen);
    let seen = Table { words: seen };
    let view = View { recording, seen };
    let scene = Scene { view };
    Verdict::of(rule.label(), scene.check_own(evidence).and(Ok(0)))
}
