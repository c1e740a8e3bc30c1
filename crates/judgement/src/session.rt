//! Session judgement: each operation has a listing of what comes before it.
ghost use Rattle.recording.specs.Telling.{recorded};
ghost use Rattle.rows.specs.Members.{related};
ghost use Rattle.violations.specs.Views.{operations_of, seen_of};
ghost use Rattle.judgement.specs.Stale.{SessionSought, StationsSought};
ghost use Rattle.judgement.specs.Verdicts.{JudgementAnswer, SessionJudged, lent};

use crate::lending::NUMBERS;
use crate::refusal::Refusal;
use crate::scene::Scene;
use crate::shown::{Shown, numbers_of};
use crate::verdict::{Verdict, Violation};
use recording::Recording;
use rows::{Table, WORDS};
use violations::View;
use visibility::{Causal, least_visibility};

/// Whether a causal order exists in which every operation has a listing of what comes before it that gives each read of its
/// station its value. Refuses by 8. Makes `seen` the least visibility of the causal rule; the first violation's evidence goes to
/// the front of `evidence`.
pub fn judge_session(
    recording: &Recording,
    seen: &mut [u64],
    working: &mut [u64],
    evidence: &mut [u16],
) -> Result<Verdict, Refusal>
    ensures judged { JudgementAnswer (SessionJudged (recorded recording.now).operations) (lent seen.old working.old evidence.old) result (lent seen.new working.new evidence.new) }
{
    let seen = seen.as_mut_array::<WORDS>().ok_or(Refusal::WrongLength)?;
    let working = working.as_mut_array::<WORDS>().ok_or(Refusal::WrongLength)?;
    let evidence = evidence
        .as_mut_array::<NUMBERS>()
        .ok_or(Refusal::WrongLength)?;
    Ok(session_verdict(recording, seen, working, evidence))
}

// The verdict, where all lengths are right; why it is not one with `own_verdict` stands there.
pub(crate) fn session_verdict(
    recording: &Recording,
    seen: &mut [u64; WORDS],
    working: &mut [u64; WORDS],
    evidence: &mut [u16; NUMBERS],
) -> Verdict
    ensures { SessionJudged (recorded recording.now).operations result (related seen.new) evidence.old evidence.new }
{
    least_visibility(recording, &Causal, seen);
    let seen = Table { words: seen };
    let view = View { recording, seen };
    let scene = Scene { view };
    Verdict::of(0, scene.check_session(working, evidence).and(Ok(0)))
}

impl Scene<'_, '_> {
    // Shows the first violation of the session judgement that holds.
    fn check_session(
        self,
        working: &mut [u64; WORDS],
        evidence: &mut [u16; NUMBERS],
    ) -> Result<(), Shown>
        ensures { SessionSought (operations_of self.entry.view) (seen_of self.entry.view) evidence.old evidence.new result }
    {
        self.check_own(evidence)?;
        self.check_stations(working, evidence)
    }

    // Shows violation 6 of the first station that has it; else violation 7 of the first that has that.
    fn check_stations(
        self,
        working: &mut [u64; WORDS],
        evidence: &mut [u16; NUMBERS],
    ) -> Result<(), Shown>
        ensures { StationsSought (operations_of self.entry.view) (seen_of self.entry.view) evidence.old evidence.new result }
    {
        match self.pass_stations(working) {
            Ok(None) => Ok(()),
            Ok(Some(at)) => Err(Shown::put(
                Violation::CyclicHb,
                at.station as u8,
                &numbers_of(at.found),
                evidence,
            )),
            Err(at) => Err(Shown::put(
                Violation::HbInitRead,
                at.station as u8,
                &[at.last as u16, at.found.read as u16, at.found.write as u16],
                evidence,
            )),
        }
    }
}
