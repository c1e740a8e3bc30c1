//! Tells the calls, and asks the question.
ghost use Rattle.recording.specs.Telling.{recorded};
ghost use Rattle.judgement.specs.Verdicts.{lent};
ghost use Rattle.examine.specs.Promise.{Promise, Replies};

use crate::question::{Question, Reply};
use judgement::{
    Refusal, judge_own, judge_session, judge_shared, order_for_read, order_for_station,
};
use recording::Recording;
use visibility::Rule;
use words::{Call, told};

// The three lent slices stay apart, as the judgements take them.

/// Tells the calls to a recording that begins unstarted, and answers the question about it. The session judgement and the order
/// for a station do not ask the rule.
pub fn examine<R: Rule>(
    calls: &[Call<'_>],
    question: Question,
    rule: &R,
    seen: &mut [u64],
    working: &mut [u64],
    evidence: &mut [u16],
) -> Result<Reply, Refusal>
    ensures promise { Promise (R.demands rule.now) (R.known rule.now) calls.now question (lent seen.old working.old evidence.old) result (lent seen.new working.new evidence.new) }
{
    let recording = told(calls);
    ask(&recording, question, rule, seen, working, evidence)
}

// Asks one question about a recording.
fn ask<R: Rule>(
    recording: &Recording,
    question: Question,
    rule: &R,
    seen: &mut [u64],
    working: &mut [u64],
    evidence: &mut [u16],
) -> Result<Reply, Refusal>
    ensures { Replies (R.demands rule.now) (R.known rule.now) (recorded recording.now) question (lent seen.old working.old evidence.old) result (lent seen.new working.new evidence.new) }
{
    Ok(match question {
        Question::Own => Reply::Judged(judge_own(recording, rule, seen, working, evidence)?),
        Question::Shared => Reply::Judged(judge_shared(recording, rule, seen, working, evidence)?),
        Question::Session => Reply::Judged(judge_session(recording, seen, working, evidence)?),
        Question::OrderForRead(read) => Reply::Ordered(order_for_read(
            recording, rule, read, seen, working, evidence,
        )?),
        Question::OrderForStation(station) => Reply::Ordered(order_for_station(
            recording, station, seen, working, evidence,
        )?),
    })
}
