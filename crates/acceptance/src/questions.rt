//! Questions about runs of calls.
use examine::{Question, Reply, examine};
use judgement::Violation;
use std::test::Fail;
use visibility::Causal;
use words::Call;

// The violation that is answered to a judgement.
fn violation(calls: &[Call<'_>], question: Question) -> Result<Option<Violation>, Fail> {
    match examine(
        calls,
        question,
        &Causal,
        &mut [0; 1024],
        &mut [0; 1024],
        &mut [0; 256],
    )? {
        Reply::Judged(verdict) => Ok(verdict.violation),
        Reply::Ordered(_) => Err(Fail::new("no verdict")),
    }
}

#[test]
fn a_run_with_refused_calls_is_judged(rt: HostRuntime) -> Result<(), Fail> {
    let words = [
        0xC000_0002,
        0x4008_0001,
        0x8008_0002,
        0x4208_0002,
        0x8208_0001,
        0xE000_0004,
    ];
    let calls = [
        Call::Read {
            station: 0,
            register: 9,
            value: 9,
        },
        Call::Load(&words),
        Call::Start(17),
        Call::Write {
            station: 0,
            register: 1,
            value: 1,
        },
    ];
    assert_eq!(rt; violation(&calls, Question::Own)?, None);
    assert_eq!(rt;
        violation(&calls, Question::Shared)?,
        Some(Violation::BadArb)
    );
    assert_eq!(rt; violation(&calls, Question::Session)?, None);
    let mut evidence = [0; 256];
    let reply = examine(
        &calls,
        Question::OrderForStation(1),
        &Causal,
        &mut [0; 1024],
        &mut [0; 1024],
        &mut evidence,
    )?;
    assert!(rt; matches!(reply, Reply::Ordered(3)));
    assert_eq!(rt; [evidence[0], evidence[1], evidence[2]], [2, 0, 3]);
    Ok(())
}
