//! Verdicts on small recordings.
use judgement::{
    Refusal, Verdict, Violation, judge_own, judge_session, judge_shared, order_for_read,
    order_for_station,
};
use recording::Recording;
use rows::Table;
use std::test::Fail;
use visibility::{Causal, Late, Rule, TermList};
use words::{Call, tell};

// The call that writes that value.
fn write(station: u32, register: u32, value: u32) -> Call<'static> {
    Call::Write {
        station,
        register,
        value,
    }
}

// The call that reads it.
fn read(station: u32, register: u32, value: u32) -> Call<'static> {
    Call::Read {
        station,
        register,
        value,
    }
}

// A recording of three stations that takes all these calls.
fn told(calls: &[Call<'_>]) -> Result<Recording, Fail> {
    let mut recording = Recording::unstarted();
    recording.start(3)?;
    for call in calls {
        tell(&mut recording, *call)?;
    }
    Ok(recording)
}

// What a verdict says but for the label, and the first three numbers of the evidence buffer.
#[derive(Clone, Copy, PartialEq, Debug)]
struct Found {
    violation: Option<Violation>,
    station: u8,
    count: usize,
    front: [u16; 3],
}

// No violation.
fn explained(count: usize, front: [u16; 3]) -> Found {
    Found {
        violation: None,
        station: 0,
        count,
        front,
    }
}

// A violation that is about no station, or about station 0.
fn violated(violation: Violation, count: usize, front: [u16; 3]) -> Found {
    Found {
        violation: Some(violation),
        ..explained(count, front)
    }
}

// What a judgement finds.
fn judged<J: FnOnce(&mut [u64], &mut [u64], &mut [u16]) -> Result<Verdict, Refusal>>(
    judge: J,
) -> Result<Found, Refusal>
    requires { J.IsAlwaysCallable judge }
{
    let mut evidence = [999; 256];
    let verdict = judge(&mut [7; 1024], &mut [7; 1024], &mut evidence)?;
    Ok(Found {
        violation: verdict.violation,
        station: verdict.station,
        count: verdict.count,
        front: front(&evidence),
    })
}

// The first three numbers of a buffer.
fn front(evidence: &[u16; 256]) -> [u16; 3] {
    [evidence[0], evidence[1], evidence[2]]
}

// What the own judgement finds.
fn own<R: Rule>(recording: &Recording, rule: &R) -> Result<Found, Refusal> {
    judged(|seen, working, evidence| judge_own(recording, rule, seen, working, evidence))
}

// What the shared judgement finds.
fn shared<R: Rule>(recording: &Recording, rule: &R) -> Result<Found, Refusal> {
    judged(|seen, working, evidence| judge_shared(recording, rule, seen, working, evidence))
}

// What the session judgement finds.
fn session(recording: &Recording) -> Result<Found, Refusal> {
    judged(|seen, working, evidence| judge_session(recording, seen, working, evidence))
}

// The length of the order for a read under the causal rule, and the first three numbers of the evidence buffer.
fn ordered(recording: &Recording, read: usize) -> Result<(usize, [u16; 3]), Refusal> {
    let mut evidence = [999; 256];
    let count = order_for_read(
        recording,
        &Causal,
        read,
        &mut [0; 1024],
        &mut [0; 1024],
        &mut evidence,
    )?;
    Ok((count, front(&evidence)))
}

#[test]
fn no_operations_are_explained(rt: HostRuntime) -> Result<(), Fail> {
    let recording = told(&[])?;
    assert_eq!(rt; own(&recording, &Causal)?, explained(0, [999, 999, 999]));
    assert_eq!(rt; shared(&recording, &Causal)?, explained(0, [999, 999, 999]));
    Ok(())
}

#[test]
fn a_value_that_nobody_wrote_is_thin_air(rt: HostRuntime) -> Result<(), Fail> {
    let recording = told(&[read(0, 5, 7)])?;
    let found = violated(Violation::ThinAir, 1, [0, 999, 999]);
    assert_eq!(rt; own(&recording, &Causal)?, found);
    assert_eq!(rt; shared(&recording, &Causal)?, found);
    Ok(())
}

#[test]
fn a_read_before_its_own_write_is_a_cycle(rt: HostRuntime) -> Result<(), Fail> {
    let recording = told(&[read(0, 5, 7), write(0, 5, 7)])?;
    assert_eq!(rt;
        own(&recording, &Causal)?.violation,
        Some(Violation::BadVisibility)
    );
    assert_eq!(rt;
        shared(&recording, &Causal)?.violation,
        Some(Violation::BadVisibility)
    );
    assert_eq!(rt;
        shared(&recording, &TermList::spelled(b"")?)?,
        explained(1, [1, 999, 999])
    );
    Ok(())
}

#[test]
fn a_read_of_zero_after_a_write_of_its_station(rt: HostRuntime) -> Result<(), Fail> {
    let recording = told(&[write(0, 5, 7), read(0, 5, 0)])?;
    let found = violated(Violation::BadInitRead, 2, [1, 0, 999]);
    assert_eq!(rt; own(&recording, &Causal)?, found);
    assert_eq!(rt; shared(&recording, &Causal)?, found);
    assert_eq!(rt; shared(&recording, &Late::new(1)?)?, found);
    assert_eq!(rt;
        shared(&recording, &Late::new(2)?)?,
        explained(1, [0, 999, 999])
    );
    Ok(())
}

#[test]
fn an_older_value_after_a_newer_one_is_a_bad_read(rt: HostRuntime) -> Result<(), Fail> {
    let recording = told(&[write(0, 1, 1), write(0, 1, 2), read(1, 1, 2), read(1, 1, 1)])?;
    let found = violated(Violation::BadRead, 3, [3, 0, 1]);
    assert_eq!(rt; own(&recording, &Causal)?, found);
    assert_eq!(rt; shared(&recording, &Causal)?, found);
    assert_eq!(rt;
        shared(&recording, &TermList::spelled(b"vs")?)?,
        explained(2, [1, 0, 999])
    );
    assert_eq!(rt; shared(&recording, &TermList::spelled(b"s,vs,sv")?)?, found);
    Ok(())
}

#[test]
fn reads_that_want_opposite_orders_have_each_its_own(rt: HostRuntime) -> Result<(), Fail> {
    let recording = told(&[write(0, 1, 1), read(0, 1, 2), write(1, 1, 2), read(1, 1, 1)])?;
    assert_eq!(rt; own(&recording, &Causal)?, explained(0, [999, 999, 999]));
    let found = shared(&recording, &Causal)?;
    assert_eq!(rt; found.violation, Some(Violation::BadArb));
    assert_eq!(rt; found.count, 2);
    assert_eq!(rt; ordered(&recording, 1), Ok((2, [0, 2, 999])));
    assert_eq!(rt; ordered(&recording, 3), Ok((2, [2, 0, 999])));
    Ok(())
}

#[test]
fn a_bad_read_by_two_steps_where_one_does_not_show_it(rt: HostRuntime) -> Result<(), Fail> {
    let recording = told(&[
        write(0, 1, 1),
        read(1, 1, 1),
        write(1, 2, 1),
        read(2, 2, 1),
        write(2, 1, 2),
        read(2, 1, 1),
    ])?;
    let rule = TermList::spelled(b"s,vs")?;
    let mut seen = [0; 1024];
    let mut working = [0; 1024];
    let mut evidence = [999; 256];
    let verdict = judge_own(&recording, &rule, &mut seen, &mut working, &mut evidence)?;
    assert_eq!(rt; verdict.violation, Some(Violation::BadRead));
    assert_eq!(rt; front(&evidence), [5, 0, 4]);
    let table = Table { words: &seen };
    assert!(rt; !table.pair(0, 4));
    assert!(rt; table.pair(0, 2) && table.pair(2, 4));
    Ok(())
}

#[test]
fn an_order_is_refused_on_the_first_ground(rt: HostRuntime) -> Result<(), Fail> {
    let recording = told(&[write(0, 5, 7), read(0, 5, 0)])?;
    let mut seen = [1; 1024];
    let mut working = [1; 1024];
    let mut evidence = [999; 256];
    assert_eq!(rt;
        order_for_read(
            &recording,
            &Causal,
            0,
            &mut seen[1..],
            &mut working,
            &mut evidence,
        ),
        Err(Refusal::WrongLength)
    );
    assert_eq!(rt;
        order_for_read(
            &recording,
            &Causal,
            0,
            &mut seen,
            &mut working,
            &mut evidence,
        ),
        Err(Refusal::NotARead)
    );
    assert_eq!(rt; seen[0], 1);
    assert_eq!(rt;
        order_for_read(
            &recording,
            &Causal,
            1,
            &mut seen,
            &mut working,
            &mut evidence,
        ),
        Err(Refusal::NotExplained)
    );
    assert_eq!(rt; front(&evidence), [1, 0, 999]);
    assert_eq!(rt; seen[0], 2);
    assert_eq!(rt; Refusal::WrongLength.number(), 8);
    assert_eq!(rt; Refusal::NotARead.number(), 7);
    assert_eq!(rt; Refusal::NotExplained.number(), 17);
    Ok(())
}

#[test]
fn sessions_of_the_smallest_recordings(rt: HostRuntime) -> Result<(), Fail> {
    assert_eq!(rt; session(&told(&[])?)?, explained(0, [999, 999, 999]));
    assert_eq!(rt;
        session(&told(&[read(0, 5, 7)])?)?,
        violated(Violation::ThinAir, 1, [0, 999, 999])
    );
    assert_eq!(rt;
        session(&told(&[read(0, 5, 7), write(0, 5, 7)])?)?.violation,
        Some(Violation::BadVisibility)
    );
    assert_eq!(rt;
        session(&told(&[write(0, 5, 7), read(0, 5, 0)])?)?,
        violated(Violation::BadInitRead, 2, [1, 0, 999])
    );
    let recording = told(&[write(0, 1, 1), write(0, 1, 2), read(1, 1, 2), read(1, 1, 1)])?;
    assert_eq!(rt;
        session(&recording)?,
        violated(Violation::BadRead, 3, [3, 0, 1])
    );
    Ok(())
}

#[test]
fn opposite_orders_are_explained_by_sessions(rt: HostRuntime) -> Result<(), Fail> {
    let recording = told(&[write(0, 1, 1), read(0, 1, 2), write(1, 1, 2), read(1, 1, 1)])?;
    assert_eq!(rt; session(&recording)?, explained(0, [999, 999, 999]));
    let mut evidence = [999; 256];
    let mut seen = [0; 1024];
    let mut working = [0; 1024];
    assert_eq!(rt;
        order_for_station(&recording, 1, &mut seen, &mut working, &mut evidence),
        Ok(3)
    );
    assert_eq!(rt; front(&evidence), [2, 0, 3]);
    assert_eq!(rt; evidence[3], 999);
    assert_eq!(rt;
        order_for_station(&recording, 2, &mut seen, &mut working, &mut evidence),
        Ok(0)
    );
    assert_eq!(rt;
        order_for_station(&recording, 3, &mut seen, &mut working, &mut evidence),
        Err(Refusal::NoSuchStation)
    );
    Ok(())
}

#[test]
fn a_write_has_happened_before_a_read_of_zero(rt: HostRuntime) -> Result<(), Fail> {
    let recording = told(&[
        write(0, 3, 1),
        write(0, 1, 1),
        write(2, 1, 2),
        read(1, 1, 2),
        read(1, 3, 0),
        read(1, 1, 1),
        read(1, 1, 2),
    ])?;
    assert_eq!(rt; own(&recording, &Causal)?.violation, None);
    assert_eq!(rt;
        shared(&recording, &Causal)?.violation,
        Some(Violation::BadArb)
    );
    assert_eq!(rt;
        session(&recording)?,
        Found {
            station: 1,
            ..violated(Violation::HbInitRead, 3, [6, 4, 0])
        }
    );
    Ok(())
}

#[test]
fn a_write_has_happened_between_a_read_and_its_source(rt: HostRuntime) -> Result<(), Fail> {
    let recording = told(&[
        write(2, 3, 9),
        read(0, 3, 9),
        write(0, 3, 1),
        write(0, 1, 1),
        write(0, 2, 1),
        write(1, 1, 2),
        read(1, 3, 9),
        read(1, 2, 1),
        read(1, 1, 2),
    ])?;
    assert_eq!(rt; own(&recording, &Causal)?.violation, None);
    assert_eq!(rt; shared(&recording, &Causal)?.violation, None);
    assert_eq!(rt;
        session(&recording)?,
        Found {
            station: 1,
            ..violated(Violation::CyclicHb, 3, [6, 0, 2])
        }
    );
    Ok(())
}
