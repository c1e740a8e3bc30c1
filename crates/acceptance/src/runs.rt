//! Whole runs of calls.
use recording::Recording;
use words::{Call, told};

const WRITE: Call<'static> = Call::Write {
    station: 2,
    register: 5,
    value: 8,
};

#[test]
fn a_run_counts_from_its_last_start(rt: HostRuntime) {
    let r = told(&[
        Call::Start(1),
        WRITE,
        Call::Start(3),
        Call::Start(17),
        WRITE,
        WRITE,
    ]);
    assert_eq!(rt; r.stations(), 3);
    assert_eq!(rt; r.count(), 1);
}

// A recording that is told to load these words, and then a write.
fn load_and_write(words: &[u32]) -> Recording {
    told(&[Call::Start(9), Call::Load(words), WRITE])
}

#[test]
fn a_load_is_a_start_too(rt: HostRuntime) {
    let r = load_and_write(&[0xC000_0003, 0x4028_0007, 0xE000_0001]);
    assert_eq!(rt; r.stations(), 3);
    assert_eq!(rt; r.count(), 2);
}

#[test]
fn a_refused_call_settles_nothing(rt: HostRuntime) {
    let r = told(&[WRITE]);
    assert_eq!(rt; r.stations(), 1);
    assert_eq!(rt; r.count(), 0);
}
