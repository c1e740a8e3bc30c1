//! Least visibilities of small recordings.
use recording::Recording;
use rows::Table;
use std::test::Fail;
use visibility::{Causal, Late, least_visibility};

#[test]
fn a_read_sees_its_write_that_was_told_later(rt: HostRuntime) {
    let mut r = Recording::unstarted();
    assert_eq!(rt; r.start(2), Ok(()));
    assert_eq!(rt; r.read(0, 5, 7), Ok(0));
    assert_eq!(rt; r.write(1, 5, 7), Ok(1));
    let mut words = [1; 1024];
    least_visibility(&r, &Causal, &mut words);
    let seen = Table { words: &words };
    assert!(rt; seen.pair(1, 0));
    assert!(rt; !seen.pair(0, 1));
    assert!(rt; !seen.pair(0, 0));
}

#[test]
fn causal_visibility_goes_through_a_chain(rt: HostRuntime) {
    let mut r = Recording::unstarted();
    assert_eq!(rt; r.start(16), Ok(()));
    for station in 0..15 {
        assert_eq!(rt; r.write(station, station, 1), Ok(2 * station as usize));
        assert_eq!(rt;
            r.read(station + 1, station, 1),
            Ok(2 * station as usize + 1)
        );
    }
    let mut words = [0; 1024];
    least_visibility(&r, &Causal, &mut words);
    let seen = Table { words: &words };
    assert!(rt; seen.pair(0, 29));
    assert!(rt; !seen.pair(29, 0));
    assert!(rt; !seen.pair(0, 30));
}

#[test]
fn a_chain_of_reads_told_before_their_writes_takes_many_sweeps(rt: HostRuntime) {
    let mut r = Recording::unstarted();
    assert_eq!(rt; r.start(16), Ok(()));
    for station in 0..15 {
        assert_eq!(rt; r.read(station + 1, station, 1), Ok(station as usize));
    }
    for station in 0..15 {
        assert_eq!(rt; r.write(station, station, 1), Ok(station as usize + 15));
    }
    let mut words = [0; 1024];
    least_visibility(&r, &Causal, &mut words);
    let seen = Table { words: &words };
    assert!(rt; seen.pair(15, 14));
    assert!(rt; !seen.pair(14, 15));
    assert!(rt; !seen.pair(16, 15));
}

#[test]
fn a_cycle_is_seen_from_both_ends(rt: HostRuntime) {
    let mut r = Recording::unstarted();
    assert_eq!(rt; r.read(0, 5, 7), Ok(0));
    assert_eq!(rt; r.write(0, 5, 7), Ok(1));
    let mut words = [0; 1024];
    least_visibility(&r, &Causal, &mut words);
    let seen = Table { words: &words };
    assert!(rt; seen.pair(0, 1));
    assert!(rt; seen.pair(1, 0));
    assert!(rt; seen.pair(0, 0));
}

#[test]
fn late_counts_places_of_the_station(rt: HostRuntime) -> Result<(), Fail> {
    let mut r = Recording::unstarted();
    assert_eq!(rt; r.start(2), Ok(()));
    assert_eq!(rt; r.write(0, 1, 1), Ok(0));
    assert_eq!(rt; r.write(1, 2, 1), Ok(1));
    assert_eq!(rt; r.read(0, 1, 0), Ok(2));
    assert_eq!(rt; r.read(0, 1, 0), Ok(3));
    let late = Late::new(2)?;
    let mut words = [0; 1024];
    least_visibility(&r, &late, &mut words);
    let seen = Table { words: &words };
    assert!(rt; !seen.pair(0, 2));
    assert!(rt; seen.pair(0, 3));
    assert!(rt; Late::new(0).is_err());
    assert!(rt; Late::new(255).is_ok());
    assert!(rt; Late::new(256).is_err());
    Ok(())
}
