//! What a recording takes, refuses and looks up.
use recording::{Recording, Refusal};
use std::test::Fail;

#[test]
fn values_up_to_524287(rt: HostRuntime) {
    let mut r = Recording::unstarted();
    assert_eq!(rt; r.write(0, 63, 524_287), Ok(0));
    assert_eq!(rt; r.write(0, 63, 524_288), Err(Refusal::ValueOutOfRange));
    assert_eq!(rt; r.write(0, 63, 0), Err(Refusal::ValueOutOfRange));
    assert_eq!(rt; r.read(0, 63, 524_287), Ok(1));
    assert_eq!(rt; r.read(0, 63, 524_288), Err(Refusal::ValueOutOfRange));
    assert_eq!(rt; r.read(0, 63, 0), Ok(2));
    assert_eq!(rt; Refusal::ValueOutOfRange.number(), 4);
}

#[test]
fn the_257th_operation_is_refused(rt: HostRuntime) {
    let mut r = Recording::unstarted();
    for number in 0..256 {
        assert_eq!(rt; r.read(0, 0, 0), Ok(number));
    }
    assert_eq!(rt; r.read(0, 0, 0), Err(Refusal::Full));
    assert_eq!(rt; r.write(0, 0, 1), Err(Refusal::Full));
    assert_eq!(rt; r.count(), 256);
}

#[test]
fn grounds_in_their_order(rt: HostRuntime) {
    let mut r = Recording::unstarted();
    assert_eq!(rt; r.start(0), Err(Refusal::StationCount));
    assert_eq!(rt; r.start(17), Err(Refusal::StationCount));
    assert_eq!(rt; r.start(16), Ok(()));
    assert_eq!(rt; r.write(16, 64, 0), Err(Refusal::NoSuchStation));
    assert_eq!(rt; r.write(15, 64, 0), Err(Refusal::NoSuchRegister));
    assert_eq!(rt; r.write(15, 63, 0), Err(Refusal::ValueOutOfRange));
    assert_eq!(rt; r.write(15, 63, 9), Ok(0));
    assert_eq!(rt; r.write(14, 63, 9), Err(Refusal::ValueRepeated));
    assert_eq!(rt; r.write(14, 62, 9), Ok(1));
}

#[test]
fn a_read_before_its_write(rt: HostRuntime) {
    let mut r = Recording::unstarted();
    assert_eq!(rt; r.read(0, 5, 7), Ok(0));
    assert_eq!(rt; r.source(0), Ok(None));
    assert_eq!(rt; r.write(0, 5, 7), Ok(1));
    assert_eq!(rt; r.source(0), Ok(Some(1)));
    assert_eq!(rt; r.source(1), Err(Refusal::NotARead));
    assert_eq!(rt; r.source(2), Err(Refusal::NotARead));
}

#[test]
fn a_station_keeps_its_last_operation(rt: HostRuntime) -> Result<(), Fail> {
    let mut r = Recording::unstarted();
    assert_eq!(rt; r.start(3), Ok(()));
    assert_eq!(rt; r.write(1, 5, 7), Ok(0));
    assert_eq!(rt; r.read(2, 5, 7), Ok(1));
    assert_eq!(rt; r.read(1, 5, 7), Ok(2));
    let one = r.entry(1).ok_or("no entry")?;
    assert_eq!(rt; one.count, 2);
    assert_eq!(rt; one.last, Some(2));
    let zero = r.entry(0).ok_or("no entry")?;
    assert_eq!(rt; zero.count, 0);
    assert_eq!(rt; zero.last, None);
    assert!(rt; r.entry(3).is_none());
    Ok(())
}
