//! Words that are read, loaded and saved.
use recording::{Recording, Refusal};
use std::process::Abort;
use words::{Fault, LoadRefusal, Misread, load, save};

// The reader refuses the words by that fault, at that place.
fn misread(rt: &impl Abort, words: &[u32], fault: Fault, place: usize) {
    let mut r = Recording::unstarted();
    assert_eq!(rt;
        load(&mut r, words),
        Err(LoadRefusal::Reader(Misread { fault, place }))
    );
}

#[test]
fn each_fault_with_its_place(rt: HostRuntime) {
    misread(&rt, &[], Fault::NotAnOpening, 0);
    misread(&rt, &[0x4028_0007], Fault::NotAnOpening, 0);
    misread(&rt, &[0xE000_0000], Fault::NotAnOpening, 0);
    misread(&rt, &[0xC000_0101, 0xE000_0000], Fault::OutOfForm, 0);
    misread(&rt, &[0xC000_0001, 0xC000_0001], Fault::OutOfForm, 1);
    misread(&rt, &[0xC000_0001, 0x6028_0007], Fault::OutOfForm, 1);
    misread(&rt, &[0xC000_0001, 0x0000_0100], Fault::OutOfForm, 1);
    misread(&rt, &[0xC000_0001, 0x0000_0002, 7], Fault::NoteTooLong, 1);
    misread(
        &rt,
        &[0xC000_0001, 0x4028_0007, 0xE000_0002],
        Fault::WrongCount,
        2,
    );
    misread(&rt, &[0xC000_0001, 0x4028_0007], Fault::Unclosed, 2);
    misread(&rt, &[0xC000_0001, 0xE000_0000, 0], Fault::AfterClosing, 2);
}

#[test]
fn a_note_whose_text_looks_like_frames(rt: HostRuntime) {
    let mut r = Recording::unstarted();
    let words = [
        0xC000_0002,
        0x0000_0002,
        0xE000_0000,
        0xC000_0001,
        0x8228_0000,
        0xE000_0001,
    ];
    assert_eq!(rt; load(&mut r, &words), Ok(1));
    assert_eq!(rt; r.stations(), 2);
    assert_eq!(rt; r.count(), 1);
}

#[test]
fn a_load_keeps_what_came_before_the_fault(rt: HostRuntime) {
    let mut r = Recording::unstarted();
    assert_eq!(rt; r.read(0, 1, 0), Ok(0));
    let refused = LoadRefusal::Recording {
        refusal: Refusal::StationCount,
        place: 0,
    };
    assert_eq!(rt; load(&mut r, &[0xC000_0011, 0xE000_0000]), Err(refused));
    assert_eq!(rt; r.count(), 1);
    let repeated = load(
        &mut r,
        &[0xC000_0001, 0x4028_0007, 0x4028_0007, 0x8028_0007],
    );
    let refused = LoadRefusal::Recording {
        refusal: Refusal::ValueRepeated,
        place: 2,
    };
    assert_eq!(rt; repeated, Err(refused));
    assert_eq!(rt; refused.layer(), 2);
    assert_eq!(rt; refused.number(), 6);
    assert_eq!(rt; refused.place(), 2);
    assert_eq!(rt; r.count(), 1);
}

#[test]
fn at_most_1024_words(rt: HostRuntime) {
    let mut r = Recording::unstarted();
    let mut words = [0; 1025];
    words[0] = 0xC000_0001;
    words[1023] = 0xE000_0000;
    assert_eq!(rt; load(&mut r, &words[0..1024]), Ok(0));
    assert_eq!(rt; load(&mut r, &words), Err(LoadRefusal::TooLong));
}

#[test]
fn a_save_leaves_the_rest(rt: HostRuntime) {
    let mut r = Recording::unstarted();
    assert_eq!(rt; r.write(0, 5, 7), Ok(0));
    let mut words = [9; 4];
    assert!(rt; save(&r, &mut words[0..2]).is_err());
    assert_eq!(rt; words, [9; 4]);
    assert_eq!(rt; save(&r, &mut words), Ok(3));
    assert_eq!(rt; words, [0xC000_0001, 0x4028_0007, 0xE000_0001, 9]);
}
