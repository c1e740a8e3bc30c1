//! Term lists: how they are spelled, and what they demand.
use recording::Recording;
use rows::Table;
use std::test::Fail;
use visibility::{TermList, least_visibility};

// The spelling is refused by 15, at that place.
fn refused_at(bytes: &[u8], place: usize) -> bool {
    TermList::spelled(bytes).is_err_and(|refusal| refusal.number() == 15 && refusal.place == place)
}

#[test]
fn a_spelling_is_refused_at_the_fatal_byte(rt: HostRuntime) {
    assert!(rt; refused_at(b"s,", 2));
    assert!(rt; refused_at(b"svsvs", 4));
    assert!(rt; refused_at(b"s;v", 1));
    assert!(rt; refused_at(b",s", 0));
    assert!(rt; refused_at(b"s,,v", 2));
    assert!(rt; refused_at(b"S", 0));
    assert!(rt; refused_at(b"s,v,s,v,s,v,s,v,s", 15));
}

#[test]
fn eight_terms_of_four_letters_are_taken(rt: HostRuntime) {
    assert!(rt; TermList::spelled(b"").is_ok());
    assert!(rt; TermList::spelled(b"s").is_ok());
    assert!(rt; TermList::spelled(b"svsv,vvvv,ssss,s,v,sv,vs,svs").is_ok());
}

#[test]
fn no_terms_demand_nothing(rt: HostRuntime) -> Result<(), Fail> {
    let mut r = Recording::unstarted();
    assert_eq!(rt; r.read(0, 5, 7), Ok(0));
    assert_eq!(rt; r.write(0, 5, 7), Ok(1));
    let none = TermList::spelled(b"")?;
    let mut words = [0; 1024];
    least_visibility(&r, &none, &mut words);
    let seen = Table { words: &words };
    assert!(rt; seen.pair(1, 0));
    assert!(rt; !seen.pair(0, 1));
    assert!(rt; !seen.pair(0, 0));
    Ok(())
}

#[test]
fn a_term_is_walked_letter_by_letter(rt: HostRuntime) -> Result<(), Fail> {
    let mut r = Recording::unstarted();
    assert_eq!(rt; r.start(2), Ok(()));
    assert_eq!(rt; r.write(0, 1, 1), Ok(0));
    assert_eq!(rt; r.write(0, 2, 1), Ok(1));
    assert_eq!(rt; r.read(1, 2, 1), Ok(2));
    let terms = TermList::spelled(b"sv")?;
    let mut words = [0; 1024];
    least_visibility(&r, &terms, &mut words);
    let seen = Table { words: &words };
    assert!(rt; seen.pair(1, 2));
    assert!(rt; seen.pair(0, 2));
    assert!(rt; !seen.pair(0, 1));
    assert!(rt; !seen.pair(2, 0));
    Ok(())
}
