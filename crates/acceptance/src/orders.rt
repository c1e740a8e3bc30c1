//! Orders and cycles of small relations.
use relation::{Obstacle, order_or_cycle};
use rows::{Row, Table, put_row};

#[test]
fn the_smallest_free_member_comes_first(rt: HostRuntime) {
    let mut words = [0; 1024];
    put_row(&mut words, 2, Row::of(1));
    let mut out = [9; 256];
    let outcome = order_or_cycle(&Table { words: &words }, Row::below(3), &mut out);
    assert!(rt; matches!(outcome, Ok(3)));
    assert!(rt; out.starts_with(&[0, 2, 1, 9]));
}

#[test]
fn a_number_related_to_itself_is_a_cycle(rt: HostRuntime) {
    let mut words = [0; 1024];
    put_row(&mut words, 7, Row::of(7));
    let mut out = [9; 256];
    let outcome = order_or_cycle(&Table { words: &words }, Row::below(256), &mut out);
    assert!(rt; matches!(outcome, Err(Obstacle::Cycle(1))));
    assert!(rt; out.starts_with(&[7, 9]));
}

#[test]
fn a_cycle_outside_the_members_does_not_matter(rt: HostRuntime) {
    let mut words = [0; 1024];
    put_row(&mut words, 7, Row::of(8));
    put_row(&mut words, 8, Row::of(7));
    let mut out = [9; 256];
    let both = order_or_cycle(&Table { words: &words }, Row::below(9), &mut out);
    assert!(rt; matches!(both, Err(Obstacle::Cycle(2))));
    let one = order_or_cycle(&Table { words: &words }, Row::below(8), &mut out);
    assert!(rt; matches!(one, Ok(8)));
}
