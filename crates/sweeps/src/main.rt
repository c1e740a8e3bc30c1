//! Prints how many sweeps the growth of a visibility takes, for each rule and 64, 128 and 256 operations, and on stderr how long.
#![tactic(auto)]

use recording::{Recording, Refusal};
use rows::{Row, WORDS};
use std::error::Error;
use std::fmt::InlineText;
use std::io;
use std::time::Instant;
use visibility::{Causal, Late, Outline, Rule, TermList, put_sources, sweep};

// As many bytes of text as an `io::Error` holds.
const TEXT: usize = 80;

// A refusal as an error of IO, with its words: `main` answers an `io::Result`, so that a failed write is told with its code and kind.
fn refused<E: Error + Drop>(refusal: E) -> io::Error {
    io::Error::other(InlineText::<TEXT>::of(refusal).as_str())
}

// Half reads, then the writes that they read: each station reads what the one before it writes later.
fn chain(operations: u32) -> Result<Recording, Refusal> {
    let mut recording = Recording::unstarted();
    recording.start(16)?;
    for k in 0..operations / 2 {
        recording.read((k + 1) % 16, k % 64, k + 1)?;
    }
    for k in 0..operations / 2 {
        recording.write(k % 16, k % 64, k + 1)?;
    }
    Ok(recording)
}

// One sweep more than there are pairs to find.
const MOST_SWEEPS: usize = 65537;

// How many sweeps it takes until one finds nothing new.
fn count_sweeps<R: Rule>(rule: &R, outline: &Outline, words: &mut [u64]) -> usize {
    (1..MOST_SWEEPS)
        .find(|_| !sweep(rule, outline, words))
        .unwrap_or(MOST_SWEEPS)
}

// Grows the visibility under a rule, and prints what it cost.
fn print_growth<R: Rule>(
    rt: &HostRuntime,
    name: &str,
    rule: &R,
    operations: u32,
) -> io::Result<()> {
    let recording = chain(operations).map_err(refused)?;
    let outline = Outline::from(&recording);
    let mut words = [0u64; WORDS];
    put_sources(&recording, Row::below(recording.count()), &mut words);
    let start = Instant::now(rt)?;
    let sweeps = count_sweeps(rule, &outline, &mut words);
    let micros = start.elapsed(rt)?.as_micros();
    println!(rt; "{name}, {operations} operations: {sweeps} sweeps")?;
    eprintln!(rt; "{name}, {operations} operations: {micros} microseconds")
}

fn print_growths<R: Rule>(rt: &HostRuntime, name: &str, rule: &R) -> io::Result<()> {
    for operations in [64, 128, 256] {
        print_growth(rt, name, rule, operations)?;
    }
    Ok(())
}

fn main(rt: HostRuntime) -> io::Result<()> {
    print_growths(&rt, "causal", &Causal)?;
    print_growths(
        &rt,
        "terms s,vv",
        &TermList::spelled(b"s,vv").map_err(refused)?,
    )?;
    print_growths(&rt, "late by 4", &Late::new(4).map_err(refused)?)
}
