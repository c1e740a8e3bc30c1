//! Reads a recording as text from standard input, tells it, and prints what came of it.
#![tactic(auto)]

use console::{Unreadable, parse, print_answer, print_operations, print_words};
use recording::Recording;
use std::io;
use words::tell;

// Tells the recording what one line says, and prints what it answers.
fn tell_line(
    rt: &impl Print,
    recording: &mut Recording,
    number: u64,
    text: &str,
) -> io::Result<()> {
    match parse(text) {
        Ok(None) => Ok(()),
        Ok(Some(call)) => print_answer(rt, number, text, tell(recording, call)),
        Err(unreadable) => println!(rt; "line {number}: {unreadable}"),
    }
}

fn run(rt: &(impl Input + Print + Alloc)) -> io::Result<()> {
    let mut recording = Recording::unstarted();
    // The loop stands in both programs: a function round it would take a closure that prints, keeps and fails in each one's way.
    for (number, text) in (1..=u64::MAX).zip(rt.lines(rt.alloc())) {
        match text {
            Ok(text) => tell_line(rt, &mut recording, number, text.as_str())?,
            Err(_) => println!(rt; "line {number}: {Unreadable}")?,
        }
    }
    print_operations(rt, &recording)?;
    print_words(rt, &recording)
}

fn main(rt: HostRuntime) -> anyhow::Result<()> {
    run(&rt)?;
    Ok(())
}
