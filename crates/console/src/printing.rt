//! Prints what calls answer, and what a recording holds.
use recording::Recording;
use std::io;
use words::{Answer, CallRefusal, copy};

/// What a call of a line answers: a number or a refusal.
pub fn print_answer(
    rt: &impl Print,
    number: u64,
    text: &str,
    answer: Result<Answer, CallRefusal>,
) -> io::Result<()> {
    match answer {
        Ok(answer) => println!(rt; "line {number}: {text}: {answer}"),
        Err(refusal) => println!(rt; "line {number}: {text}: {refusal}"),
    }
}

/// All operations, and for each read its source.
pub fn print_operations(rt: &impl Print, recording: &Recording) -> io::Result<()> {
    let operations = recording.operations();
    println!(rt;
        "{} operations, stations {}:",
        operations.len(),
        recording.stations()
    )?;
    for (number, operation) in operations.iter().enumerate() {
        match recording.source(number) {
            Ok(Some(source)) => println!(rt; "{number}: {operation}, source {source}")?,
            Ok(None) => println!(rt; "{number}: {operation}, no source")?,
            Err(_) => println!(rt; "{number}: {operation}")?,
        }
    }
    Ok(())
}

/// The words of the recording, and that they load back equal.
pub fn print_words(rt: &impl Print, recording: &Recording) -> io::Result<()> {
    let mut words = [0u32; 258];
    let mut copied = Recording::unstarted();
    match copy(recording, &mut words, &mut copied) {
        Ok(count) => {
            println!(rt; "{count} words:")?;
            for word in &words[..count] {
                println!(rt; "{word:08X}")?;
            }
            println!(rt; "loaded back: equal")
        }
        Err(refusal) => println!(rt; "the words are refused by {}", refusal.number()),
    }
}
