//! Asks about a recording, and prints the verdicts and what else was asked for.
use crate::evidence::Evidence;
use crate::request::Request;
use examine::{Question, Reply, examine};
use judgement::{Verdict, Violation};
use recording::Recording;
use rows::Table;
use std::io;
use visibility::Rule;
use words::Call;

/// A recording, the calls that settle it, the rule, and the tables and the buffer that are lent to each question.
#[derive(Drop)]
pub struct Inquiry<'a, R: Rule> {
    recording: &'a Recording,
    calls: &'a [Call<'a>],
    rule: &'a R,
    seen: [u64; 1024],
    working: [u64; 1024],
    evidence: [u16; 256],
}

impl<'a, R: Rule> Inquiry<'a, R> {
    /// Nothing is asked yet.
    pub fn new(recording: &'a Recording, calls: &'a [Call<'a>], rule: &'a R) -> Inquiry<'a, R> {
        Inquiry {
            recording,
            calls,
            rule,
            seen: [0; 1024],
            working: [0; 1024],
            evidence: [0; 256],
        }
    }

    /// The verdicts, and what else was asked for.
    pub fn answer(mut self, rt: &impl Print, request: &Request) -> io::Result<()> {
        self.ask(rt, Question::Own)?;
        self.ask(rt, Question::Shared)?;
        if request.sees {
            self.print_seen(rt)?;
        }
        if let Some(read) = request.order {
            self.ask(rt, Question::OrderForRead(read))?;
        }
        self.ask(rt, Question::Session)?;
        if let Some(station) = request.listing {
            self.ask(rt, Question::OrderForStation(station))?;
        }
        Ok(())
    }

    // Asks one question, and prints the answer.
    fn ask(&mut self, rt: &impl Print, question: Question) -> io::Result<()> {
        let reply = examine(
            self.calls,
            question,
            self.rule,
            &mut self.seen,
            &mut self.working,
            &mut self.evidence,
        );
        match (question, reply) {
            (_, Ok(Reply::Judged(verdict))) => self.print_verdict(rt, question, verdict),
            (_, Ok(Reply::Ordered(count))) => {
                print!(rt; "{question}:")?;
                print_numbers(rt, self.numbers(count))
            }
            (Question::OrderForRead(_) | Question::OrderForStation(_), Err(refusal)) => {
                println!(rt; "{question}: refused by {}, {refusal}", refusal.number())
            }
            (_, Err(refusal)) => {
                println!(rt; "{question} refused by {}, {refusal}", refusal.number())
            }
        }
    }

    // The line of a judgement, with the label of the rule if there is one, the station of a violation that has one, and the evidence.
    fn print_verdict(
        &self,
        rt: &impl Print,
        question: Question,
        verdict: Verdict,
    ) -> io::Result<()> {
        match question {
            Question::Session => println!(rt; "{question} {verdict}")?,
            _ => println!(rt; "{question} {} {verdict}", verdict.label)?,
        }
        if let Some(Violation::HbInitRead | Violation::CyclicHb) = verdict.violation {
            println!(rt; "station {}", verdict.station)?;
        }
        let numbers = self.numbers(verdict.count);
        if !numbers.is_empty() {
            print!(rt; "evidence")?;
            print_numbers(rt, numbers)?;
        }
        let evidence = Evidence {
            recording: self.recording,
            seen: self.table(),
            numbers,
        };
        match verdict.violation {
            Some(violation) => evidence.print(rt, violation),
            None => Ok(()),
        }
    }

    // The first numbers of the evidence buffer.
    fn numbers(&self, count: usize) -> &[u16] {
        &self.evidence[..count.min(256)]
    }

    // The visibility.
    fn table(&self) -> Table<'_> {
        Table { words: &self.seen }
    }

    // What each operation sees.
    fn print_seen(&self, rt: &impl Print) -> io::Result<()> {
        let seen = self.table();
        let count = self.recording.count();
        for number in 0..count {
            print!(rt; "{number} sees")?;
            for other in (0..count).filter(|other| seen.pair(*other, number)) {
                print!(rt; " {other}")?;
            }
            println!(rt; "")?;
        }
        Ok(())
    }
}

// Numbers on the rest of a line.
fn print_numbers(rt: &impl Print, numbers: &[u16]) -> io::Result<()> {
    for number in numbers {
        print!(rt; " {number}")?;
    }
    println!(rt; "")
}
