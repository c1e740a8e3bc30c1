//! The calls that lines tell, kept so that questions can be asked about them.
use console::{Unreadable, parse};
use std::alloc::{AllocError, Global};
use std::num::ParseIntError;
use std::str::SplitWhitespace;
use words::Call;

/// A call that holds no words, or a load of a part of the words that are kept.
#[derive(Clone, Copy)]
pub enum Step {
    Told(Call<'static>),
    Load { from: usize, to: usize },
}

/// The calls in the order in which they were told, and the words of all loads in one row.
#[derive(Drop)]
pub struct Steps {
    steps: Vec<Step>,
    words: Vec<u32>,
}

/// Why a line gives no step.
#[derive(Clone, Copy)]
pub enum NoStep {
    Unreadable(Unreadable),
    OutOfMemory(AllocError),
}

impl From<Unreadable> for NoStep {
    fn from(unreadable: Unreadable) -> NoStep {
        NoStep::Unreadable(unreadable)
    }
}

impl From<ParseIntError> for NoStep {
    fn from(error: ParseIntError) -> NoStep {
        NoStep::Unreadable(error.into())
    }
}

impl From<AllocError> for NoStep {
    fn from(error: AllocError) -> NoStep {
        NoStep::OutOfMemory(error)
    }
}

impl Step {
    /// What is shown of the step's line: of a load no more than its first word.
    pub fn shown<'a>(&self, text: &'a str) -> &'a str {
        match self {
            Step::Told(_) => text,
            Step::Load { .. } => "words",
        }
    }
}

impl Steps {
    /// No steps.
    pub fn new(heap: Global) -> Steps {
        Steps {
            steps: Vec::new(heap),
            words: Vec::new(heap),
        }
    }

    /// Keeps the step of a line: `words C0000001 E0000000` loads these words, any other line tells what `parse` says.
    pub fn keep(&mut self, heap: Global, text: &str) -> Result<Option<Step>, NoStep> {
        let text = text.trim_start();
        let step = match load(text) {
            Some(words) => self.keep_words(heap, words)?,
            None => match parse(text)? {
                Some(call) => Step::Told(call),
                None => return Ok(None),
            },
        };
        self.steps.push(step).map_err(AllocError::from)?;
        Ok(Some(step))
    }

    // Keeps the words of a load.
    fn keep_words(&mut self, heap: Global, words: SplitWhitespace<'_>) -> Result<Step, NoStep> {
        let words: Vec<u32> = words
            .map(|word| u32::from_str_radix(word, 16).map_err(NoStep::from))
            .try_collect(heap)?;
        let from = self.words.len();
        self.words.extend_from_slice(&words)?;
        Ok(Step::Load {
            from,
            to: self.words.len(),
        })
    }

    /// The call of a step.
    pub fn call(&self, step: Step) -> Call<'_> {
        match step {
            Step::Told(call) => call,
            Step::Load { from, to } => Call::Load(self.words.get(from..to).unwrap_or(&[])),
        }
    }

    /// All calls, in their order.
    pub fn calls(&self, heap: Global) -> Result<Vec<Call<'_>>, AllocError> {
        self.steps.iter().map(|step| self.call(*step)).collect(heap)
    }
}

// The words of a line that is a load, without the space before its first word.
fn load(text: &str) -> Option<SplitWhitespace<'_>> {
    if !text.starts_with("words") {
        return None;
    }
    let mut words = text.split_whitespace();
    match words.next() {
        Some("words") => Some(words),
        _ => None,
    }
}
