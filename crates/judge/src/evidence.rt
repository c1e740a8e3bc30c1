//! Prints the evidence of a violation in words: who did what, and why that cannot be.
use judgement::Violation;
use recording::Recording;
use rows::Table;
use std::io;

/// The numbers that a judgement names, with the recording and the visibility that it is about.
#[derive(Clone, Copy)]
pub struct Evidence<'a> {
    pub recording: &'a Recording,
    pub seen: Table<'a>,
    pub numbers: &'a [u16],
}

impl Evidence<'_> {
    /// The evidence of that violation.
    pub fn print(&self, rt: &impl Print, violation: Violation) -> io::Result<()> {
        match (violation, self.numbers) {
            (Violation::ThinAir, [read]) => {
                self.print_told(rt, "", *read)?;
                println!(rt; "  but no station writes that value to that register")
            }
            (Violation::BadVisibility, _) => {
                self.print_cycle(rt)?;
                println!(rt; "  so none of them can be the first")
            }
            (Violation::BadInitRead, [read, write]) => {
                self.print_told(rt, "", *read)?;
                self.print_told(rt, "but it sees ", *write)
            }
            (Violation::BadRead, [read, source, other]) => {
                self.print_told(rt, "", *read)?;
                self.print_told(rt, "which is the value of ", *source)?;
                self.print_told(rt, "but it also sees ", *other)?;
                println!(rt; "  which comes after {source} in every order")
            }
            (Violation::BadArb, _) => {
                self.print_cycle(rt)?;
                println!(rt; "  so no order of the writes can keep all of this")
            }
            (Violation::HbInitRead, [last, read, write]) => {
                self.print_told(rt, "", *read)?;
                self.print_told(rt, "but before it in every listing up to ", *last)?;
                self.print_told(rt, "stands ", *write)
            }
            (Violation::CyclicHb, [read, source, other]) => {
                self.print_told(rt, "", *read)?;
                self.print_told(rt, "which is the value of ", *source)?;
                let lead = "but between the two, in every listing of its station, stands ";
                self.print_told(rt, lead, *other)
            }
            _ => Ok(()),
        }
    }

    // An operation on a line of its own.
    fn print_told(&self, rt: &impl Print, lead: &str, number: u16) -> io::Result<()> {
        match self.recording.operation(usize::from(number)) {
            Some(operation) => println!(rt; "  {lead}{number}: {operation}"),
            None => Ok(()),
        }
    }

    // The operations of a cycle, each with the reason why it comes before the next.
    fn print_cycle(&self, rt: &impl Print) -> io::Result<()> {
        let following = self.numbers.iter().skip(1).chain(self.numbers.first());
        for (before, after) in self.numbers.iter().zip(following) {
            self.print_told(rt, "", *before)?;
            match self.reader(usize::from(*before), usize::from(*after)) {
                Some(read) => println!(rt;
                    "    comes before {after}, since read {read} has its value from {after} and sees {before}"
                )?,
                None => println!(rt; "    comes before {after}, which sees it")?,
            }
        }
        Ok(())
    }

    // Where `after` does not see `before`: a read that has its value from `after` and sees `before`.
    fn reader(&self, before: usize, after: usize) -> Option<usize> {
        if self.seen.pair(before, after) {
            return None;
        }
        (0..self.recording.count()).find(|read| {
            self.recording.source(*read) == Ok(Some(after)) && self.seen.pair(before, *read)
        })
    }
}
