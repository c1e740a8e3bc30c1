//! The violations of the own judgement, looked for one after the other; what shows one goes to the front of the evidence buffer.
ghost use Rattle.judgement.specs.declared.verdict.Violation.TheVariants.{ThinAir, BadVisibility, BadInitRead, BadRead};
ghost use Rattle.violations.specs.Views.{operations_of, seen_of};
ghost use Rattle.judgement.specs.Showing.{OwnSought, Sought};

use crate::lending::NUMBERS;
use crate::scene::Scene;
use crate::shown::{Shown, numbers_of};
use crate::verdict::Violation;
use relation::{Obstacle, order_or_cycle};
use rows::Row;
use violations::thin_air;

impl Scene<'_, '_> {
    // Shows the first violation of the own judgement that holds.
    pub(crate) fn check_own(self, evidence: &mut [u16; NUMBERS]) -> Result<(), Shown>
        ensures { OwnSought (operations_of self.entry.view) (seen_of self.entry.view) evidence.old evidence.new result }
    {
        self.check_thin_air(evidence)?;
        self.check_visibility(evidence)?;
        self.check_init_reads(evidence)?;
        self.check_reads(evidence)
    }

    // Shows the smallest read out of thin air.
    fn check_thin_air(self, evidence: &mut [u16; NUMBERS]) -> Result<(), Shown>
        ensures { Sought (operations_of self.entry.view) (seen_of self.entry.view) ThinAir evidence.old evidence.new result }
    {
        match thin_air(self.view.recording) {
            Some(read) => Err(Shown::put(Violation::ThinAir, 0, &[read as u16], evidence)),
            None => Ok(()),
        }
    }

    // Shows a cycle of what is seen.
    fn check_visibility(self, evidence: &mut [u16; NUMBERS]) -> Result<(), Shown>
        ensures { Sought (operations_of self.entry.view) (seen_of self.entry.view) BadVisibility evidence.old evidence.new result }
    {
        let mut list = [0; NUMBERS];
        match order_or_cycle(
            &self.view.seen,
            Row::below(self.view.recording.count()),
            &mut list,
        ) {
            Ok(_) => Ok(()),
            Err(Obstacle::Cycle(count)) => Err(Shown::put(
                Violation::BadVisibility,
                0,
                &list[..count],
                evidence,
            )),
            Err(Obstacle::NoRoom) => unreachable(),
        }
    }

    // Shows the smallest read of 0 that sees a write of its register, with the smallest such write.
    fn check_init_reads(self, evidence: &mut [u16; NUMBERS]) -> Result<(), Shown>
        ensures { Sought (operations_of self.entry.view) (seen_of self.entry.view) BadInitRead evidence.old evidence.new result }
    {
        match self.view.bad_init_read() {
            Some(pair) => Err(Shown::put(
                Violation::BadInitRead,
                0,
                &[pair.read as u16, pair.write as u16],
                evidence,
            )),
            None => Ok(()),
        }
    }

    // Shows the smallest read whose source is overtaken, its source, and the smallest write that overtakes it.
    fn check_reads(self, evidence: &mut [u16; NUMBERS]) -> Result<(), Shown>
        ensures { Sought (operations_of self.entry.view) (seen_of self.entry.view) BadRead evidence.old evidence.new result }
    {
        match self.view.bad_read() {
            Some(rivals) => Err(Shown::put(Violation::BadRead, 0, &numbers_of(rivals), evidence)),
            None => Ok(()),
        }
    }
}
