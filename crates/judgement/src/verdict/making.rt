//! How a verdict is made of what was found, and what it grants.
ghost use Rattle.std.specs.Prelude.{◌≡◌};
ghost use Rattle.judgement.specs.Ordered.{Granted};
ghost use Rattle.judgement.specs.Showing.{verdict_of};

use crate::refusal::Refusal;
use crate::shown::Shown;
use crate::verdict::Verdict;

impl Verdict {
    // The verdict of the violation that is shown; or of none, with so many numbers of evidence.
    pub(crate) fn of(label: u8, found: Result<usize, Shown>) -> Verdict
        ensures { result ≡ verdict_of label found }
    {
        match found {
            Ok(count) => Verdict {
                label,
                violation: None,
                station: 0,
                count,
            },
            Err(shown) => Verdict {
                label,
                violation: Some(shown.violation),
                station: shown.station,
                count: shown.count,
            },
        }
    }

    // Refuses by 17 where the verdict is not explained.
    pub(crate) fn grant(self) -> Result<(), Refusal>
        ensures { Granted self result }
    {
        match self.violation {
            None => Ok(()),
            Some(_) => Err(Refusal::NotExplained),
        }
    }
}
