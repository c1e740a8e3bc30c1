//! A violation that is shown at the front of the evidence buffer.
ghost use Rattle.std.specs.Prelude.{◌≡◌, ◌<◌, ◌≤◌, length, take, [], ◌∷◌};
ghost use Rattle.relation.specs.Orders.{Tail};

use crate::lending::NUMBERS;
use crate::verdict::Violation;
use relation::put_front;
use violations::Rivals;

// A violation, the station that it is about or else 0, and how many numbers show it.
#[derive(Clone, Copy)]
pub(crate) struct Shown {
    pub(crate) violation: Violation,
    pub(crate) station: u8,
    pub(crate) count: usize,
}

impl Shown {
    // Puts the numbers that show a violation at the front of the evidence.
    pub(crate) fn put(
        violation: Violation,
        station: u8,
        numbers: &[u16],
        evidence: &mut [u16; NUMBERS],
    ) -> Shown
        requires { length numbers.now ≤ 256 }
        ensures violation { result.violation ≡ violation }
        ensures station { result.station ≡ station }
        ensures count { result.count ≡ length numbers.now }
        ensures front { take result.count evidence.new ≡ numbers.now }
        ensures tail { Tail evidence.old evidence.new result.count }
    {
        put_front(numbers, evidence);
        Shown {
            violation,
            station,
            count: numbers.len(),
        }
    }
}

// A read, its source and its rival, as numbers of the evidence.
pub(crate) fn numbers_of(rivals: Rivals) -> [u16; 3]
    requires read { rivals.read < 256 }
    requires source { rivals.source < 256 }
    requires rival { rivals.rival < 256 }
    ensures { result ≡ rivals.read ∷ rivals.source ∷ rivals.rival ∷ [] }
{
    [
        rivals.read as u16,
        rivals.source as u16,
        rivals.rival as u16,
    ]
}
