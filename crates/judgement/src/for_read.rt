//! The order for a read: one order of all writes that gives this read its value.
ghost use Rattle.std.specs.Prelude.{◌≡◌};
ghost use Rattle.recording.specs.Operations.{IsRead};
ghost use Rattle.recording.specs.Telling.{recorded};
ghost use Rattle.rows.specs.Members.{related};
ghost use Rattle.judgement.specs.Ordered.{OrderFound, OrderedFor};
ghost use Rattle.judgement.specs.Verdicts.{OrderAnswer, lent};
ghost use Rattle.violations.specs.Views.{operations_of, seen_of};
ghost use Rattle.violations.specs.Violations.{OwnClean};

use crate::lending::NUMBERS;
use crate::own::own_verdict;
use crate::refusal::Refusal;
use recording::Recording;
use relation::{Union, order_or_cycle};
use rows::{Table, WORDS};
use violations::View;
use visibility::Rule;

/// Puts an order of all writes that gives the read its value at the front of `evidence`, and answers its length.
/// Refuses by 8, by 7 if the number names no read, and by 17 if the own judgement is not explained; then tables and
/// evidence are as that judgement leaves them.
pub fn order_for_read<R: Rule>(
    recording: &Recording,
    rule: &R,
    read: usize,
    seen: &mut [u64],
    working: &mut [u64],
    evidence: &mut [u16],
) -> Result<usize, Refusal>
    ensures answered { OrderAnswer (R.demands rule.now) (R.known rule.now) (recorded recording.now).operations read (lent seen.old working.old evidence.old) result (lent seen.new working.new evidence.new) }
{
    let seen = seen.as_mut_array::<WORDS>().ok_or(Refusal::WrongLength)?;
    working.as_mut_array::<WORDS>().ok_or(Refusal::WrongLength)?;
    let evidence = evidence
        .as_mut_array::<NUMBERS>()
        .ok_or(Refusal::WrongLength)?;
    recording.source(read).map_err(|_| Refusal::NotARead)?;
    own_order(recording, rule, read, seen, evidence)
}

// The order for a read, where all lengths are right. Refuses by 17.
fn own_order<R: Rule>(
    recording: &Recording,
    rule: &R,
    read: usize,
    seen: &mut [u64; WORDS],
    evidence: &mut [u16; NUMBERS],
) -> Result<usize, Refusal>
    requires { IsRead (recorded recording.now).operations read }
    ensures { OrderFound (R.demands rule.now) (R.known rule.now) (recorded recording.now).operations read (related seen.new) evidence.old evidence.new result }
{
    own_verdict(recording, rule, seen, evidence).grant()?;
    let seen = Table { words: seen };
    let view = View { recording, seen };
    Ok(order_writes(view, read, evidence))
}

// Puts an order for a read at the front of the evidence, and answers its length.
fn order_writes(view: View<'_, '_>, read: usize, evidence: &mut [u16; NUMBERS]) -> usize
    requires { OwnClean (operations_of view) (seen_of view) }
    ensures { OrderedFor (operations_of view.entry) (seen_of view.entry) read result evidence.old evidence.new }
{
    let between = view.between_writes();
    // The union is written as in `arbitrate`, with another part: a function would only wrap the literal.
    let kept = Union {
        one: between,
        other: view.forced(read),
    };
    order_or_cycle(&kept, between.mask, evidence).unwrap()
}
