//! Numbers put at the front of a lent slice.
ghost use Rattle.std.specs.Prelude.{◌≡◌, ◌<◌, ◌≤◌, length, take};
ghost use Rattle.relation.specs.Orders.{Tail};

/// Puts the numbers at the front of `out`, the rest of which is unchanged; where there is no room for all, nothing changes.
pub fn put_front(numbers: &[u16], out: &mut [u16])
    ensures front { length numbers.now ≤ length out.old → take (length numbers.now) out.new ≡ numbers.now }
    ensures tail { Tail out.old out.new (length numbers.now) }
    ensures unfit { length out.old < length numbers.now → out.new ≡ out.old }
{
    if numbers.len() <= out.len() {
        out[..numbers.len()].copy_from_slice(numbers);
    }
}
