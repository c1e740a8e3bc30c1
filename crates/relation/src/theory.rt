//! What is true of orders and cycles of any relation on numbers.
ghost use Rattle.relation.specs.Steps.{ExtensionTheorem, UnionTheorem, PlacesTheorem};

/// Its contract is the theory: an order exists exactly where there is no cycle, a cycle of a union of which one part
/// has none uses a pair of the other, and the words on lists mean what they say of places.
pub fn order_theory()
    ensures extension { ExtensionTheorem }
    ensures cycle_of_union { UnionTheorem }
    ensures places { PlacesTheorem }
{}
