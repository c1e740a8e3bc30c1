//! What the violations are looked for in.
ghost use Rattle.violations.specs.Views.{operations_of, seen_of};
ghost use Rattle.judgement.specs.Within.{Within};

use violations::View;

// A view that shows operations of the recording alone.
#[derive(Clone, Copy)]
pub(crate) struct Scene<'r, 's> {
    pub(crate) view: View<'r, 's>,
    ghost within: { Within (operations_of view) (seen_of view) },
}
