//! What dimensions and steps reach, and how the reaches of a step's three entries meet.
ghost use Rattle.std.specs.Prelude.{◌≡◌};
ghost use Rattle.graph.specs.ElementSets.{members};
ghost use Rattle.plan.specs.Reach.{IsEnds};
ghost use Rattle.plan.specs.Hinges.{hinges, all_differ, share_one};

use graph::dimension::Dimension;
use graph::element_set::{ElementSet, Shared};

// The two elements of a dimension, where a set can hold them.
pub(crate) fn ends(dimension: Dimension) -> ElementSet
    ensures { IsEnds dimension result }
{
    ElementSet::empty()
        .with(dimension.lower)
        .with(dimension.higher)
}

// Whether two sets share exactly one element.
pub(crate) fn sharing_one(a: ElementSet, b: ElementSet) -> bool
    ensures { result ≡ share_one (members a) (members b) }
{
    matches!(a.compare(b), Shared::One { .. })
}

// One element three times, and three different ones.
fn differ(p: Shared, q: Shared, r: Shared) -> bool
    ensures { result ≡ all_differ p q r }
{
    match (p, q, r) {
        (Shared::One { element: x }, Shared::One { element: y }, Shared::One { element: z }) => {
            x != y && y != z && z != x
        }
        _ => false,
    }
}

// Whether three sets share single elements two by two, three different ones.
pub(crate) fn hinged(a: ElementSet, b: ElementSet, c: ElementSet) -> bool
    ensures { result ≡ hinges (members a) (members b) (members c) }
{
    differ(a.compare(b), b.compare(c), c.compare(a))
}
