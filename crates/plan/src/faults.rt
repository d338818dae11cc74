//! Why a plan is refused, or none is found.
ghost use Rattle.std.specs.Prelude.{◌≡◌};
ghost use Rattle.plan.specs.PlanFaults.{plan_refusal};
ghost use Rattle.plan.specs.declared.faults.PlanFault.TheVariants.{List};

use graph::faults::ListFault;
use graph::refusal::Refusal;

/// What is wrong with a plan, or with the list that it is for.
#[derive(Clone, Copy, PartialEq, Eq, Debug)]
pub enum PlanFault {
    /// The list is not lawful.
    List(ListFault),
    /// No entry, or too many.
    WrongCount { entries: usize },
    /// A leaf of a dimension that is not there, or a step that does not name three rising entries below itself.
    Misnamed { entry: usize },
    /// An entry, not the last, that is not named by exactly one step.
    NotNamedOnce { entry: usize },
    /// A dimension that is not named by exactly one leaf.
    NotOneLeaf { dimension: usize },
    /// A step whose three reaches do not share single elements two by two, three different ones.
    NotHinged { entry: usize },
    /// The last entry does not reach all elements.
    NotReached { entry: usize },
    /// The table for a plan has too few places.
    FewPlaces { places: usize },
    /// The list has no plan.
    NoPlan,
}

impl From<PlanFault> for Refusal {
    ghost from_gives = { λ fault told. told ≡ plan_refusal fault };

    fn from(fault: PlanFault) -> Refusal {
        let (number, place) = match fault {
            PlanFault::List(fault) => return Refusal::from(fault),
            PlanFault::WrongCount { entries } => (12, entries),
            PlanFault::Misnamed { entry } => (13, entry),
            PlanFault::NotNamedOnce { entry } => (14, entry),
            PlanFault::NotOneLeaf { dimension } => (15, dimension),
            PlanFault::NotHinged { entry } => (16, entry),
            PlanFault::NotReached { entry } => (17, entry),
            PlanFault::FewPlaces { places } => (18, places),
            PlanFault::NoPlan => (19, 0),
        };
        Refusal {
            layer: 3,
            number,
            place,
        }
    }
}

// By hand, so that a clause can say which fault comes through a `?`.
impl From<ListFault> for PlanFault {
    ghost from_gives = { λ f s. s ≡ List f };

    fn from(fault: ListFault) -> PlanFault {
        PlanFault::List(fault)
    }
}
