//! Why a list is refused.
ghost use Rattle.std.specs.Prelude.{◌≡◌};
ghost use Rattle.graph.specs.ListFaults.{list_refusal};

use crate::refusal::Refusal;

/// What is wrong with a list.
#[derive(Clone, Copy, PartialEq, Eq, Debug)]
pub enum ListFault {
    /// Too few or too many kinds (table 0), or too many dimensions (table 1). The number is the place that the refusal tells, and
    /// whoever makes a fault may tell any.
    WrongCount { table: usize },
    /// A kind that is neither point nor line.
    UnknownKind { element: usize },
    /// A dimension at an element that is not there.
    UnknownElement { dimension: usize },
    /// The first element of a dimension is not below the second.
    NotRising { dimension: usize },
    /// The pair has a dimension already.
    RepeatedPair { dimension: usize },
}

impl From<ListFault> for Refusal {
    ghost from_gives = { λ fault told. told ≡ list_refusal fault };

    fn from(fault: ListFault) -> Refusal {
        let (number, place) = match fault {
            ListFault::WrongCount { table } => (7, table),
            ListFault::UnknownKind { element } => (8, element),
            ListFault::UnknownElement { dimension } => (9, dimension),
            ListFault::NotRising { dimension } => (10, dimension),
            ListFault::RepeatedPair { dimension } => (11, dimension),
        };
        Refusal {
            layer: 2,
            number,
            place,
        }
    }
}
