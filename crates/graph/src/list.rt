//! Lists: kinds and dimensions, and the judge of a list.
ghost use Rattle.std.specs.Prelude.{◌≡◌, ◌↔◌, ◌<◌, Ok, Err, IfOk, IfErr, length, take};
ghost use Rattle.std.specs.List.{list_any};
ghost use Rattle.graph.specs.Rows.{first_refusal, answered, told, lowest, ReadingLaw};
ghost use Rattle.graph.specs.Lists.{list_rows, Lawful, wrong_count, unknown_kind, unknown_element, not_rising, repeated_pair, same_pair, at as place};
ghost use Rattle.graph.specs.ListFaults.{list_refusal};

use crate::dimension::Dimension;
use crate::faults::ListFault;
use crate::kind::Kind;
use crate::limits::{FEWEST_ELEMENTS, MOST_DIMENSIONS, MOST_ELEMENTS};

/// A byte for the kind of each element, and the dimensions between them. Not a `Kind`: a byte that is none has a refusal of its own.
#[derive(Clone, Copy)]
pub struct PlateList<'a> {
    pub kinds: &'a [u8],
    pub dimensions: &'a [Dimension],
}

/// A list that is lawful: whoever makes one shows that. It stays as it was handed in, so no other table is needed.
#[derive(Clone, Copy)]
pub struct LawfulList<'a> {
    pub list: PlateList<'a>,
    ghost lawful: { Lawful list.kinds.now list.dimensions.now },
}

impl<'a> PlateList<'a> {
    // Which table has too few or too many places, kinds (0) or dimensions (1): the place that is told.
    fn wrong_count(self) -> Option<usize>
        ensures { result ≡ lowest 2 (wrong_count self.entry.kinds.now self.entry.dimensions.now) }
    {
        if self.kinds.len() < FEWEST_ELEMENTS || self.kinds.len() > MOST_ELEMENTS {
            return Some(0);
        }
        if self.dimensions.len() > MOST_DIMENSIONS {
            return Some(1);
        }
        None
    }

    // The first kind that is neither point nor line.
    fn unknown_kind(self) -> Option<usize>
        ensures { result ≡ lowest (length self.entry.kinds.now) (unknown_kind self.entry.kinds.now) }
    {
        self.kinds
            .iter()
            .position(|&kind| Kind::try_from(kind).is_err())
    }

    // The first dimension at an element that is not there.
    fn unknown_element(self) -> Option<usize>
        ensures { result ≡ lowest (length self.entry.dimensions.now) (unknown_element self.entry.kinds.now self.entry.dimensions.now) }
    {
        let elements = self.kinds.len();
        self.dimensions.iter().position(|d| usize::from(d.lower) >= elements
            || usize::from(d.higher) >= elements)
    }

    // The first dimension whose first element is not below the second.
    fn not_rising(self) -> Option<usize>
        ensures { result ≡ lowest (length self.entry.dimensions.now) (not_rising self.entry.dimensions.now) }
    {
        self.dimensions.iter().position(|d| d.lower >= d.higher)
    }

    // Whether an earlier dimension has the same pair.
    fn repeats(self, at: usize) -> bool
        requires { at < length self.dimensions.now }
        ensures { result ≡ list_any (λ d. same_pair d (place self.entry.dimensions.now at)) (take at self.entry.dimensions.now) }
    {
        let pair = self.dimensions[at].pair();
        self.dimensions[..at].iter().any(|d| d.pair() == pair)
    }

    // The first dimension whose pair has one already.
    fn repeated_pair(self) -> Option<usize>
        ensures { result ≡ lowest (length self.entry.dimensions.now) (repeated_pair self.entry.dimensions.now) }
    {
        (0..self.dimensions.len()).find(|&at| self.repeats(at))
    }

    // The first row that holds. Each row makes a fault of its own, so a function for the five would be no shorter. `judge` adds what the
    // answer means.
    fn first_fault(self) -> Result<(), ListFault>
        ensures { told list_refusal result ≡ answered (first_refusal (list_rows self.entry.kinds.now self.entry.dimensions.now)) tt }
    {
        if let Some(table) = self.wrong_count() {
            return Err(ListFault::WrongCount { table });
        }
        if let Some(element) = self.unknown_kind() {
            return Err(ListFault::UnknownKind { element });
        }
        if let Some(dimension) = self.unknown_element() {
            return Err(ListFault::UnknownElement { dimension });
        }
        if let Some(dimension) = self.not_rising() {
            return Err(ListFault::NotRising { dimension });
        }
        if let Some(dimension) = self.repeated_pair() {
            return Err(ListFault::RepeatedPair { dimension });
        }
        Ok(())
    }

    /// Judges the list: it is lawful, or the first row of layer 2 that holds refuses it.
    pub fn judge(self) -> Result<(), ListFault>
        ensures answer { told list_refusal result ≡ answered (first_refusal (list_rows self.entry.kinds.now self.entry.dimensions.now)) tt }
        ensures lawful { (result ≡ Ok tt) ↔ Lawful self.entry.kinds.now self.entry.dimensions.now }
    {
        self.first_fault()
    }

    /// The list as a lawful one, or the same refusal.
    pub fn lawful(self) -> Result<LawfulList<'a>, ListFault>
        ensures same { IfOk result (λ l. l.list ≡ self.entry) }
        ensures refused { IfErr result (λ f. answered (first_refusal (list_rows self.entry.kinds.now self.entry.dimensions.now)) (tt {0}) ≡ Err (list_refusal f)) }
    {
        self.judge()?;
        Ok(LawfulList { list: self })
    }
}

/// How every list of rows is read: the first refusal is the lowest place of a row, where no earlier row holds anywhere.
pub fn reading_stands()
    ensures { ReadingLaw }
{}

#[cfg(test)]
mod tests {
    use super::*;
    use crate::refusal::Refusal;
    use std::test::Fail;

    #[test]
    fn a_pair_has_one_dimension(rt: HostRuntime) -> Result<(), Fail> {
        let d = Dimension {
            lower: 0,
            higher: 1,
            grade: 1,
        };
        let list = PlateList {
            kinds: &[0, 0],
            dimensions: &[d, d],
        };
        let Err(fault) = list.judge() else {
            return Err(Fail::new("accepted"));
        };
        let wanted = Refusal {
            layer: 2,
            number: 11,
            place: 1,
        };
        assert_eq!(rt; Refusal::from(fault), wanted);
        Ok(())
    }
}
