//! The tables of a sketch.
ghost use Rattle.std.specs.Prelude.{◌≡◌, ◌++◌, Some, take, codes, decimal};
ghost use Rattle.file.specs.Contents.{contents};

use graph::dimension::Dimension;
use graph::limits::{MOST_DIMENSIONS, MOST_ELEMENTS, MOST_ENTRIES};
use graph::list::PlateList;
use plan::entry::Entry;
use std::fmt;

/// How many elements, dimensions and entries there are: so many places of each table are in use, from its front.
#[derive(Clone, Copy, PartialEq, Eq, Debug)]
pub struct Counts {
    pub elements: usize,
    pub dimensions: usize,
    pub entries: usize,
}

impl fmt::Display for Counts {
    ghost output = { λ c. Some (decimal c.elements ++ codes " " ++ decimal c.dimensions ++ codes " " ++ decimal c.entries) };

    fn fmt<W: fmt::Write>(&self, f: &mut fmt::Formatter<W>) -> fmt::Result {
        write!(f, "{} {} {}", self.elements, self.dimensions, self.entries)
    }
}

/// A byte for the kind of each element, as a file has it, the dimensions and the plan; the places behind the counts are unused.
#[derive(Clone, Copy)]
pub struct Tables {
    pub kinds: [u8; MOST_ELEMENTS],
    pub dimensions: [Dimension; MOST_DIMENSIONS],
    pub plan: [Entry; MOST_ENTRIES],
    pub counts: Counts,
}

// The places of a table that are in use: where the count is too large, all of them.
fn front<T>(table: &[T], count: usize) -> &[T]
    ensures { result.now ≡ take count table.now }
{
    table.get(..count).unwrap_or(table)
}

impl Tables {
    /// The kinds and the dimensions in use.
    pub fn list(&self) -> PlateList<'_>
        ensures kinds { result.kinds.now ≡ (contents self.now).kinds }
        ensures dimensions { result.dimensions.now ≡ (contents self.now).dimensions }
    {
        PlateList {
            kinds: front(&self.kinds, self.counts.elements),
            dimensions: front(&self.dimensions, self.counts.dimensions),
        }
    }

    /// The entries in use.
    pub fn plan(&self) -> &[Entry]
        ensures { result.now ≡ (contents self.now).plan }
    {
        front(&self.plan, self.counts.entries)
    }
}
