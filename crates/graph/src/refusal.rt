//! What a refusal says, in numbers.
ghost use Rattle.std.specs.Prelude.{◌++◌, Some, codes, decimal};

use std::fmt;

/// What callers and other programs are told, who know the refusal table by its numbers and not the enums of faults: the layer that
/// refuses (1 the file, 2 the list, 3 the plan, 4 the sketch), the number of the row that holds, and the place where it does.
#[derive(Clone, Copy, PartialEq, Eq, Debug)]
pub struct Refusal {
    pub layer: u8,
    pub number: u8,
    pub place: usize,
}

impl fmt::Display for Refusal {
    ghost output = { λ r. Some (decimal r.layer ++ codes " " ++ decimal r.number ++ codes " " ++ decimal r.place) };

    fn fmt<W: fmt::Write>(&self, f: &mut fmt::Formatter<W>) -> fmt::Result {
        write!(f, "{} {} {}", self.layer, self.number, self.place)
    }
}
