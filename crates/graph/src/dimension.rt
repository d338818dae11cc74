//! Dimensions between two elements.
ghost use Rattle.std.specs.Prelude.{◌≡◌};
ghost use Rattle.graph.specs.Lists.{dimension};

/// A dimension between two elements, named by their numbers, the lower one first. A larger grade is a coarser one.
#[derive(Clone, Copy, PartialEq, Eq, Debug, Default)]
pub struct Dimension {
    pub lower: u8,
    pub higher: u8,
    pub grade: u8,
}

impl Dimension {
    /// A dimension of grade 0.
    pub fn plain(lower: u8, higher: u8) -> Dimension
        ensures { result ≡ dimension lower higher 0 }
    {
        Dimension {
            lower,
            higher,
            grade: 0,
        }
    }

    /// The two elements, without the grade.
    pub fn pair(self) -> (u8, u8)
        ensures { result ≡ (self.lower, self.higher) }
    {
        (self.lower, self.higher)
    }
}
