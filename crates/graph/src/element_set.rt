//! Sets of elements, and how two of them meet.
ghost use Rattle.std.specs.Prelude.{◌≡◌, ℕ, ◌^◌, ◌<◌, Bool, true, false, ◌&&◌, ◌||◌, MatchOption, ◌==◌, ◌≢◌, nat_lt};
ghost use Rattle.decomposition.specs.Sets.{meet};
ghost use Rattle.graph.specs.Limits.{most_elements};
ghost use Rattle.graph.specs.ElementSets.{members, Shares};

use crate::limits::MOST_ELEMENTS;

/// One bit for each element.
type Bits = u64;

/// A set of elements.
#[derive(Clone, Copy, PartialEq, Eq, Debug, Default)]
pub struct ElementSet {
    bits: Bits,
}

/// What two sets have in common. There are three cases, so it is neither an `Option` nor a `Result`.
#[derive(Clone, Copy, PartialEq, Eq, Debug)]
pub enum Shared {
    Nothing,
    One { element: u8 },
    Several,
}

impl ElementSet {
    /// The set of no elements.
    pub fn empty() -> ElementSet
        ensures { (j : ℕ) → members result j ≡ false }
    {
        ElementSet { bits: 0 }
    }

    /// Whether the element is in the set.
    pub fn contains(self, element: u8) -> bool
        ensures { result ≡ members self element }
    {
        usize::from(element) < MOST_ELEMENTS && (self.bits >> element) & 1 == 1
    }

    /// The set and one element more; a number that no element can have adds nothing.
    pub fn with(self, element: u8) -> ElementSet
        ensures { (j : ℕ) → members result j ≡ (members self j || (nat_lt element most_elements && j == element)) }
    {
        if usize::from(element) >= MOST_ELEMENTS {
            return self;
        }
        ElementSet {
            bits: self.bits | (1 << element),
        }
    }

    /// What is in the one set or the other.
    pub fn union(self, other: ElementSet) -> ElementSet
        ensures { (j : ℕ) → members result j ≡ (members self j || members other j) }
    {
        ElementSet {
            bits: self.bits | other.bits,
        }
    }

    /// How many elements two sets share: none, one and which, or several.
    pub fn compare(self, other: ElementSet) -> Shared
        ensures { Shares (meet (members self) (members other)) result }
    {
        let both = ElementSet {
            bits: self.bits & other.bits,
        };
        if both.bits == 0 {
            return Shared::Nothing;
        }
        match both.only() {
            Some(element) => Shared::One { element },
            None => Shared::Several,
        }
    }

    // The element of a set that has just one.
    fn only(self) -> Option<u8>
        ensures { MatchOption result ((k : ℕ) → self.bits ≢ 2 ^ k) (λ k. (k < most_elements) × (self.bits ≡ 2 ^ k)) }
    {
        // There are at most 64 zeros, which fit.
        let element = self.bits.trailing_zeros() as u8;
        if usize::from(element) < MOST_ELEMENTS && self.bits == 1 << element {
            return Some(element);
        }
        None
    }
}
