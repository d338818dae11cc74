//! The entries of a plan.
ghost use Rattle.std.specs.Prelude.{◌≡◌};
ghost use Rattle.plan.specs.Entries.{is_step};
ghost use Rattle.plan.specs.declared.entry.Entry.TheVariants.{Leaf};
ghost use Rattle.plan.specs.PlanRows.{misnames, names_entry, names_dimension};

/// An entry of a plan: a leaf names a dimension by its place, a step names three entries by their numbers. A plan is handed in as a
/// table of these and stays one, so that there is no heap.
#[derive(Clone, Copy, PartialEq, Eq, Debug)]
pub enum Entry {
    Leaf { place: u16 },
    Step { first: u16, second: u16, third: u16 },
}

impl Default for Entry {
    ghost is_default = { λ entry. entry ≡ Leaf 0 };

    fn default() -> Entry {
        Entry::Leaf { place: 0 }
    }
}

impl Entry {
    // Whether this is a leaf of none of so many dimensions, or as entry `at` a step that does not name three rising entries below
    // itself.
    pub(crate) fn misnames(self, dimensions: usize, at: usize) -> bool
        ensures { result ≡ misnames dimensions at self }
    {
        match self {
            Entry::Leaf { place } => usize::from(place) >= dimensions,
            Entry::Step {
                first,
                second,
                third,
            } => first >= second || second >= third || usize::from(third) >= at,
        }
    }

    // Whether this is a step that names the entry.
    pub(crate) fn names(self, entry: usize) -> bool
        ensures { result ≡ names_entry entry self }
    {
        match self {
            Entry::Leaf { .. } => false,
            Entry::Step {
                first,
                second,
                third,
            } => [first, second, third]
                .iter()
                .any(|&name| usize::from(name) == entry),
        }
    }

    // Whether this is a leaf of the dimension.
    pub(crate) fn is_leaf_of(self, dimension: usize) -> bool
        ensures { result ≡ names_dimension dimension self }
    {
        match self {
            Entry::Leaf { place } => dimension == usize::from(place),
            Entry::Step { .. } => false,
        }
    }

    // Whether this is a step.
    pub(crate) fn is_step(self) -> bool
        ensures { result ≡ is_step self }
    {
        matches!(self, Entry::Step { .. })
    }
}
