//! How large a plate may be. Each limit stands here and, for the promises, in specs/Limits.antt.
ghost use Rattle.graph.specs.Limits.{LimitsLaw};

/// A sketch has at least this many elements.
pub const FEWEST_ELEMENTS: usize = 2;
/// A sketch has at most this many elements.
pub const MOST_ELEMENTS: usize = 64;
/// A list has at most this many dimensions: 2 · 64 − 3.
pub const MOST_DIMENSIONS: usize = 125;
/// A plan has at most this many entries: 125 leaves and 62 steps.
pub const MOST_ENTRIES: usize = 187;

/// The constants are the numbers that the promises speak of.
pub fn limits_stand()
    ensures { LimitsLaw }
{}
