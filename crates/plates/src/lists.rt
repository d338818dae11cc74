//! Lists, good and bad.
use crate::score::{Done, Score, refused};
use graph::dimension::Dimension;
use graph::list::PlateList;
use plan::check::check;
use plan::entry::Entry;
use plan::faults::PlanFault;
use std::io;

/// What check answers to a list and a plan. The list is put together here, once for all examples.
pub fn checked(kinds: &[u8], dimensions: &[Dimension], plan: &[Entry]) -> Result<Done, PlanFault> {
    check(PlateList { kinds, dimensions }, plan).map(Done::Steps)
}

const TOO_MANY_ELEMENTS: usize = 65;

const TOO_MANY_DIMENSIONS: usize = 126;

/// Works the examples of lists. None of them has a plan.
pub fn work(score: &mut Score<'_>) -> io::Result<()> {
    let two = [0, 0];
    score.compare("one kind", refused(2, 7, 0), checked(&[0], &[], &[]))?;
    let many = [0; TOO_MANY_ELEMENTS];
    score.compare("65 kinds", refused(2, 7, 0), checked(&many, &[], &[]))?;
    let full = [Dimension::plain(0, 1); TOO_MANY_DIMENSIONS];
    score.compare(
        "126 dimensions",
        refused(2, 7, 1),
        checked(&two, &full, &[]),
    )?;
    score.compare(
        "126 dimensions of one kind",
        refused(2, 7, 0),
        checked(&[0], &full, &[]),
    )?;
    score.compare(
        "kinds 0 and 2",
        refused(2, 8, 1),
        checked(&[0, 2], &[], &[]),
    )?;
    score.compare(
        "0-2 of two elements",
        refused(2, 9, 0),
        checked(&two, &[Dimension::plain(0, 2)], &[]),
    )?;
    score.compare(
        "1-1",
        refused(2, 10, 0),
        checked(&two, &[Dimension::plain(1, 1)], &[]),
    )?;
    let twice = [Dimension::plain(0, 1), Dimension::plain(0, 1)];
    score.compare("0-1 twice", refused(2, 11, 1), checked(&two, &twice, &[]))
}
