//! Plans, good and bad.
use crate::lists::checked;
use crate::score::{Done, Score, refused};
use graph::dimension::Dimension;
use plan::entry::Entry;
use std::io;

/// A leaf of the dimension at a place.
pub fn leaf(place: u16) -> Entry {
    Entry::Leaf { place }
}

/// A step of three entries.
pub fn step(first: u16, second: u16, third: u16) -> Entry {
    Entry::Step {
        first,
        second,
        third,
    }
}

const TOO_MANY_ENTRIES: usize = 188;

/// The braced square of the files, its dimensions without their grades.
pub fn braced_square() -> [Dimension; 5] {
    [
        Dimension::plain(0, 2),
        Dimension::plain(1, 2),
        Dimension::plain(0, 3),
        Dimension::plain(1, 3),
        Dimension::plain(2, 3),
    ]
}

fn triangle() -> [Dimension; 3] {
    [
        Dimension::plain(0, 1),
        Dimension::plain(0, 2),
        Dimension::plain(1, 2),
    ]
}

// A leaf of each of three dimensions, and the step that joins them.
fn three_joined() -> [Entry; 4] {
    [leaf(0), leaf(1), leaf(2), step(0, 1, 2)]
}

fn leaves_and(first: Entry, second: Entry) -> [Entry; 7] {
    [leaf(0), leaf(1), leaf(2), leaf(3), leaf(4), first, second]
}

// Plans that are accepted.
fn work_accepted(score: &mut Score<'_>) -> io::Result<()> {
    let one = checked(&[0, 1], &[Dimension::plain(0, 1)], &[leaf(0)]);
    score.compare("a point and a line", Ok(Done::Steps(0)), one)?;
    score.compare(
        "a triangle",
        Ok(Done::Steps(1)),
        checked(&[0, 0, 0], &triangle(), &three_joined()),
    )?;
    let points = [0, 0, 0, 0];
    let near = leaves_and(step(0, 2, 4), step(1, 3, 5));
    score.compare(
        "a braced square",
        Ok(Done::Steps(2)),
        checked(&points, &braced_square(), &near),
    )?;
    let far = leaves_and(step(1, 3, 4), step(0, 2, 5));
    score.compare(
        "its other plan",
        Ok(Done::Steps(2)),
        checked(&points, &braced_square(), &far),
    )
}

// Plans that are refused.
fn work_refused(score: &mut Score<'_>) -> io::Result<()> {
    let two = [0, 0];
    let one = [Dimension::plain(0, 1)];
    score.compare("an empty plan", refused(3, 12, 0), checked(&two, &one, &[]))?;
    let long = [leaf(0); TOO_MANY_ENTRIES];
    score.compare(
        "188 entries",
        refused(3, 12, 188),
        checked(&two, &one, &long),
    )?;
    score.compare(
        "leaf 1 of one dimension",
        refused(3, 13, 0),
        checked(&two, &one, &[leaf(1)]),
    )?;
    score.compare(
        "a leaf of no dimension",
        refused(3, 13, 0),
        checked(&two, &[], &[leaf(0)]),
    )?;
    let itself = [leaf(0), leaf(0), step(0, 1, 2)];
    score.compare(
        "a step that names itself",
        refused(3, 13, 2),
        checked(&two, &one, &itself),
    )?;
    score.compare(
        "two leaves and no step",
        refused(3, 14, 0),
        checked(&two, &one, &[leaf(0), leaf(0)]),
    )?;
    score.compare(
        "a triangle, leaf 0 alone",
        refused(3, 15, 1),
        checked(&[0, 0, 0], &triangle(), &[leaf(0)]),
    )?;
    let star = [
        Dimension::plain(0, 1),
        Dimension::plain(0, 2),
        Dimension::plain(0, 3),
    ];
    score.compare(
        "three that meet in one",
        refused(3, 16, 3),
        checked(&[0, 0, 0, 0], &star, &three_joined()),
    )?;
    let path = [
        Dimension::plain(0, 1),
        Dimension::plain(1, 2),
        Dimension::plain(2, 3),
    ];
    score.compare(
        "three in a row",
        refused(3, 16, 3),
        checked(&[0, 0, 0, 0], &path, &three_joined()),
    )?;
    score.compare(
        "three elements, only 0-1",
        refused(3, 17, 0),
        checked(&[0, 0, 0], &one, &[leaf(0)]),
    )
}

/// Works the examples of plans.
pub fn work(score: &mut Score<'_>) -> io::Result<()> {
    work_accepted(score)?;
    work_refused(score)
}
