//! Files, good and bad.
use crate::score::{Done, Score, adopted, refused};
use sketch::faults::SketchFault;
use sketch::sketch::Sketch;
use std::io;

/// Four points in a square with a brace, and a plan of two steps.
pub const BRACED_SQUARE: [u8; 53] = [
    1, 0, 50, 4, 0, 0, 0, 0, 5, 0, 2, 4, 1, 2, 4, 0, 3, 6, 1, 3, 2, 2, 3, 6, 7, 0, 0, 0, 0, 0, 1,
    0, 0, 0, 2, 0, 0, 0, 3, 0, 0, 0, 4, 0, 0, 1, 0, 2, 4, 1, 1, 3, 5,
];

// Two points, and the first byte of the plan's only entry at offset 11.
const TWO_POINTS: [u8; 15] = [1, 0, 12, 2, 0, 0, 1, 0, 1, 5, 1, 0, 0, 0, 0];

/// What a newly made sketch answers to a file.
pub fn adopting(bytes: &[u8]) -> Result<Done, SketchFault> {
    Sketch::new().adopt(bytes).map(Done::Adopted)
}

/// Works the examples of files.
pub fn work(score: &mut Score<'_>) -> io::Result<()> {
    score.compare("two points", adopted(2, 1, 1), adopting(&TWO_POINTS))?;
    score.compare(
        "a braced square",
        adopted(4, 5, 7),
        adopting(&BRACED_SQUARE),
    )?;
    score.compare("nothing", refused(1, 1, 0), adopting(&[]))?;
    score.compare("two bytes", refused(1, 1, 2), adopting(&[1, 0]))?;
    score.compare("version 2", refused(1, 2, 0), adopting(&[2, 0, 0]))?;
    score.compare(
        "length 5 of one byte",
        refused(1, 3, 1),
        adopting(&[1, 0, 5, 2]),
    )?;
    score.compare("one element", refused(1, 4, 3), adopting(&[1, 0, 1, 1]))?;
    score.compare("no count", refused(1, 5, 3), adopting(&[1, 0, 0]))?;
    score.compare("no kinds", refused(1, 5, 4), adopting(&[1, 0, 1, 2]))?;
    let mut tagged = TWO_POINTS;
    tagged[11] = 2;
    score.compare("an entry of tag 2", refused(1, 6, 11), adopting(&tagged))?;
    let mut spare = TWO_POINTS;
    spare[14] = 1;
    score.compare("a leaf's spare byte", refused(1, 6, 11), adopting(&spare))?;
    let mut strange = TWO_POINTS;
    strange[5] = 2;
    score.compare("an element of kind 2", refused(2, 8, 1), adopting(&strange))?;
    let mut renamed = TWO_POINTS;
    renamed[12] = 1;
    score.compare(
        "a leaf of no dimension",
        refused(3, 13, 0),
        adopting(&renamed),
    )
}
