//! The largest plate, 64 points each joined to the two before it, and buffers that are just long enough or too short.
use crate::files::adopting;
use crate::score::{Done, Score, adopted, refused};
use file::limits::MOST_BYTES;
use graph::refusal::Refusal;
use sketch::faults::SketchFault;
use sketch::sketch::Sketch;
use std::io;

/// The file of that plate, byte by byte.
pub fn largest_file() -> [u8; MOST_BYTES] {
    let mut file = [0; MOST_BYTES];
    // Version 1, 1190 bytes, 64 points.
    file[..4].copy_from_slice(&[1, 4, 166, 64]);
    // One dimension joins the first two points, and two join each later point to the two before it.
    file[68] = 125;
    file[70] = 1;
    let (dimensions, _) = file[72..444].as_chunks_mut::<3>();
    let (joins, _) = dimensions.as_chunks_mut::<2>();
    // There are 62 later points, so their numbers fit a byte.
    for (i, join) in joins.iter_mut().enumerate() {
        let near = i as u8;
        *join = [[near, near + 2, 0], [near + 1, near + 2, 0]];
    }
    // A leaf of the first dimension, and for each later point its two leaves and the step that takes them in.
    file[444] = 187;
    let (entries, _) = file[449..].as_chunks_mut::<4>();
    let (additions, _) = entries.as_chunks_mut::<3>();
    for (i, addition) in additions.iter_mut().enumerate() {
        let leaf = 2 * i as u8 + 1;
        let last = 3 * i as u8;
        *addition = [
            [0, leaf, 0, 0],
            [0, leaf + 1, 0, 0],
            [1, last, last + 1, last + 2],
        ];
    }
    file
}

// So many bytes were written.
fn written(bytes: usize) -> Result<Done, Refusal> {
    Ok(Done::Written(bytes))
}

// Adopts a file and saves it again.
fn saved(bytes: &[u8], buffer: &mut [u8]) -> Result<Done, SketchFault> {
    let mut sketch = Sketch::new();
    sketch.adopt(bytes)?;
    sketch.save(buffer).map(Done::Written)
}

/// Works the largest plate, and buffers of several lengths.
pub fn work(score: &mut Score<'_>) -> io::Result<()> {
    let file = largest_file();
    score.compare("64 elements", adopted(64, 125, 187), adopting(&file))?;
    let mut again = [0; MOST_BYTES];
    score.compare(
        "its file saved again",
        written(1193),
        saved(&file, &mut again),
    )?;
    // The line printed has a number of bytes, so a difference is told as none; and so below.
    let same = if again == file { 1193 } else { 0 };
    score.compare("the same bytes", written(1193), written(same))?;
    let mut short = [7; 1192];
    score.compare(
        "a buffer one too short",
        refused(4, 26, 1193),
        saved(&file, &mut short),
    )?;
    let kept = if short == [7; 1192] { 1192 } else { 0 };
    score.compare("the bytes left as they were", written(1192), written(kept))?;
    let mut fourteen = [0; 14];
    score.compare(
        "a new sketch into 14 bytes",
        refused(4, 26, 15),
        Sketch::new().save(&mut fourteen).map(Done::Written),
    )
}
