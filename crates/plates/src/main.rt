//! plates: does one task from beginning to end and says what it did, then works a table of examples
//! and says of each what came out beside what was wanted.
#![tactic(auto)]

mod files;
mod largest;
mod lists;
#[cfg(test)]
mod merges;
mod plans;
mod score;

use anyhow::anyhow;
use file::limits::MOST_BYTES;
use files::BRACED_SQUARE;
use plan::check::check;
use score::Score;
use sketch::counts::Counts;
use sketch::faults::SketchFault;
use sketch::report::{LONGEST_LINE, report};
use sketch::sketch::Sketch;
use std::io;
use std::io::Write;

// What adopt answers.
type Outcome = Result<Counts, SketchFault>;

// Makes a sketch and gives it a plate.
fn make(rt: &HostRuntime) -> anyhow::Result<Sketch> {
    let mut sketch = Sketch::new();
    println!(rt; "A new sketch has {} elements.", sketch.kinds().len())?;
    let Ok(counts) = sketch.adopt(&BRACED_SQUARE) else {
        return Err(anyhow!("the braced square was refused"));
    };
    println!(rt;
        "It took over a braced square of {} elements and {} dimensions.",
        counts.elements, counts.dimensions
    )?;
    println!(rt; "The plan has {} entries.", counts.entries)?;
    Ok(sketch)
}

// Saves the one sketch and has the other adopt the file.
fn pass_on(rt: &HostRuntime, from: &Sketch, to: &mut Sketch) -> io::Result<Outcome> {
    let mut file = [0; MOST_BYTES];
    let length = from.save(&mut file).unwrap();
    let outcome = to.adopt(&file[..length]);
    println!(rt; "It was saved as a file of {length} bytes.")?;
    println!(rt;
        "Another sketch adopted the file and has {} elements now.",
        to.kinds().len()
    )?;
    Ok(outcome)
}

// Prints the report of an outcome.
fn tell(rt: &HostRuntime, outcome: Outcome) -> io::Result<()> {
    let mut line = [0; LONGEST_LINE];
    let length = report(outcome, &mut line).unwrap();
    rt.print("The report says: ")?;
    rt.stdout().write_all(&line[..length])
}

// Makes a sketch, saves it, adopts the file into another, checks that one and reports.
fn from_sketch_to_line(rt: &HostRuntime) -> anyhow::Result<()> {
    let first = make(rt)?;
    let mut second = Sketch::new();
    let outcome = pass_on(rt, &first, &mut second)?;
    let Ok(steps) = check(second.list(), second.plan()) else {
        return Err(anyhow!("the adopted plan was refused"));
    };
    println!(rt; "Its plan was checked: {steps} steps.")?;
    tell(rt, outcome)?;
    Ok(())
}

fn main(rt: HostRuntime) -> anyhow::Result<()> {
    from_sketch_to_line(&rt)?;
    let mut score = Score::new(&rt);
    println!(rt; "Files, layer 1:")?;
    files::work(&mut score)?;
    println!(rt; "Lists, layer 2:")?;
    lists::work(&mut score)?;
    println!(rt; "Plans, layer 3:")?;
    plans::work(&mut score)?;
    println!(rt; "The largest plate, and buffers:")?;
    largest::work(&mut score)?;
    println!(rt; "{score}")?;
    Ok(())
}
