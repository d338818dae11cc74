//! What came out, held beside what was wanted.
use graph::refusal::Refusal;
use sketch::counts::Counts;
use std::{fmt, io};

/// What a call did.
#[derive(Clone, Copy, PartialEq, Eq, Debug)]
pub enum Done {
    /// A plan was accepted: how many steps it has.
    Steps(usize),
    /// A file was adopted: how much it holds.
    Adopted(Counts),
    /// Bytes were written: how many.
    Written(usize),
}

impl fmt::Display for Done {
    fn fmt<W: fmt::Write>(&self, f: &mut fmt::Formatter<W>) -> fmt::Result {
        match self {
            Done::Steps(steps) => write!(f, "accepted, steps {steps}"),
            Done::Adopted(counts) => write!(f, "yes {counts}"),
            Done::Written(bytes) => write!(f, "{bytes} bytes"),
        }
    }
}

// What a call answered, as it is printed.
#[derive(Clone, Copy)]
struct Answer(Result<Done, Refusal>);

impl fmt::Display for Answer {
    fn fmt<W: fmt::Write>(&self, f: &mut fmt::Formatter<W>) -> fmt::Result {
        match self.0 {
            Ok(done) => write!(f, "{done}"),
            Err(refusal) => write!(f, "no {refusal}"),
        }
    }
}

/// A file of so many elements, dimensions and entries was adopted.
pub fn adopted(elements: usize, dimensions: usize, entries: usize) -> Result<Done, Refusal> {
    Ok(Done::Adopted(Counts {
        elements,
        dimensions,
        entries,
    }))
}

/// The refusal of a layer by a number at a place.
pub fn refused<T>(layer: u8, number: u8, place: usize) -> Result<T, Refusal> {
    Err(Refusal {
        layer,
        number,
        place,
    })
}

/// How many examples were worked, and how many of them differ from what was wanted.
#[derive(Drop)]
pub struct Score<'a> {
    rt: &'a HostRuntime,
    worked: u32,
    differ: u32,
}

impl fmt::Display for Score<'_> {
    fn fmt<W: fmt::Write>(&self, f: &mut fmt::Formatter<W>) -> fmt::Result {
        write!(f, "{} worked, {} differ", self.worked, self.differ)
    }
}

impl<'a> Score<'a> {
    /// No example yet; what is said is printed by the runtime.
    pub fn new(rt: &'a HostRuntime) -> Score<'a> {
        Score {
            rt,
            worked: 0,
            differ: 0,
        }
    }

    /// Says what came out, beside what was wanted.
    pub fn compare<F: Into<Refusal>>(
        &mut self,
        words: &str,
        wanted: Result<Done, Refusal>,
        got: Result<Done, F>,
    ) -> io::Result<()> {
        let got = got.map_err(|fault| fault.into());
        self.worked = self.worked.saturating_add(1);
        if got != wanted {
            self.differ = self.differ.saturating_add(1);
        }
        println!(self.rt; "  {words}: wanted {}, got {}", Answer(wanted), Answer(got))
    }
}
