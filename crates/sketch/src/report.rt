//! What a run came to, in one line.
ghost use Rattle.std.specs.Prelude.{◌≡◌, ◌≤◌, true, length, is_ok, IfOk};
ghost use Rattle.graph.specs.Rows.{told};
ghost use Rattle.sketch.specs.SketchFaults.{sketch_refusal};
ghost use Rattle.sketch.specs.Buffers.{put_answer, put_after};
ghost use Rattle.sketch.specs.Reports.{line, line_of, longest_line, ReportExamples};

use crate::buffer::put;
use crate::counts::Counts;
use crate::faults::SketchFault;
use arrayvec::ArrayString;
use graph::refusal::Refusal;
use itoa::Buffer;

/// The bytes of the longest line: a word of four, three numbers of at most twenty digits, two spaces and a line feed.
pub const LONGEST_LINE: usize = 67;

/// Writes the outcome at the start of the buffer that the caller lends, as one line: `yes ELEMENTS DIMENSIONS ENTRIES`, or
/// `no LAYER NUMBER PLACE` of the refusal, in decimal.
/// A buffer that is too short for the line is refused with the bytes needed, and stays as it was; one of `LONGEST_LINE` places never is.
/// The buffer is lent, as with `save`.
pub fn report(outcome: Result<Counts, SketchFault>, buffer: &mut [u8]) -> Result<usize, SketchFault>
    ensures answer { told sketch_refusal result ≡ put_answer (line (told sketch_refusal outcome)) buffer.old }
    ensures within { IfOk result (λ n. n ≤ length buffer.old) }
    ensures after { buffer.new ≡ put_after (line (told sketch_refusal outcome)) buffer.old }
    ensures room { longest_line ≤ length buffer.old → is_ok result ≡ true }
{
    put(line(outcome).as_str().as_bytes(), buffer)
}

// The line of an outcome.
fn line(outcome: Result<Counts, SketchFault>) -> ArrayString<LONGEST_LINE>
    ensures { result.bytes ≡ line (told sketch_refusal outcome) }
{
    match outcome {
        Ok(counts) => line_of("yes ", (counts.elements, counts.dimensions, counts.entries)),
        Err(fault) => {
            let refusal = Refusal::from(fault);
            let layer = usize::from(refusal.layer);
            let number = usize::from(refusal.number);
            line_of("no ", (layer, number, refusal.place))
        }
    }
}

// The line of a word and three numbers, which are either counts or a refusal: the line is the same. Not by `write!`: it says what it
// wrote, but not that it succeeds where there is room.
fn line_of(word: &str, numbers: (usize, usize, usize)) -> ArrayString<LONGEST_LINE>
    requires { length word.now ≤ 4 }
    ensures { result.bytes ≡ line_of word.now numbers }
{
    let (first, second, third) = numbers;
    let mut digits = Buffer::new();
    let mut line = ArrayString::new();
    line.push_str(word);
    line.push_str(digits.format(first));
    line.push(' ');
    line.push_str(digits.format(second));
    line.push(' ');
    line.push_str(digits.format(third));
    line.push('\n');
    line
}

/// What two outcomes are told by.
pub fn report_examples_stand()
    ensures { ReportExamples }
{}
