//! platecheck: reads a sketch file from standard input, judges it, and prints one line.
//! `yes ELEMENTS DIMENSIONS ENTRIES`, or `no LAYER NUMBER PLACE`. Everything that decides lies in the libraries.
#![tactic(auto)]

ghost use Rattle.std.specs.Prelude.{◌≤◌, length, IfOk};

use sketch::report::{LONGEST_LINE, report};
use sketch::sketch::Sketch;
use std::io;
use std::io::{Read, Write};

// No file is longer; of longer input only this much is read.
const MOST_INPUT: usize = 4096;

// Fills the buffer from standard input, and answers how many bytes there were. Not by `io::copy` into a vector of so many places: that
// fails where there is more to copy than places, and no clause says that there is not.
fn read_input(rt: &HostRuntime, buffer: &mut [u8]) -> io::Result<usize>
    ensures { IfOk result (λ filled. filled ≤ length buffer.old) }
{
    let mut input = rt.stdin();
    let mut filled = 0;
    for _ in 0..MOST_INPUT {
        let read = input.read(&mut buffer[filled..])?;
        if read == 0 {
            break;
        }
        filled += read;
    }
    Ok(filled)
}

fn main(rt: HostRuntime) -> io::Result<()> {
    let mut buffer = [0; MOST_INPUT];
    let filled = read_input(&rt, &mut buffer)?;
    let outcome = Sketch::new().adopt(&buffer[..filled]);
    let mut line = [0; LONGEST_LINE];
    let length = report(outcome, &mut line).unwrap();
    rt.stdout().write_all(&line[..length])
}
