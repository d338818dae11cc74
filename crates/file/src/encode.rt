//! Writing a file.
ghost use Rattle.std.specs.Prelude.{◌≡◌, Ok};
ghost use Rattle.file.specs.Files.{write, read};
ghost use Rattle.file.specs.Parts.{parts_contents};

use crate::limits::{MOST_BYTES, VERSION};
use crate::parts::FileParts;
use crate::stored::{Stored, put_table};
use arrayvec::ArrayVec;
use graph::dimension::Dimension;
use graph::list::PlateList;
use plan::entry::Entry;

/// The bytes of a file.
pub type FileBytes = ArrayVec<u8, MOST_BYTES>;

/// The file of a list and its plan.
pub fn encode(parts: FileParts<'_>) -> FileBytes
    ensures answer { result.items ≡ write (parts_contents parts.entry) }
    ensures inverse { read result.items ≡ Ok (parts_contents parts.entry) }
{
    let PlateList { kinds, dimensions } = parts.list;
    // Three counts, and the tables.
    let behind = 3
        + kinds.len()
        + Dimension::WIDTH * dimensions.len()
        + Entry::WIDTH * parts.plan.len();
    let mut file = FileBytes::new();
    file.push(VERSION);
    // This fits two bytes, as no file is longer.
    let [high, low] = (behind as u16).to_be_bytes();
    file.push(high);
    file.push(low);
    put_table(kinds, &mut file);
    put_table(dimensions, &mut file);
    put_table(parts.plan, &mut file);
    file
}
