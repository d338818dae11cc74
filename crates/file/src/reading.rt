//! Reading the tables of a file.
ghost use Rattle.std.specs.Prelude.{◌≡◌, None};
ghost use Rattle.graph.specs.Rows.{first_refusal};
ghost use Rattle.file.specs.Contents.{stored};
ghost use Rattle.file.specs.Files.{file_rows, held};

use crate::layout::{KINDS_AT, Layout, byte_at};
use crate::stored::get_table;
use crate::tables::{Counts, Tables};
use graph::dimension::Dimension;
use graph::limits::{MOST_DIMENSIONS, MOST_ELEMENTS, MOST_ENTRIES};
use plan::entry::Entry;

impl Layout<'_> {
    // What a file that no row refuses holds.
    pub(crate) fn tables(self) -> Tables
        requires { first_refusal (file_rows self.bytes.now) ≡ None }
        ensures { result ≡ stored (held self.entry.bytes.now) }
    {
        let mut kinds = [0; MOST_ELEMENTS];
        let mut dimensions = [Dimension::plain(0, 0); MOST_DIMENSIONS];
        let mut plan = [Entry::Leaf { place: 0 }; MOST_ENTRIES];
        get_table(&self.bytes[KINDS_AT + 1..self.dimensions], &mut kinds);
        get_table(
            &self.bytes[self.dimensions + 1..self.entries],
            &mut dimensions,
        );
        get_table(&self.bytes[self.entries + 1..], &mut plan);
        let counts = Counts {
            elements: usize::from(byte_at(self.bytes, KINDS_AT)),
            dimensions: usize::from(byte_at(self.bytes, self.dimensions)),
            entries: usize::from(byte_at(self.bytes, self.entries)),
        };
        Tables {
            kinds,
            dimensions,
            plan,
            counts,
        }
    }
}
