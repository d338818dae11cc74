//! Making, reading, saving and replacing a sketch.
ghost use Rattle.std.specs.Prelude.{◌≡◌, ◌≤◌, true, length, is_ok, IfOk, OnErr, OnOk};
ghost use Rattle.graph.specs.Rows.{told};
ghost use Rattle.file.specs.Contents.{contents, stored};
ghost use Rattle.file.specs.FileLimits.{most_bytes};
ghost use Rattle.sketch.specs.SketchFaults.{sketch_refusal};
ghost use Rattle.sketch.specs.Buffers.{put_answer, put_after};
ghost use Rattle.sketch.specs.Keeping.{Accepted};
ghost use Rattle.sketch.specs.Sketches.{first_contents, sketch_file, adopt_answer, adopt_after, Adopting, OneFile};

use crate::buffer::put;
use crate::counts::Counts;
use crate::faults::SketchFault;
use crate::sketch::Sketch;
use file::decode::decode;
use file::encode::encode;
use file::parts::FileParts;
use file::tables::Tables;
use graph::dimension::Dimension;
use graph::limits::{MOST_DIMENSIONS, MOST_ELEMENTS, MOST_ENTRIES};
use graph::list::PlateList;
use plan::check::check;
use plan::entry::Entry;

impl Sketch {
    /// Two points with a dimension of grade 0 between them, and a plan of one leaf.
    pub fn new() -> Sketch
        ensures { result.tables ≡ stored first_contents }
    {
        let mut dimensions = [Dimension::plain(0, 0); MOST_DIMENSIONS];
        dimensions[0].higher = 1;
        let tables = Tables {
            kinds: [0; MOST_ELEMENTS],
            dimensions,
            plan: [Entry::Leaf { place: 0 }; MOST_ENTRIES],
            counts: Counts {
                elements: 2,
                dimensions: 1,
                entries: 1,
            },
        };
        Sketch { tables }
    }

    /// The kind of each element, a byte as handed in: a table of `Kind` would be a second one.
    pub fn kinds(&self) -> &[u8]
        ensures { result.now ≡ (contents self.now.tables).kinds }
    {
        self.list().kinds
    }

    /// The dimensions in their order.
    pub fn dimensions(&self) -> &[Dimension]
        ensures { result.now ≡ (contents self.now.tables).dimensions }
    {
        self.list().dimensions
    }

    /// Both: the sketch's list.
    pub fn list(&self) -> PlateList<'_>
        ensures kinds { result.kinds.now ≡ (contents self.now.tables).kinds }
        ensures dimensions { result.dimensions.now ≡ (contents self.now.tables).dimensions }
    {
        self.tables.list()
    }

    /// The entries of the plan in their order: a plan that check accepts for the sketch's list.
    pub fn plan(&self) -> &[Entry]
        ensures value { result.now ≡ (contents self.now.tables).plan }
        ensures accepted { Accepted (contents self.now.tables) }
    {
        self.tables.plan()
    }

    /// Reads a file and puts its list and plan in place of the sketch's, if check accepts them. Answers how many elements,
    /// dimensions and entries there are. On refusal the sketch stays as it was.
    pub fn adopt(&mut self, bytes: &[u8]) -> Result<Counts, SketchFault>
        ensures answer { told sketch_refusal result ≡ adopt_answer bytes.now }
        ensures after { self.new.tables ≡ adopt_after bytes.now self.old.tables }
        ensures refused { OnErr result (self.new ≡ self.old) }
        ensures refuses { Adopting bytes.now (told sketch_refusal result) }
        ensures file { OnOk result (sketch_file self.new ≡ bytes.now) }
    {
        let tables = decode(bytes)?;
        check(tables.list(), tables.plan())?;
        self.tables = tables;
        Ok(tables.counts)
    }

    /// Writes the sketch's file at the start of the buffer that the caller lends, leaves the rest, and answers the file's length. A
    /// buffer that is too short is refused with the bytes needed, and stays as it was; one of `MOST_BYTES` places never is.
    /// The buffer is lent and not handed out: of it refusal 26 and the clauses speak.
    pub fn save(&self, buffer: &mut [u8]) -> Result<usize, SketchFault>
        ensures answer { told sketch_refusal result ≡ put_answer (sketch_file self.now) buffer.old }
        ensures within { IfOk result (λ n. n ≤ length buffer.old) }
        ensures after { buffer.new ≡ put_after (sketch_file self.now) buffer.old }
        ensures room { most_bytes ≤ length buffer.old → is_ok result ≡ true }
        ensures file { OneFile (contents self.now.tables) }
    {
        let parts = FileParts {
            list: self.list(),
            plan: self.plan(),
        };
        put(encode(parts).as_slice(), buffer)
    }
}
