//! Where the parts of a file stand.
ghost use Rattle.std.specs.Prelude.{◌≡◌};
ghost use Rattle.file.specs.Files.{byte, dimensions_at, entries_at, end_at};

use crate::stored::Stored;
use graph::dimension::Dimension;
use plan::entry::Entry;

// Where the count of kinds stands, behind the version and the length.
pub(crate) const KINDS_AT: usize = 3;

// The byte at a place, 0 past the end: a count that is not there counts nothing.
pub(crate) fn byte_at(bytes: &[u8], at: usize) -> u8
    ensures { result ≡ byte bytes.now at }
{
    bytes.get(at).copied().unwrap_or(0)
}

// The bytes of a file, where its counts of dimensions and of entries stand, and where it should end.
#[derive(Clone, Copy)]
pub(crate) struct Layout<'a> {
    pub(crate) bytes: &'a [u8],
    pub(crate) dimensions: usize,
    pub(crate) entries: usize,
    pub(crate) end: usize,
    ghost laid: { (dimensions ≡ dimensions_at bytes.now) × (entries ≡ entries_at bytes.now) × (end ≡ end_at bytes.now) },
}

impl<'a> Layout<'a> {
    // By the counts of these bytes.
    pub(crate) fn of(bytes: &'a [u8]) -> Layout<'a>
        ensures { result.bytes.now ≡ bytes.now }
    {
        let dimensions = KINDS_AT + 1 + usize::from(byte_at(bytes, KINDS_AT));
        let entries = dimensions + 1 + Dimension::WIDTH * usize::from(byte_at(bytes, dimensions));
        let end = entries + 1 + Entry::WIDTH * usize::from(byte_at(bytes, entries));
        Layout {
            bytes,
            dimensions,
            entries,
            end,
        }
    }
}
