//! Which files are refused.
ghost use Rattle.std.specs.Prelude.{◌≡◌, false, length};
ghost use Rattle.std.specs.Range.{range_inclusive_start, range_inclusive_end, range_inclusive_exhausted};
ghost use Rattle.graph.specs.Rows.{lowest, row_at, row_refusal, first_refusal, answered, told};
ghost use Rattle.file.specs.Files.{byte, entries_at, end_at, count_at, bad_entry, count_row, wrong_count, wrong_entry, file_rows};
ghost use Rattle.file.specs.FileFaults.{file_refusal};

use crate::faults::FileFault;
use crate::layout::{KINDS_AT, Layout, byte_at};
use crate::limits::{
    FEWEST_FILE_ENTRIES, FEWEST_KINDS, MOST_FILE_DIMENSIONS, MOST_FILE_ENTRIES, MOST_KINDS, VERSION,
};
use crate::stored::{LEAF, STEP, Stored};
use plan::entry::Entry;
use std::ops::RangeInclusive;

// An unknown tag, or a leaf whose spare bytes are not 0.
fn is_bad_entry(entry: &[u8]) -> bool
    requires { length entry.now ≡ 4 }
    ensures { result ≡ bad_entry entry.now }
{
    !matches!(entry, [LEAF, _, 0, 0] | [STEP, ..])
}

impl Layout<'_> {
    // A count that the file has is within its range.
    fn judge_count(self, at: usize, allowed: RangeInclusive<u8>) -> Result<(), FileFault>
        requires { range_inclusive_exhausted allowed ≡ false }
        ensures { told file_refusal result ≡ answered (row_refusal (count_row self.entry.bytes.now at (range_inclusive_start allowed) (range_inclusive_end allowed))) tt }
    {
        match self.bytes.get(at) {
            Some(count) if !allowed.contains(count) => Err(FileFault::WrongCount { byte: at }),
            _ => Ok(()),
        }
    }

    // Each count that the file has is within its range.
    fn judge_counts(self) -> Result<(), FileFault>
        ensures { told file_refusal result ≡ answered (row_refusal (row_at 1 4 3 (wrong_count self.entry.bytes.now) (count_at self.entry.bytes.now))) tt }
    {
        self.judge_count(KINDS_AT, FEWEST_KINDS..=MOST_KINDS)?;
        self.judge_count(self.dimensions, 0..=MOST_FILE_DIMENSIONS)?;
        self.judge_count(self.entries, FEWEST_FILE_ENTRIES..=MOST_FILE_ENTRIES)
    }

    // The first entry that is bad.
    fn first_bad_entry(self) -> Option<usize>
        requires { end_at self.bytes.now ≡ length self.bytes.now }
        ensures { result ≡ lowest (byte self.entry.bytes.now (entries_at self.entry.bytes.now)) (wrong_entry self.entry.bytes.now) }
    {
        self.bytes[self.entries + 1..]
            .chunks_exact(Entry::WIDTH)
            .position(|entry| is_bad_entry(entry))
    }

    // The first row that refuses the file, if any does.
    pub(crate) fn judge(self) -> Result<(), FileFault>
        ensures { told file_refusal result ≡ answered (first_refusal (file_rows self.entry.bytes.now)) tt }
    {
        let [version, high, low, behind @ ..] = self.bytes else {
            return Err(FileFault::TooShort {
                bytes: self.bytes.len(),
            });
        };
        if *version != VERSION {
            return Err(FileFault::UnknownVersion);
        }
        if usize::from(u16::from_be_bytes([*high, *low])) != behind.len() {
            return Err(FileFault::WrongLength);
        }
        self.judge_counts()?;
        if self.end != self.bytes.len() {
            return Err(FileFault::WrongEnd {
                byte: self.end.min(self.bytes.len()),
            });
        }
        if let Some(entry) = self.first_bad_entry() {
            return Err(FileFault::WrongEntry {
                byte: self.entries + 1 + Entry::WIDTH * entry,
            });
        }
        Ok(())
    }
}
