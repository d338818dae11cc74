//! How large the tables in a file may be. These are the limits of the version, and may part from what the program holds. Each stands
//! here and, for the promises, in specs/FileLimits.antt.
ghost use Rattle.file.specs.FileLimits.{FileLimitsLaw};

/// The first byte of every file.
pub const VERSION: u8 = 1;
/// A file has at least this many kinds.
pub const FEWEST_KINDS: u8 = 2;
/// A file has at most this many kinds.
pub const MOST_KINDS: u8 = 64;
/// A file has at most this many dimensions.
pub const MOST_FILE_DIMENSIONS: u8 = 125;
/// A file has at least this many entries.
pub const FEWEST_FILE_ENTRIES: u8 = 1;
/// A file has at most this many entries.
pub const MOST_FILE_ENTRIES: u8 = 187;
/// How many values a byte has; each number in an entry is below this.
pub const BYTE_VALUES: usize = 256;
/// The largest file: version, length, three counts, 64 kinds, 125 dimensions of 3 bytes and 187 entries of 4.
pub const MOST_BYTES: usize = 1193;

/// The constants are the numbers that the promises speak of.
pub fn file_limits_stand()
    ensures { FileLimitsLaw }
{}
