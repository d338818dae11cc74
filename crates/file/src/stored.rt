//! Values that a file stores, all of a type in the same number of bytes.
ghost use Rattle.std.specs.Prelude.{◌≡◌, ℕ, ◌+◌, ◌*◌, ◌<◌, ◌≤◌, List, ◌∷◌, ◌++◌, length, drop};
ghost use Rattle.std.specs.List.{All, flat_map};
ghost use Rattle.arrayvec.specs.ArrayVec.{array_vec_len};
ghost use Rattle.file.specs.FileLimits.{most_bytes, byte_values};
ghost use Rattle.file.specs.Contents.{largest};
ghost use Rattle.file.specs.Files.{dimension_bytes, entry_bytes, get_dimension, get_entry, get_all};
ghost use Rattle.file.specs.Stored.{StoredLaws, kind_bytes, get_kind};
ghost use Rattle.file.specs.StoredTypes.{kind_laws, dimension_laws, entry_laws};

use crate::encode::FileBytes;
use graph::dimension::Dimension;
use plan::entry::Entry;

// The first byte of a leaf.
pub(crate) const LEAF: u8 = 0;

// The first byte of a step.
pub(crate) const STEP: u8 = 1;

// A value of a table in a file.
pub(crate) trait Stored: Copy + Default {
    ghost WIDTH: { ℕ };

    ghost written: { Self → List ℕ };

    ghost read: { List ℕ → Self };

    // The values that can be written.
    ghost fits: { Self → Type 0 };

    // How many bytes a value takes.
    const WIDTH: usize;

    // Writes the value behind the bytes of a file.
    fn put(self, file: &mut FileBytes)
        requires fits { fits self }
        requires room { array_vec_len file.old + WIDTH ≤ most_bytes }
        ensures { file.new.items ≡ file.old.items ++ written self };

    // The value of these bytes.
    fn get(bytes: &[u8]) -> Self
        requires { length bytes.now ≡ WIDTH }
        ensures { result ≡ read bytes.now };

    ghost laws: { StoredLaws WIDTH written read };
}

impl Stored for u8 {
    ghost WIDTH = { 1 };

    ghost written = { kind_bytes };

    ghost read = { get_kind };

    ghost fits = { λ _. Unit {0} };

    ghost laws = { kind_laws };

    const WIDTH: usize = 1;

    fn put(self, file: &mut FileBytes) {
        file.push(self);
    }

    fn get(bytes: &[u8]) -> u8 {
        bytes[0]
    }
}

impl Stored for Dimension {
    ghost WIDTH = { 3 };

    ghost written = { dimension_bytes };

    ghost read = { get_dimension };

    ghost fits = { λ _. Unit {0} };

    ghost laws = { dimension_laws };

    const WIDTH: usize = 3;

    fn put(self, file: &mut FileBytes) {
        put_bytes(&[self.lower, self.higher, self.grade], file);
    }

    fn get(bytes: &[u8]) -> Dimension {
        Dimension {
            lower: bytes[0],
            higher: bytes[1],
            grade: bytes[2],
        }
    }
}

impl Stored for Entry {
    ghost WIDTH = { 4 };

    ghost written = { entry_bytes };

    ghost read = { get_entry };

    ghost fits = { λ entry. largest entry < byte_values };

    ghost laws = { entry_laws };

    const WIDTH: usize = 4;

    // Each number fits a byte: `fits` says so.
    fn put(self, file: &mut FileBytes) {
        let bytes = match self {
            Entry::Leaf { place } => [LEAF, place as u8, 0, 0],
            Entry::Step {
                first,
                second,
                third,
            } => [STEP, first as u8, second as u8, third as u8],
        };
        put_bytes(&bytes, file);
    }

    fn get(bytes: &[u8]) -> Entry {
        let first = u16::from(bytes[1]);
        if bytes[0] == LEAF {
            Entry::Leaf { place: first }
        } else {
            Entry::Step {
                first,
                second: u16::from(bytes[2]),
                third: u16::from(bytes[3]),
            }
        }
    }
}

// Writes bytes behind those of a file. How much room is asked for differs: here, in `put` and in `put_table`.
fn put_bytes(bytes: &[u8], file: &mut FileBytes)
    requires { array_vec_len file.old + length bytes.now ≤ most_bytes }
    ensures { file.new.items ≡ file.old.items ++ bytes.now }
{
    file.try_extend_from_slice(bytes).unwrap();
}

// Writes the number of values, which fits a byte, and the values.
pub(crate) fn put_table<T: Stored>(values: &[T], file: &mut FileBytes)
    requires count { length values.now < byte_values }
    requires fit { All T.fits values.now }
    requires room { array_vec_len file.old + 1 + T.WIDTH * length values.now ≤ most_bytes }
    ensures items { file.new.items ≡ file.old.items ++ length values.now ∷ flat_map T.written values.now }
    ensures len { array_vec_len file.new ≡ array_vec_len file.old + 1 + T.WIDTH * length values.now }
{
    file.push(values.len() as u8);
    for value in values {
        value.put(file);
    }
}

// Puts the values of these bytes at the front of a table, and leaves the places behind them alone.
pub(crate) fn get_table<T: Stored>(bytes: &[u8], table: &mut [T])
    requires { length bytes.now ≤ T.WIDTH * length table.old }
    ensures { (n : ℕ) → length bytes.now ≡ T.WIDTH * n → table.new ≡ get_all T.read T.WIDTH n bytes.now ++ drop n table.old }
{
    let mut count = 0;
    for value in bytes.chunks_exact(T::WIDTH) {
        table[count] = T::get(value);
        count += 1;
    }
}
