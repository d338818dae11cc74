//! Why a file is refused.
ghost use Rattle.std.specs.Prelude.{◌≡◌};
ghost use Rattle.file.specs.FileFaults.{file_refusal};

use graph::refusal::Refusal;

/// What is wrong with a file.
#[derive(Clone, Copy, PartialEq, Eq, Debug)]
pub enum FileFault {
    /// Too few bytes for a version and a length.
    TooShort { bytes: usize },
    /// The version is not 1.
    UnknownVersion,
    /// The length is not that of the bytes behind it.
    WrongLength,
    /// A count is out of its range.
    WrongCount { byte: usize },
    /// Bytes are missing or left over, from this one on.
    WrongEnd { byte: usize },
    /// An entry, from this byte on, has an unknown tag, or a leaf has a spare byte that is not 0.
    WrongEntry { byte: usize },
}

impl From<FileFault> for Refusal {
    ghost from_gives = { λ fault told. told ≡ file_refusal fault };

    fn from(fault: FileFault) -> Refusal {
        let (number, place) = match fault {
            FileFault::TooShort { bytes } => (1, bytes),
            FileFault::UnknownVersion => (2, 0),
            FileFault::WrongLength => (3, 1),
            FileFault::WrongCount { byte } => (4, byte),
            FileFault::WrongEnd { byte } => (5, byte),
            FileFault::WrongEntry { byte } => (6, byte),
        };
        Refusal {
            layer: 1,
            number,
            place,
        }
    }
}
