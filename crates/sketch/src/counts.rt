//! How large a sketch is.

pub use file::tables::Counts;
