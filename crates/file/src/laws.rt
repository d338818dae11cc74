//! What holds of every file.
ghost use Rattle.file.specs.FileLaws.{FileLaw};

/// Contents that a file can hold are read back from their file, and what is read from a file was written so.
pub fn file_stands()
    ensures { FileLaw }
{}
