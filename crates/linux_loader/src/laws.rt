//! Laws over the definitions. They hold for all files, and no code runs.

ghost use Rattle.linux_loader.specs.Laws.{FlatFilesLoad};

/// A flat file without a fault, whose records stand right behind its data and whose entry has 24 bits: Linux loads it,
/// and leaves its image.
pub fn flat_files_load()
    ensures { FlatFilesLoad }
{}
