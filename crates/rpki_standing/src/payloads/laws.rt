//! Laws of file names: the contracts of functions that do nothing.

ghost use Rattle.rpki_standing.specs.Names.{OneExtension};

/// A file's name has one extension at most.
pub fn one_extension()
    ensures { OneExtension }
{}
