//! The bounds of a bundle, which definitions, readers and writers name.

/// The least depth of a bundle: a chain may have an anchor at least.
pub const MIN_DEPTH: u8 = 1;

/// The greatest depth of a bundle: the most certificates that a chain may have.
pub const MAX_DEPTH: u8 = 32;
