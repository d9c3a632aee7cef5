//! What programs over a run have in common: what they say of arguments that ask for nothing, or can't be had.

use crate::runs::RunError;
use std::io::{self, ErrorKind, Write};

/// Says how the program is used.
pub fn tell_usage<F: Write>(usage: &str, faults: &mut F) {
    // What can't be written is lost; the status says that there was something.
    let _ = faults.write_all(usage.as_bytes());
}

/// Says what is wrong with arguments that can't be had: there is no memory for them, or one isn't UTF-8, and then how the
/// program is used.
pub fn tell_unread<F: Write>(error: &io::Error, usage: &str, faults: &mut F) {
    if error.kind() == ErrorKind::OutOfMemory {
        // What can't be written is lost; the status says that there was something.
        let _ = writeln!(faults, "{}", RunError::Memory);
    } else {
        tell_usage(usage, faults);
    }
}
