//! The content of a checklist: the resources that are stated, and the files that are checked (RFC 9323 4).
//!
//! What differs from the Rust crate: names and hashes of files are lent and not shared; what takes memory is given an
//! allocator and answers a `Result`.

pub mod content;
mod entry;
pub mod file;

pub use content::ResourceSignedChecklist;
pub use file::{CheckListIter, FileNameAndHash};
