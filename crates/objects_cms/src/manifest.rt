//! The content of manifests: the files of a publication point, each with its hash (RFC 9286 4.2).
//!
//! A [`ManifestContent`] keeps the octets of its file list as they stood; [`FileListIter`] lends the files from them, one
//! by one, and copies nothing.
//!
//! What differs from the Rust crate: files are lent and not shared; what takes memory is given an allocator and answers a
//! `Result`; `is_stale` is given the moment that it asks about, and `verify` a
//! [`Digester`](certs_key::Digester); `len` counts the files, in time linear in the list.

pub mod content;
pub mod file;
pub mod hash;
pub mod list;

pub use content::ManifestContent;
pub use file::FileAndHash;
pub use hash::{ManifestHash, ManifestHashMismatch};
pub use list::{FileList, FileListIter};
