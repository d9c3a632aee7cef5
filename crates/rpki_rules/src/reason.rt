//! Why something is refused: the first of its tests that isn't passed, with what it speaks of.
//!
//! A locator is refused by its text, by where it leads to, or by a test of its anchor ([`LocatorReason`]); a publication
//! point by its manifest, its files or its revocation list ([`PointReason`]); a file of a point that stands by what it has
//! to be ([`FileReason`]). Tests are asked in a fixed order, and a reason is the first that fails, with all before it passed.

pub mod certs;
pub mod diagnosis;
pub mod files;
pub mod laws;
pub mod locators;
pub mod points;

pub use certs::{CertTest, ContentTest};
pub use certs_x509::forms::VerificationTest;
pub use certs_x509::{InspectionError, Overclaimed};
pub use diagnosis::{Diagnosis, Reason};
pub use files::{CerTest, FileReason, ObjectTest, RevocationTest};
pub use locators::{AnchorTest, LocatorReason};
pub use points::{ListTest, ListedFile, ManifestTest, PointReason};
