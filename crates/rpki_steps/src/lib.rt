//! What the walk, the reach and the judge ask of a bundle, answered of its objects: what a locator leads to (RFC 8630 3), what
//! stands at an authority's publication point (RFC 9286 6), what a file there is (RFC 6481 2.2), and what locators and
//! authorities name. [`BundleRepository`] answers all of it.
#![tactic(auto)]

pub mod anchor;
pub mod authority;
pub mod cert;
pub mod file;
pub mod issued;
pub mod manifest;
pub mod object;
pub mod point;
pub mod repository;
pub mod whole;

pub use authority::Authority;
pub use repository::BundleRepository;
pub use rpki_judge::{Judgement, judge};
pub use rpki_standing::reader::BundleReader;
pub use rpki_standing::table::{Index, TableVerifier};
pub use rpki_walk::cost::{Cost, Count, cost};
pub use rpki_walk::reach::whole::reach;
pub use rpki_walk::reach::{Reach, ResourceSet, naming_chains};
pub use rpki_walk::{diagnose, walk, walk_lines};
