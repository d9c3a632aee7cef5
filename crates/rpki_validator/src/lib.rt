//! The validator: what a walk reports of a bundle, what a judge says of one witness, what some URIs can reach and by which
//! chains, how many chains go on below each authority, what stands at a publication point ([`point`], [`point_unheld`]), why
//! things are refused ([`diagnose`]), and what a run prints.
#![tactic(auto)]

pub mod bundles;
pub mod laws;
pub mod programs;
pub mod runs;
pub mod streams;

pub use bundles::{cost, diagnose, judge, judge_by, naming_chains, reach, walk, walk_lines};
pub use objects_payload::counted::Counted;
pub use rpki_bundle::uri::lookup_key;
pub use rpki_bundle::{Bundle, BundleError, Digester, Locator, Object, Time, Verdict, Version};
pub use rpki_rules::lines::render;
pub use rpki_rules::refusal::word_of;
pub use rpki_rules::{Cause, Customer, Origin, Path, Refusal, Report, Witness, reason};
pub use rpki_steps::point::{File, Point, point, point_unheld};
pub use rpki_steps::{
    BundleReader, BundleRepository, Cost, Count, Index, Judgement, Reach, ResourceSet,
    TableVerifier,
};
pub use runs::{RunError, read_bundle, run};
pub use streams::{WriteFault, write_all};
