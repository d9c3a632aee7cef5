//! The judge: whether one witness is good, by climbing from its object to its locator, over whatever reads a bundle's objects.
//!
//! A walk goes down from the anchors and computes what each chain holds. The judge goes the other way: it reads the one
//! object and the one chain that a witness names, and carries upward the numbers that are needed of each certificate. So
//! it asks for a few signatures a certificate, however much is published.
#![tactic(auto)]

pub mod claims;
pub mod climb;
pub mod counts;
pub mod evidence;
pub mod judging;
pub mod needed;

pub use claims::Claims;
pub use evidence::Evidence;
pub use judging::{Judgement, judge};
pub use needed::Needed;
pub use resources::{asres, chain, ipres};
pub use rpki_rules::laws;
