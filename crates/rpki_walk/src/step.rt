//! One step down a chain of certificates, by the sets of the numbers that are held: whether what a certificate claims fits in
//! what the one above it holds, and what it then holds itself (RFC 6487 7.2, RFC 8360 4.2). Holdings and claims are lent.

pub mod below;
pub mod fits;
pub mod lent;

pub use below::{Held, held_below};
pub use fits::claim_fits;
pub use lent::{Claim, Holding};
