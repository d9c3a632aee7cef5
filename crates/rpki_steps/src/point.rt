//! Publication points (RFC 9286 6, RFC 6487 5): what stands at an authority's point by what the authority holds ([`held`]), or
//! whatever that is ([`unheld`]); and the same with the octets of the point's files ([`point`], [`point_unheld`]).
//!
//! Each call decides exactly. Of a point that doesn't stand nothing counts.

pub mod files;
pub mod held;
mod kept;
pub mod laws;
pub mod octets;
mod parts;
pub mod standing;
pub mod unheld;

pub use certs_basics::uri::Rsync;
pub use certs_verify::ResourceCert;
pub use files::File;
pub use octets::{point, point_unheld};
pub use rpki_rules::Bundle;
pub use rpki_standing::{Cert, Crl, Digester, Verifier};
pub use standing::Point;
