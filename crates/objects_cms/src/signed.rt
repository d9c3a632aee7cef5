//! Signed objects (RFC 5652, RFC 6488): their content, the certificate they carry, who signed, what was signed of the
//! attributes, and by which algorithm.

mod carried;
pub mod content;
mod frame;
mod kept;
pub mod object;
pub mod signer;

pub use certs_cert::{Cert, Digester, Verifier};
pub use object::SignedObject;
pub use signer::SignerInfo;
