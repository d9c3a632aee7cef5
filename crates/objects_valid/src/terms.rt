//! By what signed objects are validated.

use certs_verify::{Digester, Verifier};
use certs_x509::errors::Time;

/// How, when and by whom a signed object is validated: whether UTF8Strings in names are refused, at which moment its
/// certificate must be valid, who computes digests, and who says which signatures are good.
#[derive(Drop)]
pub(crate) struct Terms<'a, D: Digester, V: Verifier> {
    pub strict: bool,
    pub moment: Time,
    pub digester: &'a D,
    pub verifier: &'a mut V,
}
