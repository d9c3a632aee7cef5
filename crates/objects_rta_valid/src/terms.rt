//! By what an attestation is judged.

use certs_verify::Digester;
use objects_rta::Time;

/// How and when an attestation is judged: whether UTF8Strings in names are refused, at which moment all that it carries must
/// be valid, and who computes digests.
#[derive(Drop)]
pub(crate) struct Terms<'a, D: Digester> {
    pub(crate) strict: bool,
    pub(crate) moment: Time,
    pub(crate) digester: &'a D,
}
