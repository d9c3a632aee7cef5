//! Tests of what the key is for (RFC 6487 4.8.1, 4.8.4, 4.8.5, RFC 8209 3.1.3).

ghost use Rattle.std.specs.Prelude.{◌≡◌, ◌≢◌, ◌↔◌, IsTrue, None};
ghost use Rattle.certs_verify.specs.certs_basics.Identifiers.{bgpsec_router};
ghost use Rattle.certs_verify.specs.certs_basics.Lists.{Mem};
ghost use Rattle.certs_cert.specs.certs_extension.Profiles.{purposes, usage_for};

use certs_cert::{Cert, KeyUsage, Role};

/// Whether there are basic constraints.
pub(crate) fn has_constraints(cert: &Cert) -> bool
    ensures { IsTrue result ↔ (cert.now.tbs.basic_ca ≢ None) }
{
    cert.tbs().basic_ca().is_some()
}

/// Whether there are extended key usages.
pub(crate) fn has_purposes(cert: &Cert) -> bool
    ensures { IsTrue result ↔ (cert.now.tbs.extended_key_usage ≢ None) }
{
    cert.tbs().extended_key_usage().is_some()
}

/// Whether id-kp-bgpsec-router is among the extended key usages (RFC 8209 3.1.3.2).
pub(crate) fn is_for_routers(cert: &Cert) -> bool
    ensures { IsTrue result ↔ Mem (purposes cert.now.tbs.extended_key_usage) bgpsec_router }
{
    match cert.tbs().extended_key_usage() {
        Some(usage) => usage.inspect_router().is_ok(),
        None => false,
    }
}

// What keys are for.
fn wanted_usage(role: Role) -> KeyUsage
    ensures { result ≡ usage_for role }
{
    match role {
        Role::Ta => KeyUsage::Ca,
        Role::Ca => KeyUsage::Ca,
        Role::Ee => KeyUsage::Ee,
        Role::DetachedEe => KeyUsage::Ee,
        Role::Router => KeyUsage::Ee,
    }
}

/// Whether the key is for what is wanted (RFC 6487 4.8.4).
pub(crate) fn has_usage(cert: &Cert, role: Role) -> bool
    ensures { IsTrue result ↔ (cert.now.tbs.key_usage ≡ usage_for role) }
{
    cert.tbs().key_usage() == wanted_usage(role)
}
