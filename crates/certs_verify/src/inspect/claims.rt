//! Tests of resources (RFC 8209 3.1.3.5, 3.1.3.6).

ghost use Rattle.std.specs.Prelude.{◌≡◌, ◌≢◌, ◌↔◌, IsTrue};
ghost use Rattle.certs_verify.specs.resources_chain.declared.choice.ResourcesChoice.TheVariants.{Missing, Inherit};

use certs_cert::Cert;

/// Whether there are no IP resources.
pub(crate) fn has_no_addresses(cert: &Cert) -> bool
    ensures { IsTrue result ↔ ((cert.now.tbs.v4 ≡ Missing) × (cert.now.tbs.v6 ≡ Missing)) }
{
    let v4 = cert.tbs().v4_resources().is_missing();
    let v6 = cert.tbs().v6_resources().is_missing();
    v4 && v6
}

/// Whether there are AS resources.
pub(crate) fn has_numbers(cert: &Cert) -> bool
    ensures { IsTrue result ↔ (cert.now.tbs.asn ≢ Missing) }
{
    cert.tbs().as_resources().is_present()
}

/// Whether the AS resources aren't the issuer's.
pub(crate) fn has_own_numbers(cert: &Cert) -> bool
    ensures { IsTrue result ↔ (cert.now.tbs.asn ≢ Inherit) }
{
    !cert.tbs().as_resources().is_inherited()
}
