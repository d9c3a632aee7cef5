//! Tests of the URIs that a certificate has (RFC 6487 4.8.6 to 4.8.8, RFC 8209 3.1.3.4).

ghost use Rattle.std.specs.Prelude.{◌≡◌, ◌≢◌, ◌↔◌, IsTrue, None};
ghost use Rattle.certs_cert.specs.certs_basics.Paths.{LiesIn};
ghost use Rattle.certs_cert.specs.certs_extension.Cert.{no_access};
ghost use Rattle.certs_cert.specs.certs_extension.Profiles.{LiesThere};

use certs_cert::{Cert, paths};

/// Whether there is the URI of a revocation list.
pub(crate) fn has_crl(cert: &Cert) -> bool
    ensures { IsTrue result ↔ (cert.now.tbs.crl_uri ≢ None) }
{
    cert.tbs().crl_uri().is_some()
}

/// Whether there is the URI of the issuer's certificate.
pub(crate) fn has_issuer_uri(cert: &Cert) -> bool
    ensures { IsTrue result ↔ (cert.now.tbs.ca_issuer ≢ None) }
{
    cert.tbs().ca_issuer().is_some()
}

/// Whether there is the URI of a repository.
pub(crate) fn has_repository(cert: &Cert) -> bool
    ensures { IsTrue result ↔ (cert.now.tbs.access.repository ≢ None) }
{
    cert.tbs().ca_repository().is_some()
}

/// Whether there is the URI of a manifest.
pub(crate) fn has_manifest(cert: &Cert) -> bool
    ensures { IsTrue result ↔ (cert.now.tbs.access.manifest ≢ None) }
{
    cert.tbs().rpki_manifest().is_some()
}

/// Whether there is the URI of a signed object.
pub(crate) fn has_object(cert: &Cert) -> bool
    ensures { IsTrue result ↔ (cert.now.tbs.access.object ≢ None) }
{
    cert.tbs().signed_object().is_some()
}

// Whether there is the URI of a notification file.
fn has_notify(cert: &Cert) -> bool
    ensures { IsTrue result ↔ (cert.now.tbs.access.notify ≢ None) }
{
    cert.tbs().rpki_notify().is_some()
}

/// Whether there is no URI of the four access methods.
pub(crate) fn has_no_access(cert: &Cert) -> bool
    ensures { IsTrue result ↔ (cert.now.tbs.access ≡ no_access) }
{
    let repository = has_repository(cert);
    let manifest = has_manifest(cert);
    let object = has_object(cert);
    let notify = has_notify(cert);
    !repository && !manifest && !object && !notify
}

// Whether the folder of a manifest is a repository (RFC 6487 4.8.8.1).
fn lies_in(manifest: &[u8], repository: &[u8]) -> bool
    ensures { IsTrue result ↔ LiesIn manifest.now repository.now }
{
    match paths::parent(manifest) {
        Some(folder) => paths::is_identical(folder, repository),
        None => false,
    }
}

/// Whether there are a manifest and a repository, and the manifest lies in the repository (RFC 6487
/// 4.8.8.1).
pub(crate) fn has_manifest_inside(cert: &Cert) -> bool
    ensures { IsTrue result ↔
        LiesThere cert.now.tbs.access.manifest cert.now.tbs.access.repository }
{
    let Some(manifest) = cert.tbs().rpki_manifest() else {
        return false;
    };
    let Some(repository) = cert.tbs().ca_repository() else {
        return false;
    };
    lies_in(manifest.as_slice(), repository.as_slice())
}
