//! Tests of algorithms, names and keys (RFC 6487 4.3 to 4.5, 4.7, 4.8.2, 4.8.3).

ghost use Rattle.std.specs.Prelude.{◌≡◌, ◌↔◌, IsTrue};
ghost use Rattle.certs_verify.specs.certs_basics.Keys.{identifier};
ghost use Rattle.certs_verify.specs.certs_basics.Names.{IsRpkiName};
ghost use Rattle.certs_verify.specs.certs_key.Digesting.{digests_of};
ghost use Rattle.certs_cert.specs.certs_extension.Profiles.{format_for, strict_for};

use certs_cert::{Cert, Digester, PublicKeyFormat, Role};

/// Whether the inner and the outer algorithm are equal (RFC 5280 4.1.1.2).
pub(crate) fn has_one_algorithm(cert: &Cert) -> bool
    ensures { IsTrue result ↔ (cert.now.tbs.has_null ≡ cert.now.signed.has_null) }
{
    let inner = cert.tbs().signature();
    let outer = *cert.signed_data().signature().algorithm();
    inner.has_null() == outer.has_null()
}

/// Whether the issuer's name is one of the profile (RFC 6487 4.4).
pub(crate) fn has_issuer(cert: &Cert, strict: bool) -> bool
    ensures { IsTrue result ↔ IsRpkiName strict cert.now.tbs.issuer }
{
    cert.tbs().issuer().inspect_rpki(strict).is_ok()
}

// Whether names of subjects are looked at strictly.
fn is_strict(role: Role, strict: bool) -> bool
    ensures { result ≡ strict_for role strict }
{
    match role {
        Role::Ta => strict,
        Role::Ca => strict,
        Role::Ee => strict,
        Role::DetachedEe => strict,
        Role::Router => false,
    }
}

/// Whether the subject's name is one of the profile (RFC 6487 4.5, RFC 8209 3.1.1).
pub(crate) fn has_subject(cert: &Cert, role: Role, strict: bool) -> bool
    ensures { IsTrue result ↔ IsRpkiName (strict_for role strict) cert.now.tbs.subject }
{
    let strict = is_strict(role, strict);
    cert.tbs().subject().inspect_rpki(strict).is_ok()
}

// The format of keys.
fn key_format(role: Role) -> PublicKeyFormat
    ensures { result ≡ format_for role }
{
    match role {
        Role::Ta => PublicKeyFormat::Rsa,
        Role::Ca => PublicKeyFormat::Rsa,
        Role::Ee => PublicKeyFormat::Rsa,
        Role::DetachedEe => PublicKeyFormat::Rsa,
        Role::Router => PublicKeyFormat::Ecdsa,
    }
}

/// Whether the key is of the format that is wanted (RFC 7935 3, RFC 8608 3.1).
pub(crate) fn has_key(cert: &Cert, role: Role) -> bool
    ensures { IsTrue result ↔ (cert.now.tbs.key.format ≡ format_for role) }
{
    cert.tbs().subject_public_key_info().algorithm() == key_format(role)
}

/// Whether the subject key identifier is the key's (RFC 6487 4.8.2).
pub(crate) fn has_own_identifier<D: Digester>(cert: &Cert, digester: &D) -> bool
    ensures { IsTrue result ↔ (cert.now.tbs.subject_key_identifier ≡ identifier
        (digests_of D.sha256_digest D.sha1_digest digester.now) cert.now.tbs.key) }
{
    let own = cert
        .tbs()
        .subject_public_key_info()
        .key_identifier(digester);
    cert.tbs().subject_key_identifier() == own
}
