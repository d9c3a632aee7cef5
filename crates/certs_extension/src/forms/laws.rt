//! Laws of certificates and revocation lists: the contracts of functions that do nothing.

ghost use Rattle.certs_extension.specs.Spellings.{CertIsSpelled, CrlIsSpelled};

/// In DER a tree is a certificate exactly where its octets spell it.
pub fn cert_is_spelled()
    ensures { CertIsSpelled }
{}

/// In DER a tree is a revocation list exactly where its octets spell it.
pub fn crl_is_spelled()
    ensures { CrlIsSpelled }
{}
