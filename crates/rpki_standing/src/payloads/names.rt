//! Names of files at a publication point (RFC 6481 2.2, 7.2).

ghost use Rattle.std.specs.Prelude.{◌≡◌, ◌↔◌, IsTrue, Some, map};
ghost use Rattle.rpki_standing.specs.certs_basics.Uris.{lower};
ghost use Rattle.rpki_rules.specs.Chains.{HasExtension};
ghost use Rattle.rpki_standing.specs.Names.{letters};

/// What the extension of a file's name says that the file is.
#[derive(Clone, Copy, Debug, PartialEq, Eq)]
pub enum Extension {
    /// `cer`: a certificate.
    Cer,
    /// `roa`: a route origin attestation.
    Roa,
    /// `asa`: a provider attestation.
    Asa,
}

// Whether the name ends with a dot and these three letters, whatever their case.
fn has_extension(uri: &[u8], extension: &[u8; 3]) -> bool
    ensures { IsTrue result ↔ HasExtension (map lower extension.now) uri.now }
{
    let Some(dot) = uri.len().checked_sub(4) else {
        return false;
    };
    uri[dot] == b'.' && uri[dot + 1..].eq_ignore_ascii_case(extension)
}

/// The extension that a file's name has: the letters after its last dot, whatever their case. None where it has none of
/// these three.
pub fn extension_of(uri: &[u8]) -> Option<Extension>
    ensures { (e : Extension) → (result ≡ Some e) ↔ HasExtension (letters e) uri.now }
{
    if has_extension(uri, b"cer") {
        Some(Extension::Cer)
    } else if has_extension(uri, b"roa") {
        Some(Extension::Roa)
    } else if has_extension(uri, b"asa") {
        Some(Extension::Asa)
    } else {
        None
    }
}
