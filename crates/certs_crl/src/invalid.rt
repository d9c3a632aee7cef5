//! The refusal for an extension that a revocation list doesn't have (RFC 6487 5).

ghost use Rattle.std.specs.Prelude.{◌≡◌, IfOk, Some};
ghost use Rattle.certs_crl.specs.Invalid.{IsOwnedText, invalid_text};

use bcder::Oid;
use bcder::decode::ContentError;
use std::alloc::{AllocError, Global};
use std::fmt;
use std::marker::Model;

/// An extension that a revocation list doesn't have: only two may be there (RFC 6487 5). Contracts see the content octets
/// of its identifier.
#[derive(Debug, Drop)]
pub struct InvalidExtension {
    oid: Oid,
}

impl Model for InvalidExtension {
    ghost use Rattle.std.specs.Prelude.{ℕ, List};

    ghost Value = { List ℕ };

    ghost view = { λ e. e.oid.0 };
}

impl InvalidExtension {
    // The extension with that identifier.
    pub(crate) fn new(oid: Oid) -> InvalidExtension
        ensures { result ≡ oid.0 }
    {
        InvalidExtension { oid }
    }

    /// The refusal of a content for that extension: by an owned text, which is what the extension prints.
    pub fn to_content_error(&self, alloc: Global) -> Result<ContentError, AllocError>
        ensures { IfOk result (IsOwnedText (invalid_text self.now)) }
    {
        Ok(ContentError::Owned(self.to_string(alloc)?))
    }
}

/// `invalid extension `, and the components of the identifier with dots between them.
impl fmt::Display for InvalidExtension {
    ghost output = { λ oid. Some (invalid_text oid) };

    fn fmt<W: fmt::Write>(&self, f: &mut fmt::Formatter<W>) -> fmt::Result {
        write!(f, "invalid extension {}", self.oid)
    }
}

/// A clone has the same identifier. No octet is copied, but a count of copies can be full.
impl Clone for InvalidExtension {
    ghost is_clone = { λ extension copy. copy ≡ extension };

    fn clone(&self) -> Result<Self, AllocError> {
        Ok(InvalidExtension {
            oid: self.oid.clone()?,
        })
    }
}
